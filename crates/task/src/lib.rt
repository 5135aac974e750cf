// The types of the engine's interface: task and worker numbers, worker rows, ring ends, steps, the table of
// phase against step, limits, refusals and answers.
#![tactic(auto)]

pub mod refusal;

ghost use Rattle.std.specs.Prelude.{◌≡◌, ◌<◌, min};
ghost use Rattle.task.specs.Types.{nil, idle, engine, preview, capped};
ghost use Rattle.task.specs.Phases.{next_phase};

pub use refusal::{Damaged, Refusal};

// A task's number. NIL stands for "no task" in a worker's row.
#[repr(C)]
#[derive(Clone, Copy)]
pub struct TaskId(pub u32);

impl TaskId {
    pub const NIL: TaskId = TaskId(65535);

    pub fn new(number: u32) -> TaskId
        ensures { result.0 ≡ number }
    {
        TaskId(number)
    }

    pub fn nil() -> TaskId
        ensures { result ≡ nil }
    {
        TaskId::NIL
    }
}

// A worker's number (the thread ID of the published algorithm).
#[repr(C)]
#[derive(Clone, Copy)]
pub struct WorkerId(pub u32);

impl WorkerId {
    pub fn new(number: u32) -> WorkerId
        ensures { result.0 ≡ number }
    {
        WorkerId(number)
    }
}

// What a worker keeps between its steps: the phase, the task in hand, the ring where the next scan starts, and the
// places of its completed buffer with the cursor over the successors of the oldest task there.
#[repr(C)]
#[derive(Clone, Copy)]
pub struct Row {
    pub phase: u32,
    pub held: TaskId,
    pub pointer: WorkerId,
    pub read: u32,
    pub write: u32,
    pub cursor: u32,
}

impl Row {
    // A worker's row as begin leaves it.
    pub fn idle() -> Row
        ensures { result ≡ idle }
    {
        Row {
            phase: 0,
            held: TaskId::NIL,
            pointer: WorkerId(0),
            read: 0,
            write: 0,
            cursor: 0,
        }
    }
}

// A row as its words, in the order of its fields, the same memory: its cell.
pub const ROW_WORDS: usize = 6;

pub type RowCell = [u32; ROW_WORDS];

// A ring's ends: head is the next slot to take, tail the slot that the next task goes to, count how many tasks stand from
// head on, modulo K.
#[repr(C)]
#[derive(Clone, Copy)]
pub struct Ends {
    pub head: u32,
    pub tail: u32,
    pub count: u32,
}

#[derive(Clone, Copy)]
pub enum Step {
    Fetch,
    Start,
    Complete,
    Release,
}

// Phases 0 idle, 1 fetched, 2 running, against Fetch, Start, Complete, Release: the phase after the step, or none where the step is
// refused.
const PHASES: [[Option<u32>; 4]; 3] = [
    [Some(1), None, None, Some(0)],
    [None, Some(2), None, None],
    [None, None, Some(0), None],
];

// No step suits a word that is no phase.
const NO_PHASE: [Option<u32>; 4] = [None, None, None, None];

// The phase after a step taken in this phase. Read at constant places the table takes no memory.
pub fn next_phase(phase: u32, step: Step) -> Option<u32>
    ensures { result ≡ next_phase phase step }
{
    let row = match phase {
        0 => PHASES[0],
        1 => PHASES[1],
        2 => PHASES[2],
        _ => NO_PHASE,
    };
    match step {
        Step::Fetch => row[0],
        Step::Start => row[1],
        Step::Complete => row[2],
        Step::Release => row[3],
    }
}

// The side of a task on which its neighbours stand.
#[derive(Clone, Copy)]
pub enum Side {
    Predecessors,
    Successors,
}

// How large a job may be. A limit above the engine's counts as the engine's.
#[repr(C)]
#[derive(Clone, Copy)]
pub struct Limits {
    pub tasks: usize,
    pub edges: usize,
    pub workers: usize,
    pub slots: usize,
}

impl Limits {
    pub const ENGINE: Limits = Limits {
        tasks: 1024,
        edges: 8192,
        workers: 16,
        slots: 64,
    };

    // The planning window's.
    pub const PREVIEW: Limits = Limits {
        tasks: 128,
        edges: 512,
        workers: 4,
        slots: 8,
    };

    pub fn engine() -> Limits
        ensures { result ≡ engine }
    {
        Limits::ENGINE
    }

    pub fn preview() -> Limits
        ensures { result ≡ preview }
    {
        Limits::PREVIEW
    }

    pub fn capped(self) -> Limits
        ensures { result ≡ capped self }
    {
        Limits {
            tasks: smaller(self.tasks, 1024),
            edges: smaller(self.edges, 8192),
            workers: smaller(self.workers, 16),
            slots: smaller(self.slots, 64),
        }
    }
}

pub fn smaller(a: usize, b: usize) -> usize
    ensures { result ≡ min a b }
{
    if a < b { a } else { b }
}

// The answer of begin, of the calls on a graph and of lookup's judging call: accepted, or refused.
pub type Answer = Result<(), Refusal>;

// The reader's answer: N and E, or refused.
pub type ReadAnswer = Result<(u32, u32), Refusal>;

// The writer's answer: the bytes used, or refused.
pub type WriteAnswer = Result<u32, Refusal>;

// What a Release did: the degree left, or the task placed and its new owner.
#[derive(Clone, Copy)]
pub enum ReleaseOutcome {
    DegreeLeft(u32),
    Placed(TaskId, WorkerId),
}

// What an accepted step answers: nothing more (Start, Complete), the task fetched, or what a Release did.
#[derive(Clone, Copy)]
pub enum StepOutcome {
    Moved,
    Fetched(TaskId),
    Released(ReleaseOutcome),
}

// A step's answer: its outcome, or refused.
pub type StepAnswer = Result<StepOutcome, Refusal>;
