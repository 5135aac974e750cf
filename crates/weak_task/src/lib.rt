// The types of weak jobs' interface: copies, worker rows with a copy in hand, what a weak step answers.
#![tactic(auto)]

ghost use Rattle.std.specs.Prelude.{◌≡◌};
ghost use Rattle.weak_task.specs.Types.{no_copy, idle};

use task::{Refusal, TaskId, WorkerId};

// What a task's fixed word holds as long as it has no worker.
pub const UNFIXED: WorkerId = WorkerId(65535);

// A copy of a task: the task, and the finished neighbour that it is run with. A root's one copy has NIL for this.
#[repr(C)]
#[derive(Clone, Copy)]
pub struct TaskCopy {
    pub task: TaskId,
    pub predecessor: TaskId,
}

impl TaskCopy {
    pub fn new(task: TaskId, predecessor: TaskId) -> TaskCopy
        ensures { (result.task ≡ task) × (result.predecessor ≡ predecessor) }
    {
        TaskCopy { task, predecessor }
    }

    // What an empty hand holds: NIL twice.
    pub fn none() -> TaskCopy
        ensures { result ≡ no_copy }
    {
        TaskCopy {
            task: TaskId::NIL,
            predecessor: TaskId::NIL,
        }
    }
}

// A copy as its words, in the order of its fields, the same memory: its cell.
pub const COPY_WORDS: usize = 2;

pub type CopyCell = [u32; COPY_WORDS];

// What a worker of a weak job keeps between its steps: as a plain job's, with a copy in hand.
#[repr(C)]
#[derive(Clone, Copy)]
pub struct WeakRow {
    pub phase: u32,
    pub held: TaskCopy,
    pub pointer: WorkerId,
    pub read: u32,
    pub write: u32,
    pub cursor: u32,
}

impl WeakRow {
    // A worker's row as begin leaves it.
    pub fn idle() -> WeakRow
        ensures { result ≡ idle }
    {
        WeakRow {
            phase: 0,
            held: TaskCopy {
                task: TaskId::NIL,
                predecessor: TaskId::NIL,
            },
            pointer: WorkerId(0),
            read: 0,
            write: 0,
            cursor: 0,
        }
    }
}

// A row as its words, in the order of its fields, the same memory: its cell.
pub const WEAK_ROW_WORDS: usize = 7;

pub type WeakRowCell = [u32; WEAK_ROW_WORDS];

// What an accepted weak step answers: nothing more (Start, Complete), the copy fetched, or the copy made and its owner.
#[derive(Clone, Copy)]
pub enum WeakOutcome {
    Moved,
    Fetched(TaskCopy),
    Placed(TaskCopy, WorkerId),
}

// A weak step's answer: its outcome, or refused.
pub type WeakAnswer = Result<WeakOutcome, Refusal>;
