// Ranks of the tasks that stripping leaves, the same inside a component and falling along the edges between components:
// Pearce's form of Tarjan's search, along the predecessors. Whoever takes them judges them, so nothing is proved of the
// ranks; of the search, that it ends and stays inside its tables.
#![tactic(auto)]

ghost use Rattle.std.specs.Prelude.{◌≡◌, ℕ, ◌+◌, ◌≤◌, ◌<◌, length, get_or};
ghost use Rattle.graph.specs.Graph.{graph_of};
ghost use Rattle.graph.specs.Conditions.{Sound};
ghost use Rattle.components.specs.Places.{Below};

use tables::Table;

// No search takes more turns: each task is entered once and left once, each edge passed once, so E + 2N suffice.
const MOST: u32 = 16384;

// A component's rank is above that of every task on the way.
const TOP: u32 = 65535;

// Where the search stands: at a task, with the last of those that are left but in no component yet.
#[derive(Clone, Copy)]
struct Place {
    task: usize,
    last: usize,
    // kept: with an Option<Place> in its place, a begin that is refused for a cycle takes 5 to 13 % more instructions
    open: bool,
}

// The tasks that wait behind v are of its component. Answers the last of those that go on waiting.
fn close(
    n: usize,
    rank: &mut [u32; 1024],
    back: &[u32; 1024],
    from: usize,
    v: usize,
    part: u32,
) -> usize
    requires { (n ≤ 1024) × (Below n back.now × ((from < n) × (v < n))) }
    ensures { result < n }
{
    let mut last = from;
    for _ in 0..n {
        if (last == v) | (rank[last] < rank[v]) {
            return last;
        }
        rank[last] = part;
        last = back[last] as usize;
    }
    last
}

// Leaves the task, whose predecessors are looked at: it goes on waiting, or its component is whole.
fn leave(
    n: usize,
    rank: &mut [u32; 1024],
    met: &[u32; 1024],
    back: &mut [u32; 1024],
    s: Place,
    turn: u32,
) -> Place
    requires { (n ≤ 1024) × (Below n back.old × (((s.task < n) × (s.last < n)) × (turn < 16384))) }
    ensures { Below n back.new × ((result.task < n) × (result.last < n)) }
{
    let v = s.task;
    let u = back[v] as usize;
    if rank[v] < met[v] {
        back[v] = s.last as u32;
        return Place {
            task: u,
            last: v,
            open: true,
        };
    }
    let last = close(n, rank, back, s.last, v, TOP - turn);
    rank[v] = TOP - turn;
    Place {
        task: u,
        last,
        open: u != v,
    }
}

// Enters task u, from task v.
fn enter(
    table: Table,
    rank: &mut [u32; 1024],
    met: &mut [u32; 1024],
    at: &mut [u32; 1024],
    back: &mut [u32; 1024],
    u: usize,
    v: usize,
    turn: u32,
)
    requires { Below table.tasks back.old × ((u < table.tasks) × (v < table.tasks)) }
    ensures { Below table.entry.tasks back.new }
{
    rank[u] = turn;
    met[u] = turn;
    at[u] = table.starts[u];
    back[u] = v as u32;
}

// Passes over a predecessor that was met; the lower rank is kept.
fn pass(rank: &mut [u32; 1024], at: &mut [u32; 1024], v: usize, low: u32)
    requires { (v < 1024) × (get_or at.old v 0 < 8192) }
{
    rank[v] = rank[v].min(low);
    at[v] += 1;
}

// Looks at the next predecessor of the task.
fn look(
    table: Table,
    rank: &mut [u32; 1024],
    met: &mut [u32; 1024],
    at: &mut [u32; 1024],
    back: &mut [u32; 1024],
    s: Place,
    turn: u32,
) -> Place
    requires { Below table.tasks back.old × (((s.task < table.tasks) × (s.last < table.tasks))
        × (get_or at.old s.task 0 < get_or table.starts.now (s.task + 1) 0)) }
    ensures { Below table.entry.tasks back.new × ((result.task < table.entry.tasks) × (result.last < table.entry.tasks)) }
{
    let v = s.task;
    let p = at[v] as usize;
    let u = table.words[p] as usize;
    let low = rank[u];
    // kept: rank 0 says "not met", as the tables start at 0; an Option in each word would double them
    if low == 0 {
        enter(table, rank, met, at, back, u, v, turn);
        return Place {
            task: u,
            last: s.last,
            open: true,
        };
    }
    pass(rank, at, v, low);
    s
}

// One turn of the search.
fn step(
    table: Table,
    rank: &mut [u32; 1024],
    met: &mut [u32; 1024],
    at: &mut [u32; 1024],
    back: &mut [u32; 1024],
    s: Place,
    turn: u32,
) -> Place
    requires { Below table.tasks back.old × (((s.task < table.tasks) × (s.last < table.tasks)) × (turn < 16384)) }
    ensures { Below table.entry.tasks back.new × ((result.task < table.entry.tasks) × (result.last < table.entry.tasks)) }
{
    let v = s.task;
    if at[v] < table.starts[v + 1] {
        return look(table, rank, met, at, back, s, turn);
    }
    leave(table.tasks, rank, met, back, s, turn)
}

// Searches from task t on, if it is left and was not met yet. Answers the turn that comes next.
fn visit(
    table: Table,
    left: &[u32],
    rank: &mut [u32; 1024],
    met: &mut [u32; 1024],
    at: &mut [u32; 1024],
    back: &mut [u32; 1024],
    t: usize,
    from: u32,
) -> u32
    requires { (length left.now ≡ 1024) × ((t < table.tasks) × (Below table.tasks back.old × (from ≤ 16384))) }
    ensures { Below table.entry.tasks back.new × (result ≤ 16384) }
{
    if MOST <= from {
        return from;
    }
    if (left[t] == 0) | (rank[t] != 0) {
        return from;
    }
    enter(table, rank, met, at, back, t, t, from);
    let mut s = Place {
        task: t,
        last: t,
        open: true,
    };
    // kept: counted by a range, such a begin takes 1 to 2 % more
    let mut turn = from + 1;
    while turn < MOST {
        s = step(table, rank, met, at, back, s, turn);
        turn += 1;
        if !s.open {
            return turn;
        }
    }
    turn
}

// The ranks of the tasks left, in words that are 0.
pub fn rank_left(n: usize, starts: &[u32], preds: &[u32], left: &[u32], rank: &mut [u32; 1024])
    requires { Sound (graph_of n starts.now preds.now) × (length left.now ≡ 1024) }
{
    let table = Table {
        tasks: n,
        starts,
        words: preds,
    };
    let mut met = [0u32; 1024];
    let mut at = [0u32; 1024];
    let mut back = [0u32; 1024];
    let mut turn = 1;
    for t in 0..n {
        turn = visit(table, left, rank, &mut met, &mut at, &mut back, t, turn);
    }
}
