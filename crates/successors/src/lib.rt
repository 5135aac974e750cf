// The successor table, filled from the predecessor table, each task's successors rising, and the degrees.
#![tactic(auto)]

ghost use Rattle.std.specs.Prelude.{◌≡◌, ◌+◌, ◌≤◌, ◌<◌, length, get_or, set};
ghost use Rattle.graph.specs.Graph.{graph_of};
ghost use Rattle.graph.specs.Conditions.{Sound};
ghost use Rattle.graph.specs.Successors.{succ_starts_of, succ_words, degree_list};
ghost use Rattle.tables.specs.Tables.{graph_in};
ghost use Rattle.successors.specs.Filling.{Starts, gaps, sum_below, Summed, placed_of, place_all, Room, Begun};

use tables::Table;

// Each task's degree is the number of its predecessors.
fn fill_degrees(n: usize, starts: &[u32], degrees: &mut [u32])
    requires { Starts n starts.now × (length degrees.old ≡ n) }
    ensures { degrees.new ≡ gaps n starts.now }
{
    for t in 0..n {
        degrees[t] = starts[t + 1] - starts[t];
    }
}

// Each task's successors start where those of the tasks below it end. The counts become the starts too: the next free
// place of each task.
fn fill_starts(n: usize, counts: &mut [u32], starts: &mut [u32])
    requires { (n ≤ length counts.old) × ((length starts.old ≡ n + 1) × (sum_below counts.old n ≤ 8192)) }
    ensures { Summed n counts.old counts.new starts.new }
{
    let mut sum = 0u32;
    for u in 0..n {
        let count = counts[u];
        counts[u] = sum;
        starts[u] = sum;
        sum += count;
    }
    starts[n] = sum;
}

// Task t takes the next free place among u's successors.
fn place(next: &mut [u32], succs: &mut [u32], u: usize, t: u32)
    requires { (u < length next.old) × ((get_or next.old u 0 < length succs.old) × (length succs.old ≤ 8192)) }
    ensures { (next.new ≡ set next.old u (get_or next.old u 0 + 1))
        × (succs.new ≡ set succs.old (get_or next.old u 0) t) }
{
    let at = next[u];
    succs[at as usize] = t;
    next[u] = at + 1;
}

// Task t takes the next free place of each of its predecessors.
fn place_all(words: &[u32], next: &mut [u32], succs: &mut [u32], t: u32)
    requires { Room words.now next.old succs.old × (length succs.old ≤ 8192) }
    ensures { placed_of next.new succs.new ≡ place_all t words.now (placed_of next.old
        succs.old) }
{
    for &word in words {
        place(next, succs, word as usize, t);
    }
}

// The tasks rising, so that each task's successors rise.
fn fill_words(table: Table, next: &mut [u32], succs: &mut [u32])
    requires { Begun (graph_in table) next.old succs.old }
    ensures { succs.new ≡ succ_words (graph_in table.entry) }
{
    for t in 0..table.tasks {
        place_all(table.part(t), next, succs, t as u32);
    }
}

// Successor starts, successors and degrees of a graph that row 3 does not refuse.
pub fn fill(
    n: usize,
    starts: &[u32],
    preds: &[u32],
    succ_starts: &mut [u32],
    succs: &mut [u32],
    degrees: &mut [u32],
)
    requires { Sound (graph_of n starts.now preds.now) × ((length succ_starts.old ≡ n + 1)
        × ((length succs.old ≡ length preds.now) × (length degrees.old ≡ n))) }
    ensures { (succ_starts.new ≡ succ_starts_of (graph_of n starts.now preds.now))
        × ((succs.new ≡ succ_words (graph_of n starts.now preds.now))
        × (degrees.new ≡ degree_list (graph_of n starts.now preds.now))) }
{
    let table = Table {
        tasks: n,
        starts,
        words: preds,
    };
    let mut next = [0u32; 1024];
    tables::count_words(preds, &mut next);
    fill_starts(n, &mut next, succ_starts);
    fill_words(table, &mut next, succs);
    fill_degrees(n, starts, degrees);
}
