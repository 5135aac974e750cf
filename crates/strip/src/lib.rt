// Strips tasks without remaining successors, last to first, along the predecessor lists. What is left are exactly the
// tasks on a cycle or with a path of edges to one.
#![tactic(auto)]

ghost use Rattle.std.specs.Prelude.{◌≡◌, ◌↔◌, ℕ, ◌+◌, ◌≤◌, ◌<◌, [], ◌∷◌, ◌++◌, length, get_or, take, drop};
ghost use Rattle.std.proofs.Math.Decide.{ℕ_discrete};
ghost use Rattle.lists.specs.Lists.{occ};
ghost use Rattle.graph.specs.Graph.{graph_of};
ghost use Rattle.graph.specs.Conditions.{Sound, ToCycle};
ghost use Rattle.graph.specs.Stripping.{keep_if, HandsOut};
ghost use Rattle.strip.specs.Queue.{Queued, Falling, Lowered};

use tables::Table;

// Queues the tasks without successors, the last first, and answers how many there are.
fn queue_sinks(n: usize, left: &[u32], queue: &mut [u32]) -> usize
    requires { (n ≤ 1024) × ((length left.now ≡ 1024) × (length queue.old ≡ 1024)) }
    ensures { Falling 0 n left.now queue.old queue.new result }
{
    let mut tail = 0;
    for t in (0..n).rev() {
        tail = queue_if(left, queue, tail, t);
    }
    tail
}

// Queues task t if it has no remaining successor.
fn queue_if(left: &[u32], queue: &mut [u32], tail: usize, t: usize) -> usize
    requires { ((t < length left.now) × (t < 1024)) × (tail < length queue.old) }
    ensures { (take result queue.new ≡ take tail queue.old ++ keep_if (ℕ_discrete (get_or left.now t 0) 0) t [])
        × ((tail ≤ result) × ((result ≤ tail + 1) × (drop result queue.new ≡ drop result queue.old))) }
{
    if left[t] == 0 {
        queue[tail] = t as u32;
        return tail + 1;
    }
    tail
}

// One successor less for task u; queued where none remains.
fn lower(left: &mut [u32], queue: &mut [u32], tail: usize, u: usize) -> usize
    requires { Queued left.old queue.old tail × (0 < get_or left.old u 0) }
    ensures { Lowered (u ∷ []) left.old left.new queue.old queue.new tail result }
{
    let more = left[u] - 1;
    left[u] = more;
    if more == 0 {
        queue[tail] = u as u32;
        return tail + 1;
    }
    tail
}

// One successor less for each of the words.
fn lower_all(words: &[u32], left: &mut [u32], queue: &mut [u32], from: usize) -> usize
    requires { Queued left.old queue.old from × ((u : ℕ) → occ u words.now ≤ get_or left.old u 0) }
    ensures { Lowered words.now left.old left.new queue.old queue.new from result }
{
    let mut tail = from;
    for &word in words {
        tail = lower(left, queue, tail, word as usize);
    }
    tail
}

// From the numbers of successors in `left`: the order in which the tasks are stripped, and how many they are. A task is
// left with some successor exactly if it is on a cycle or has a path to one.
pub fn strip(n: usize, starts: &[u32], preds: &[u32], left: &mut [u32], order: &mut [u32]) -> usize
    requires { Sound (graph_of n starts.now preds.now) × ((length left.old ≡ 1024) × ((length order.old ≡ 1024)
        × ((u : ℕ) → get_or left.old u 0 ≡ occ u preds.now))) }
    ensures { HandsOut (graph_of n starts.now preds.now) order.old order.new result
        × ((t : ℕ) → t < n → (0 < get_or left.new t 0) ↔ ToCycle (graph_of n starts.now preds.now) t) }
{
    let table = Table {
        tasks: n,
        starts,
        words: preds,
    };
    let mut tail = queue_sinks(n, left, order);
    let mut head = 0;
    // kept: the bound moves, as what a turn queues is a turn to come
    while head < tail {
        tail = lower_all(table.part(order[head] as usize), left, order, tail);
        head += 1;
    }
    tail
}
