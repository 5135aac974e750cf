// The roots at begin: how many there are, and the rings laid down with them, each list cleared first.
#![tactic(auto)]

ghost use Rattle.std.specs.Prelude.{◌≡◌, List, ℕ, ◌+◌, ◌≤◌, ◌<◌, length, replicate};
ghost use Rattle.graph.specs.Graph.{graph_of};
ghost use Rattle.graph.specs.Conditions.{Sound};
ghost use Rattle.graph.specs.Successors.{roots};
ghost use Rattle.roots.specs.Laying.{Placed, Job, Room, Laid};

use task::{TaskId, WorkerId};

// How many tasks have no predecessor: their starts don't rise.
pub fn count_roots(n: usize, starts: &[u32]) -> usize
    requires { length starts.now ≡ n + 1 }
    ensures { (result ≤ n) × ((preds : List ℕ) → Sound (graph_of n starts.now preds)
        → result ≡ length (roots (graph_of n starts.now preds))) }
{
    let mut found = 0;
    for t in 0..n {
        if starts[t] == starts[t + 1] {
            found += 1;
        }
    }
    found
}

pub fn clear(words: &mut [u32])
    ensures { words.new ≡ replicate (length words.old) 0 }
{
    words.fill(0);
}

// The task, if it is a root, joins its owner's own ring, and its weight that counter. The owner of the next root.
fn lay_task(
    weights: &[u32],
    degrees: &[u32],
    rings: &mut [u32],
    ends: &mut [u32],
    counters: &mut [i32],
    p: usize,
    k: usize,
    owner: WorkerId,
    task: TaskId,
) -> WorkerId
    requires { Laid p k weights.now degrees.now task.0 owner.0 rings.old ends.old counters.old
        × (task.0 < length degrees.now) }
    ensures { Laid p k weights.now degrees.now (task.0 + 1) result.0 rings.new ends.new
        counters.new }
{
    let t = task.0 as usize;
    if degrees[t] != 0 {
        return owner;
    }
    let q = searches::ring_number(p, owner, owner);
    let weight = weights[t];
    let both = ring::ends_at(ends, q);
    ring::append_in(rings, ends, k, q, both, task);
    counters::raise(counters, q, weight);
    searches::after_worker(p, owner)
}

// The roots rising, dealt out to the workers in turn.
fn place_roots(
    weights: &[u32],
    degrees: &[u32],
    rings: &mut [u32],
    ends: &mut [u32],
    counters: &mut [i32],
    p: usize,
    k: usize,
)
    requires { Laid p k weights.now degrees.now 0 0 rings.old ends.old counters.old }
    ensures { Placed p k weights.now degrees.now (length degrees.now) rings.new
        ends.new counters.new }
{
    let mut owner = WorkerId(0);
    for t in 0..degrees.len() as u32 {
        owner = lay_task(
            weights,
            degrees,
            rings,
            ends,
            counters,
            p,
            k,
            owner,
            TaskId(t),
        );
    }
}

// Rings, ends and counters from any words: cleared, then the roots placed.
pub fn lay_rings(
    weights: &[u32],
    degrees: &[u32],
    rings: &mut [u32],
    ends: &mut [u32],
    counters: &mut [i32],
    p: usize,
    k: usize,
)
    requires { Job p k weights.now degrees.now × Room p k rings.old ends.old counters.old }
    ensures { Placed p k weights.now degrees.now (length degrees.now) rings.new
        ends.new counters.new }
{
    clear(rings);
    clear(ends);
    counters.fill(0);
    place_roots(weights, degrees, rings, ends, counters, p, k);
}
