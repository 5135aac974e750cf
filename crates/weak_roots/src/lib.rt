// The roots of a weak job at begin: fixed to their workers, their copies in the rings, their degrees, and their number.
#![tactic(auto)]

ghost use Rattle.std.specs.Prelude.{◌≡◌, List, ℕ, ◌+◌, ◌≤◌, ◌<◌, length, replicate, set};
ghost use Rattle.task.specs.Types.{engine};
ghost use Rattle.graph.specs.Graph.{graph_of};
ghost use Rattle.graph.specs.Conditions.{Sound};
ghost use Rattle.graph.specs.Successors.{roots};
ghost use Rattle.roots.specs.Laying.{Job, Room};
ghost use Rattle.weak_rows.specs.Copies.{copies_of};
ghost use Rattle.weak_roots.specs.Laying.{Placed, Laid, Raised};

use task::{TaskId, WorkerId};
use weak_task::{CopyCell, TaskCopy};

// The task, if it is a root, is fixed to its owner, its one copy joins the owner's own ring, and its weight that counter. The owner of the
// next root.
fn lay_task(
    weights: &[u32],
    degrees: &[u32],
    fixed: &mut [u32],
    rings: &mut [CopyCell],
    ends: &mut [u32],
    counters: &mut [i32],
    p: usize,
    k: usize,
    owner: WorkerId,
    task: TaskId,
) -> WorkerId
    requires { Laid p k weights.now degrees.now task.0 owner.0 fixed.old (copies_of rings.old) ends.old counters.old
        × (task.0 < length degrees.now) }
    ensures { Laid p k weights.now degrees.now (task.0 + 1) result.0 fixed.new
        (copies_of rings.new) ends.new counters.new }
{
    let t = task.0 as usize;
    if degrees[t] != 0 {
        return owner;
    }
    let q = searches::ring_number(p, owner, owner);
    let weight = weights[t];
    let both = ring::ends_at(ends, q);
    let copy = TaskCopy {
        task,
        predecessor: TaskId::NIL,
    };
    fixed[t] = owner.0;
    weak_rows::append_copy(rings, ends, k, q, both, copy);
    counters::raise(counters, q, weight);
    searches::after_worker(p, owner)
}

// The roots rising, dealt out to the workers in turn.
fn place_roots(
    weights: &[u32],
    degrees: &[u32],
    fixed: &mut [u32],
    rings: &mut [CopyCell],
    ends: &mut [u32],
    counters: &mut [i32],
    p: usize,
    k: usize,
)
    requires { Laid p k weights.now degrees.now 0 0 fixed.old (copies_of rings.old) ends.old counters.old }
    ensures { Placed p k weights.now degrees.now (length degrees.now) fixed.new
        (copies_of rings.new) ends.new counters.new }
{
    let mut owner = WorkerId(0);
    for t in 0..degrees.len() as u32 {
        owner = lay_task(
            weights,
            degrees,
            fixed,
            rings,
            ends,
            counters,
            p,
            k,
            owner,
            TaskId(t),
        );
    }
}

// A task's degree, from the number of its predecessors: "a root being begun with degree 1". The roots are known by their degree 0 up to
// here, so their degrees are raised last.
fn raise_roots(degrees: &mut [u32])
    ensures { Raised degrees.old degrees.new }
{
    for degree in degrees.iter_mut() {
        *degree = (*degree).max(1);
    }
}

// Fixed words, rings, ends and counters from any words: cleared, then the roots placed; and the degrees, numbers of predecessors before.
pub fn lay_roots(
    weights: &[u32],
    degrees: &mut [u32],
    fixed: &mut [u32],
    rings: &mut [CopyCell],
    ends: &mut [u32],
    counters: &mut [i32],
    p: usize,
    k: usize,
)
    requires { Job p k weights.now degrees.old × (Room p k (copies_of rings.old) ends.old counters.old
        × (length fixed.old ≡ length degrees.old)) }
    ensures { Placed p k weights.now degrees.old (length degrees.old) fixed.new
        (copies_of rings.new) ends.new counters.new
        × Raised degrees.old degrees.new }
{
    fixed.fill(weak_task::UNFIXED.0);
    weak_rows::clear_copies(rings);
    roots::clear(ends);
    counters.fill(0);
    place_roots(weights, degrees, fixed, rings, ends, counters, p, k);
    raise_roots(degrees);
}

// The run words: no entry, no accepted step, and R.
pub fn lay_run(n: usize, starts: &[u32], run: &mut [u32])
    requires { (n ≤ engine.tasks) × ((length starts.now ≡ n + 1) × (length run.old ≡ 3)) }
    ensures { (preds : List ℕ) → Sound (graph_of n starts.now preds) → run.new
        ≡ set (replicate (length run.old) 0) 2 (length (roots (graph_of n starts.now preds))) }
{
    roots::clear(run);
    let found = roots::count_roots(n, starts);
    run[2] = found as u32;
}
