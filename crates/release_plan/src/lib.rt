// What Release reads before it writes: the successor at the cursor, and the owner whose ring takes it; so what it is to do.
#![tactic(auto)]

ghost use Rattle.std.specs.Prelude.{◌≡◌, ◌+◌, ◌*◌, ◌≤◌, ◌<◌, length};
ghost use Rattle.task.specs.Types.{engine};
ghost use Rattle.ring.specs.Ring.{end_words};
ghost use Rattle.release_plan.specs.Reach.{reach_of};
ghost use Rattle.release_plan.specs.Picks.{degree_of, Picked};
ghost use Rattle.release_plan.specs.Owners.{owner_of, Owned};
ghost use Rattle.release_plan.specs.Plans.{place_of, lists_of, Measures, Decides};

use task::{Ends, Refusal, Row, TaskId, WorkerId};

// The successor at the cursor, the completed task that it follows, and how many successors that one has.
pub type Reached = Result<(TaskId, TaskId, u32), Refusal>;

// The oldest task in the worker's buffer, and its successor at the cursor, among n tasks.
pub fn pick_successor(
    succ_starts: &[u32],
    succs: &[u32],
    n: usize,
    buffers: &[u32],
    worker: WorkerId,
    read: u32,
    write: u32,
    cursor: u32,
) -> Reached
    requires { (length succ_starts.now ≡ n + 1) × (worker.0 * n + n ≤ length buffers.now) }
    ensures { result ≡ reach_of worker.0 n read write cursor succ_starts.now succs.now buffers.now }
{
    if n < write as usize {
        return Err(Refusal::Damaged);
    }
    if write <= read {
        if read == write {
            return Err(Refusal::NothingThere);
        }
        return Err(Refusal::Damaged);
    }
    let done = buffers[worker.0 as usize * n + read as usize];
    if n <= done as usize {
        return Err(Refusal::Damaged);
    }
    let past = succ_starts[done as usize + 1];
    if succs.len() < past as usize {
        return Err(Refusal::Damaged);
    }
    let first = succ_starts[done as usize];
    if past < first {
        return Err(Refusal::Damaged);
    }
    let count = past - first;
    if count <= cursor {
        return Err(Refusal::Damaged);
    }
    let task = succs[first as usize + cursor as usize];
    if n <= task as usize {
        return Err(Refusal::Damaged);
    }
    Ok((TaskId(task), TaskId(done), count))
}

// A successor that waits on, with the degree left to it and the accepted word as read; or one that is ready. Both with the number of
// successors that the completed task has.
#[derive(Clone, Copy)]
pub enum Pick {
    Waiting(TaskId, u32, u32, u32),
    Ready(TaskId, u32),
}

// The successor by its degree; where it waits on, the accepted word is read, last of all.
fn pick_degree(
    degrees: &[u32],
    run: &[u32],
    steps: usize,
    task: TaskId,
    count: u32,
) -> Result<Pick, Refusal>
    requires { (task.0 < length degrees.now) × (length run.now ≡ 2) }
    ensures { result ≡ degree_of steps task count degrees.now run.now }
{
    let degree = degrees[task.0 as usize];
    if degree < 2 {
        if degree == 0 {
            return Err(Refusal::Damaged);
        }
        return Ok(Pick::Ready(task, count));
    }
    if degrees.len() < degree as usize {
        return Err(Refusal::Damaged);
    }
    let accepted = run[1];
    if steps <= accepted as usize {
        return Err(Refusal::Damaged);
    }
    Ok(Pick::Waiting(task, count, degree - 1, accepted))
}

// The successor of a plain job, and its degree.
pub fn pick_next(
    succ_starts: &[u32],
    succs: &[u32],
    degrees: &[u32],
    buffers: &[u32],
    run: &[u32],
    steps: usize,
    worker: WorkerId,
    row: Row,
) -> Result<Pick, Refusal>
    requires { (length succ_starts.now ≡ length degrees.now + 1)
        × ((worker.0 * length degrees.now + length degrees.now ≤ length buffers.now) × (length run.now ≡ 2)) }
    ensures { Picked worker.0 steps row succ_starts.now succs.now degrees.now
        buffers.now run.now result }
{
    let (task, _, count) = pick_successor(
        succ_starts,
        succs,
        degrees.len(),
        buffers,
        worker,
        row.read,
        row.write,
        row.cursor,
    )?;
    pick_degree(degrees, run, steps, task, count)
}

// The worker whose ring takes the task, and that ring's ends as read.
pub type Owner = Result<(WorkerId, Ends), Refusal>;

// The first ring filled by the worker that isn't full, its owners from the target upward, modulo p.
pub fn find_owner(
    ends: &[u32],
    counters: &[i32],
    p: usize,
    k: usize,
    worker: WorkerId,
    task: TaskId,
) -> Owner
    requires { (worker.0 < p) × ((p ≤ engine.workers) × ((k ≤ engine.slots)
        × ((length ends.now ≡ p * p * end_words) × (length counters.now ≡ p * p)))) }
    ensures value { result ≡ owner_of p k worker.0 task.0 ends.now counters.now }
    ensures owned { Owned p k worker.0 task.0 ends.now counters.now result }
{
    let target = counters::choose(counters, p)?;
    let Some((owner, both)) = searches::find_room(ends, p, k, worker, target)? else {
        return Err(Refusal::RingsFull(task.0));
    };
    Ok((owner, both))
}

// What Release is to do: the successor waits on, with the degree left to it; or it joins the ring of this owner, whose ends follow, with its
// weight. Behind the task stands the number of successors that the completed task has, last the accepted word, each as read.
#[derive(Clone, Copy)]
pub enum ReleasePlan {
    Lower(TaskId, u32, u32, u32),
    Place(TaskId, u32, WorkerId, Ends, u32, u32),
}

// A task that is to join a ring of this owner, whose ends are known: its weight, and the accepted word, last of all.
pub fn plan_place(
    weights: &[u32],
    run: &[u32],
    steps: usize,
    task: TaskId,
    count: u32,
    owner: WorkerId,
    both: Ends,
) -> Result<ReleasePlan, Refusal>
    requires { (task.0 < length weights.now) × (length run.now ≡ 2) }
    ensures { result ≡ place_of steps task count owner both weights.now run.now }
{
    let weight = weights[task.0 as usize];
    if 65535 < weight {
        return Err(Refusal::Damaged);
    }
    let accepted = run[1];
    if steps <= accepted as usize {
        return Err(Refusal::Damaged);
    }
    Ok(ReleasePlan::Place(task, count, owner, both, weight, accepted))
}

// Everything that Release reads, in its order, for a worker with this row.
pub fn plan_release(
    weights: &[u32],
    succ_starts: &[u32],
    succs: &[u32],
    degrees: &[u32],
    buffers: &[u32],
    ends: &[u32],
    counters: &[i32],
    run: &[u32],
    p: usize,
    k: usize,
    steps: usize,
    worker: WorkerId,
    row: Row,
) -> Result<ReleasePlan, Refusal>
    requires { Measures p k worker.0 (lists_of weights.now succ_starts.now succs.now degrees.now buffers.now ends.now
        counters.now run.now) }
    ensures { Decides p k worker.0 steps row (lists_of weights.now succ_starts.now succs.now
        degrees.now buffers.now ends.now counters.now run.now) result }
{
    let picked = pick_next(
        succ_starts,
        succs,
        degrees,
        buffers,
        run,
        steps,
        worker,
        row,
    )?;
    match picked {
        Pick::Waiting(task, count, left, accepted) => {
            Ok(ReleasePlan::Lower(task, count, left, accepted))
        }
        Pick::Ready(task, count) => {
            let (owner, both) = find_owner(ends, counters, p, k, worker, task)?;
            plan_place(weights, run, steps, task, count, owner, both)
        }
    }
}
