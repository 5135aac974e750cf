// Fetch: everything is read and checked; then the task leaves its ring. Its weight and the counters are not read: they are not lent.
#![tactic(auto)]

ghost use Rattle.std.specs.Prelude.{◌≡◌, ◌+◌, ◌≤◌, length, set};
ghost use Rattle.ring.specs.Ring.{store_ends, head_on};
ghost use Rattle.rules.specs.Memory.{ring_number};
ghost use Rattle.admission.specs.Admission.{Knows};
ghost use Rattle.fetch.specs.Fetch.{FetchesFound, FetchesAdmitted, Fetches, HandAndPointer};
ghost use Rattle.fetch.specs.Plan.{Readable, Sized, Reachable, Scanned, PlansTask, PlansFound, PlansFetch, Takeable, taken_by};

use admission::{Sizes, Stepped};
use searches::Found;
use task::{Answer, Ends, Refusal, Row, Step, StepOutcome, TaskId, WorkerId};

// The head that is fetched: the filler of its ring, the ring's ends, the task there and the accepted word, each as read.
#[derive(Clone, Copy)]
pub struct Head {
    pub filler: WorkerId,
    pub ends: Ends,
    pub task: TaskId,
    pub accepted: u32,
}

// What Fetch is to do: take the head of a ring; or it is refused.
pub type FetchPlan = Result<Head, Refusal>;

// What is read once the task is known: the accepted word.
fn plan_task(
    run: &[u32],
    tasks: usize,
    steps: usize,
    filler: WorkerId,
    ends: Ends,
    task: TaskId,
) -> FetchPlan
    requires { length run.now ≡ 2 }
    ensures { PlansTask tasks steps run.now filler.0 ends task.0 result }
{
    if tasks <= task.0 as usize {
        return Err(Refusal::Damaged);
    }
    let accepted = run[1];
    if steps <= accepted as usize {
        return Err(Refusal::Damaged);
    }
    Ok(Head {
        filler,
        ends,
        task,
        accepted,
    })
}

// What comes after a scan of the worker's rings: the head of the ring where it stopped.
pub fn plan_found(
    rings: &[u32],
    run: &[u32],
    p: usize,
    k: usize,
    worker: WorkerId,
    tasks: usize,
    steps: usize,
    found: Found,
) -> FetchPlan
    requires { Readable p k worker.0 rings.now run.now × Reachable p k found }
    ensures { PlansFound p k worker.0 tasks steps rings.now run.now found result }
{
    let Some((filler, both)) = found? else {
        return Err(Refusal::NothingThere);
    };
    let task = ring::head_of(rings, k, searches::ring_number(p, worker, filler), both);
    plan_task(run, tasks, steps, filler, both, task)
}

// The pointer, the scan from there, and what comes after it.
pub fn plan_fetch(
    rings: &[u32],
    ends: &[u32],
    run: &[u32],
    p: usize,
    k: usize,
    worker: WorkerId,
    tasks: usize,
    steps: usize,
    pointer: WorkerId,
) -> FetchPlan
    requires { Sized p k worker.0 rings.now ends.now run.now }
    ensures { PlansFetch p k worker.0 tasks steps pointer.0 rings.now ends.now run.now result }
{
    if p <= pointer.0 as usize {
        return Err(Refusal::Damaged);
    }
    let found = searches::find_task(ends, p, k, worker, pointer);
    plan_found(rings, run, p, k, worker, tasks, steps, found)
}

// The head is taken from its ring, one step more is accepted.
fn take_head(ends: &mut [u32], run: &mut [u32], p: usize, k: usize, worker: WorkerId, head: Head)
    requires { Takeable p k worker.0 ends.old run.old head.filler.0 head.ends head.accepted }
    ensures ends_after { ends.new ≡ store_ends ends.old (ring_number p worker.0 head.filler.0) (head_on k head.ends) }
    ensures run_after { run.new ≡ set run.old 1 (head.accepted + 1) }
{
    let ring = searches::ring_number(p, worker, head.filler);
    ring::take_at(ends, k, ring, head.ends);
    run[1] = head.accepted + 1;
}

// The writes: the task leaves the filler's ring and is held; the pointer goes to the ring after.
pub fn write_fetch(
    ends: &mut [u32],
    run: &mut [u32],
    p: usize,
    k: usize,
    worker: WorkerId,
    head: Head,
    row: Row,
) -> Stepped
    requires { Takeable p k worker.0 ends.old run.old head.filler.0 head.ends head.accepted }
    ensures ends_after { (ends.new ≡ store_ends ends.old (ring_number p worker.0 head.filler.0) (head_on k head.ends))
        × (run.new ≡ set run.old 1 (head.accepted + 1)) }
    ensures value { result ≡ taken_by p head row }
{
    take_head(ends, run, p, k, worker, head);
    let pointer = searches::after_worker(p, head.filler);
    let held = head.task;
    Ok((
        StepOutcome::Fetched(held),
        Row {
            held,
            pointer,
            ..row
        },
    ))
}

// Fetch from the end of a scan on, for a worker whose row is in the phase that Fetch leads to.
pub fn fetch_found(
    tasks: usize,
    steps: usize,
    p: usize,
    k: usize,
    worker: WorkerId,
    row: Row,
    rings: &[u32],
    ends: &mut [u32],
    run: &mut [u32],
    found: Found,
) -> Stepped
    requires { Sized p k worker.0 rings.now ends.old run.old × ((steps ≤ 65535) × Scanned p k worker.0 ends.old found) }
    ensures fetches_found { FetchesFound tasks steps p k worker.0 row rings.now ends.old ends.new
        run.old run.new found result }
    ensures hand_and_pointer { HandAndPointer row result }
{
    let head = plan_found(rings, run, p, k, worker, tasks, steps, found)?;
    write_fetch(ends, run, p, k, worker, head, row)
}

// Fetch's rule, for a worker that may fetch; its row is in the phase that Fetch leads to.
fn fetch_admitted(
    tasks: usize,
    steps: usize,
    p: usize,
    k: usize,
    worker: WorkerId,
    row: Row,
    rings: &[u32],
    ends: &mut [u32],
    run: &mut [u32],
) -> Stepped
    requires { Sized p k worker.0 rings.now ends.old run.old × (steps ≤ 65535) }
    ensures fetches_admitted { FetchesAdmitted tasks steps p k worker.0 row rings.now ends.old ends.new
        run.old run.new result }
    ensures hand_and_pointer { HandAndPointer row result }
{
    let head = plan_fetch(rings, ends, run, p, k, worker, tasks, steps, row.pointer)?;
    write_fetch(ends, run, p, k, worker, head, row)
}

// Fetch by a worker with this row, after what was judged; `sizes` are the lengths of all lent lists.
pub fn fetch_row(
    sizes: Sizes,
    judged: Answer,
    p: usize,
    k: usize,
    worker: WorkerId,
    row: Row,
    rings: &[u32],
    ends: &mut [u32],
    run: &mut [u32],
) -> Stepped
    requires { Knows p k worker.0 sizes judged × ((length rings.now ≡ sizes.rings)
        × ((length ends.old ≡ sizes.ends) × (length run.old ≡ sizes.run))) }
    ensures fetches { Fetches p k worker.0 sizes judged row rings.now ends.old ends.new
        run.old run.new result }
    ensures hand_and_pointer { HandAndPointer row result }
{
    let after = admission::admit(judged, row, Step::Fetch)?;
    let tasks = sizes.weights;
    let steps = 3 * tasks + sizes.preds;
    fetch_admitted(tasks, steps, p, k, worker, after, rings, ends, run)
}
