// Fetch of a weak job: everything is read and checked; then the copy leaves its ring. Weights, counters and fixed workers are not read:
// they are not lent.
#![tactic(auto)]

ghost use Rattle.std.specs.Prelude.{◌≡◌, length};
ghost use Rattle.weak_task.specs.Types.{copy_of};
ghost use Rattle.weak_rows.specs.Copies.{copies_of};
ghost use Rattle.weak_admission.specs.Admission.{Knows};
ghost use Rattle.weak_fetch.specs.Fetch.{Fetches, HandAndPointer};
ghost use Rattle.weak_fetch.specs.Plan.{Sized, HeadFound, PlansFound, PlansFetch};
ghost use Rattle.weak_fetch.specs.Written.{taken_row, Takeable, WritesFetch};

use task::{Answer, Ends, Refusal, Step, WorkerId};
use weak_admission::{WeakSizes, WeakStepped};
use weak_task::{CopyCell, TaskCopy, WeakOutcome, WeakRow};

// The head that is fetched: the filler of its ring, the ring's ends, the copy there and the accepted word, each as read.
#[derive(Clone, Copy)]
pub struct CopyHead {
    pub filler: WorkerId,
    pub ends: Ends,
    pub copy: TaskCopy,
    pub accepted: u32,
}

// What Fetch is to do: take the head of a ring; or it is refused.
pub type CopyPlan = Result<CopyHead, Refusal>;

// Once a ring that isn't empty is found, by its filler and ends: the copy at its head, then R and the accepted word.
pub fn plan_found(
    rings: &[CopyCell],
    run: &[u32],
    p: usize,
    k: usize,
    worker: WorkerId,
    tasks: usize,
    edges: usize,
    filler: WorkerId,
    ends: Ends,
) -> CopyPlan
    requires { HeadFound p k worker.0 tasks edges rings.now run.now filler.0 ends }
    ensures { PlansFound p k worker.0 tasks edges (copies_of rings.now) run.now filler ends result }
{
    let ring = searches::ring_number(p, worker, filler);
    let copy = weak_rows::head_copy(rings, k, ring, ends);
    if !weak_admission::copy_fits(copy, tasks) {
        return Err(Refusal::Damaged);
    }
    let accepted = weak_admission::count_of(run, tasks, edges)?;
    Ok(CopyHead {
        filler,
        ends,
        copy,
        accepted,
    })
}

// The pointer, the scan from there, and the head of the ring where it stops.
pub fn plan_fetch(
    rings: &[CopyCell],
    ends: &[u32],
    run: &[u32],
    p: usize,
    k: usize,
    worker: WorkerId,
    tasks: usize,
    edges: usize,
    pointer: WorkerId,
) -> CopyPlan
    requires { Sized p k worker.0 tasks edges rings.now ends.now run.now }
    ensures { PlansFetch p k worker.0 tasks edges pointer.0 (copies_of rings.now) ends.now
        run.now result }
{
    if p <= pointer.0 as usize {
        return Err(Refusal::Damaged);
    }
    let Some((filler, both)) = searches::find_task(ends, p, k, worker, pointer)? else {
        return Err(Refusal::NothingThere);
    };
    plan_found(rings, run, p, k, worker, tasks, edges, filler, both)
}

// What is written, by the words as read: the head of the filler's ring is taken, one step more is accepted; the row holds the copy, and its
// pointer is after the filler.
pub fn write_fetch(
    ends: &mut [u32],
    run: &mut [u32],
    p: usize,
    k: usize,
    worker: WorkerId,
    row: WeakRow,
    head: CopyHead,
) -> WeakRow
    requires { Takeable p k worker.0 ends.old run.old head.filler.0 head.ends head.accepted }
    ensures writes_fetch { WritesFetch p k worker.0 row head.filler.0 (copy_of head.copy) ends.old ends.new run.old
        run.new result }
    ensures value { result ≡ taken_row p head.filler.0 head.copy row }
{
    let ring = searches::ring_number(p, worker, head.filler);
    ring::take_at(ends, k, ring, head.ends);
    run[1] = head.accepted + 1;
    let pointer = searches::after_worker(p, head.filler);
    let held = head.copy;
    WeakRow {
        held,
        pointer,
        ..row
    }
}

// Fetch by a worker with this row, after what was judged; `sizes` are the lengths of all lent lists.
pub fn fetch_row(
    sizes: WeakSizes,
    judged: Answer,
    p: usize,
    k: usize,
    worker: WorkerId,
    row: WeakRow,
    rings: &[CopyCell],
    ends: &mut [u32],
    run: &mut [u32],
) -> WeakStepped
    requires { Knows p k worker.0 sizes judged × ((length rings.now ≡ sizes.rings)
        × ((length ends.old ≡ sizes.ends) × (length run.old ≡ sizes.run))) }
    ensures fetches { Fetches p k worker.0 sizes judged row (copies_of rings.now) ends.old ends.new
        run.old run.new result }
    ensures hand_and_pointer { HandAndPointer row result }
{
    let after = weak_admission::admit(judged, row, Step::Fetch)?;
    let pointer = after.pointer;
    let head = plan_fetch(
        rings,
        ends,
        run,
        p,
        k,
        worker,
        sizes.weights,
        sizes.preds,
        pointer,
    )?;
    let left = write_fetch(ends, run, p, k, worker, after, head);
    Ok((WeakOutcome::Fetched(head.copy), left))
}
