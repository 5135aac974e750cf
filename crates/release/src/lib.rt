// Release: the oldest completed task's successor at the cursor loses a degree; at zero it joins a ring.
#![tactic(auto)]

ghost use Rattle.std.specs.Prelude.{◌≡◌, ◌<◌, length};
ghost use Rattle.rules.specs.Memory.{with_places};
ghost use Rattle.admission.specs.Admission.{Knows};
ghost use Rattle.release.specs.Release.{tables_of, words_of, Lent, Releases, ReadAndCursor};
ghost use Rattle.release.specs.Parts.{advanced_row, Lowerable, Lowered, Placeable, Joined};

use admission::{Sizes, Stepped};
use release_plan::ReleasePlan;
use task::{Answer, Ends, ReleaseOutcome, Row, Step, StepOutcome, TaskId, WorkerId};

// The row after a successor: the cursor goes on, and after the last one the place of the oldest task.
fn advanced(row: Row, count: u32) -> Row
    requires { (row.read < row.write) × (row.cursor < count) }
    ensures value { result ≡ advanced_row count row }
    ensures value_2 { result ≡ with_places result.read row.write result.cursor row }
{
    let mut read = row.read;
    let mut cursor = row.cursor + 1;
    if cursor == count {
        read += 1;
        cursor = 0;
    }
    Row {
        read,
        cursor,
        ..row
    }
}

// The writes where the successor waits on, with the degree that is left.
pub fn lower(
    degrees: &mut [u32],
    run: &mut [u32],
    task: TaskId,
    count: u32,
    left: u32,
    accepted: u32,
    row: Row,
) -> Stepped
    requires { Lowerable row task.0 count accepted (length degrees.old) (length run.old) }
    ensures lowered { Lowered row task count left accepted degrees.old run.old degrees.new run.new result }
    ensures read_and_cursor { ReadAndCursor row result }
{
    let after = advanced(row, count);
    degrees[task.0 as usize] = left;
    run[1] = accepted + 1;
    Ok((
        StepOutcome::Released(ReleaseOutcome::DegreeLeft(left)),
        after,
    ))
}

// The writes where the task joins the ring of this owner that the worker fills; `both` are that ring's ends.
pub fn place(
    degrees: &mut [u32],
    rings: &mut [u32],
    ends: &mut [u32],
    counters: &mut [i32],
    run: &mut [u32],
    p: usize,
    k: usize,
    worker: WorkerId,
    task: TaskId,
    count: u32,
    owner: WorkerId,
    both: Ends,
    weight: u32,
    accepted: u32,
    row: Row,
) -> Stepped
    requires { Placeable p k worker.0 row task.0 count owner.0 both weight accepted (words_of degrees.old rings.old
        ends.old counters.old run.old) }
    ensures joined { Joined p k worker.0 row task count owner weight accepted (words_of degrees.old rings.old
        ends.old counters.old run.old) (words_of degrees.new rings.new
        ends.new counters.new run.new) result }
    ensures read_and_cursor { ReadAndCursor row result }
{
    let after = advanced(row, count);
    let ring = searches::ring_number(p, owner, worker);
    counters::raise(counters, ring, weight);
    ring::append_in(rings, ends, k, ring, both, task);
    degrees[task.0 as usize] = 0;
    run[1] = accepted + 1;
    Ok((
        StepOutcome::Released(ReleaseOutcome::Placed(task, owner)),
        after,
    ))
}

// Release by a worker with this row, after what was judged; `sizes` are the lengths of all lent lists.
pub fn release_row(
    sizes: Sizes,
    judged: Answer,
    p: usize,
    k: usize,
    worker: WorkerId,
    row: Row,
    weights: &[u32],
    succ_starts: &[u32],
    succs: &[u32],
    degrees: &mut [u32],
    rings: &mut [u32],
    ends: &mut [u32],
    counters: &mut [i32],
    buffers: &[u32],
    run: &mut [u32],
) -> Stepped
    requires { Knows p k worker.0 sizes judged × Lent sizes (tables_of weights.now succ_starts.now succs.now buffers.now)
        (words_of degrees.old rings.old ends.old counters.old run.old) }
    ensures releases { Releases p k worker.0 sizes judged row (tables_of weights.now succ_starts.now
        succs.now buffers.now) (words_of degrees.old rings.old ends.old
        counters.old run.old) (words_of degrees.new rings.new ends.new
        counters.new run.new) result }
    ensures read_and_cursor { ReadAndCursor row result }
{
    let after = admission::admit(judged, row, Step::Release)?;
    let steps = 3 * sizes.weights + sizes.preds;
    let plan = release_plan::plan_release(
        weights,
        succ_starts,
        succs,
        degrees,
        buffers,
        ends,
        counters,
        run,
        p,
        k,
        steps,
        worker,
        after,
    )?;
    match plan {
        ReleasePlan::Lower(task, count, left, accepted) => {
            lower(degrees, run, task, count, left, accepted, after)
        }
        ReleasePlan::Place(task, count, owner, both, weight, accepted) => place(
            degrees, rings, ends, counters, run, p, k, worker, task, count, owner, both, weight,
            accepted, after,
        ),
    }
}
