// Complete: the held task's weight leaves the worker's own counter; the task joins the record, and the completed buffer if it has successors.
#![tactic(auto)]

ghost use Rattle.std.specs.Prelude.{◌≡◌, ◌+◌, ◌*◌, ◌≤◌, ◌<◌, length, set};
ghost use Rattle.task.specs.Types.{engine};
ghost use Rattle.admission.specs.Admission.{Knows};
ghost use Rattle.complete.specs.Complete.{Completes, HandAndWrite};
ghost use Rattle.complete.specs.Planned.{Decides, Recordable, Records, let_go_of, Leavable, Joinable, Leaves};

use admission::{Sizes, Stepped};
use task::{Answer, Refusal, Row, Step, StepOutcome, TaskId, WorkerId};

// What Complete is to do: the held task joins the record, and the buffer where it is no sink; with the run words and the task's weight as
// read.
#[derive(Clone, Copy)]
pub enum CompletePlan {
    Sink(u32, u32, u32),
    Inner(u32, u32, u32),
}

// Everything is read and checked: the entries word, the held task, its weight, the worker's own counter, the successor range, for a task with
// successors the buffer's places, the accepted word.
pub fn plan_complete(
    weights: &[u32],
    succ_starts: &[u32],
    counters: &[i32],
    run: &[u32],
    e: usize,
    own: usize,
    row: Row,
) -> Result<CompletePlan, Refusal>
    requires { (length weights.now ≤ engine.tasks) × ((e ≤ engine.edges) × ((length succ_starts.now ≡ length weights.now + 1)
        × ((own < length counters.now) × (length run.now ≡ 2)))) }
    ensures { Decides e own row weights.now succ_starts.now counters.now run.now result }
{
    let n = weights.len();
    let entries = run[0];
    if n <= entries as usize {
        if entries as usize == n {
            return Err(Refusal::RecordFull);
        }
        return Err(Refusal::Damaged);
    }
    let held = row.held.0 as usize;
    if n <= held {
        return Err(Refusal::Damaged);
    }
    let weight = weights[held];
    if 65535 < weight {
        return Err(Refusal::Damaged);
    }
    if !counters::counter_fits(counters, own) {
        return Err(Refusal::Damaged);
    }
    let past = succ_starts[held + 1];
    if e < past as usize {
        return Err(Refusal::Damaged);
    }
    let first = succ_starts[held];
    if past <= first {
        if past < first {
            return Err(Refusal::Damaged);
        }
        let accepted = run[1];
        if 3 * n + e <= accepted as usize {
            return Err(Refusal::Damaged);
        }
        return Ok(CompletePlan::Sink(entries, accepted, weight));
    }
    if n <= row.write as usize {
        return Err(Refusal::Damaged);
    }
    if row.write < row.read {
        return Err(Refusal::Damaged);
    }
    let accepted = run[1];
    if 3 * n + e <= accepted as usize {
        return Err(Refusal::Damaged);
    }
    Ok(CompletePlan::Inner(entries, accepted, weight))
}

// The task and its worker join the record, and the step is counted, by the run words as read.
fn join_record(
    executed: &mut [u32],
    run: &mut [u32],
    entries: u32,
    accepted: u32,
    task: TaskId,
    worker: WorkerId,
)
    requires { Recordable (length executed.old) (length run.old) entries accepted }
    ensures { Records entries accepted task.0 worker.0 executed.old executed.new run.old
        run.new }
{
    entries::put_entry(executed, entries as usize, task, worker);
    run[1] = accepted + 1;
    run[0] = entries + 1;
}

// The task joins the worker's completed buffer, at the write place.
fn join_buffer(buffers: &mut [u32], n: usize, worker: WorkerId, write: u32, task: TaskId)
    requires { (worker.0 * n + write < length buffers.old) × (length buffers.old ≤ engine.workers * engine.tasks) }
    ensures { buffers.new ≡ set buffers.old (worker.0 * n + write) task.0 }
{
    buffers[worker.0 as usize * n + write as usize] = task.0;
}

// An accepted Complete: "held becomes NIL", and the write place is as given.
fn let_go(row: Row, write: u32) -> Stepped
    ensures { result ≡ let_go_of write row }
{
    Ok((
        StepOutcome::Moved,
        Row {
            held: TaskId::NIL,
            write,
            ..row
        },
    ))
}

// The writes where the task has no successors: its weight leaves the worker's own counter, and it joins the record.
pub fn write_sink(
    counters: &mut [i32],
    executed: &mut [u32],
    run: &mut [u32],
    own: usize,
    worker: WorkerId,
    entries: u32,
    accepted: u32,
    weight: u32,
    row: Row,
) -> Stepped
    requires { Leavable own weight counters.old × Recordable (length executed.old) (length run.old) entries accepted }
    ensures { Leaves own worker.0 entries accepted weight row row.write counters.old counters.new
        executed.old executed.new run.old run.new result }
{
    let held = row.held;
    counters::lower(counters, own, weight);
    join_record(executed, run, entries, accepted, held, worker);
    let_go(row, row.write)
}

// The same where it has: it joins the worker's completed buffer too, among n places.
pub fn write_inner(
    counters: &mut [i32],
    buffers: &mut [u32],
    executed: &mut [u32],
    run: &mut [u32],
    n: usize,
    own: usize,
    worker: WorkerId,
    entries: u32,
    accepted: u32,
    weight: u32,
    row: Row,
) -> Stepped
    requires { Leavable own weight counters.old × (Recordable (length executed.old) (length run.old) entries accepted
        × Joinable n worker.0 row.write (length buffers.old)) }
    ensures leaves { Leaves own worker.0 entries accepted weight row (row.write + 1) counters.old counters.new
        executed.old executed.new run.old run.new result }
    ensures buffers_after { buffers.new ≡ set buffers.old (worker.0 * n + row.write) row.held.0 }
{
    let held = row.held;
    counters::lower(counters, own, weight);
    join_record(executed, run, entries, accepted, held, worker);
    join_buffer(buffers, n, worker, row.write, held);
    let_go(row, row.write + 1)
}

// Complete by a worker with this row, after what was judged; `sizes` are the lengths of all lent lists.
pub fn complete_row(
    sizes: Sizes,
    judged: Answer,
    p: usize,
    k: usize,
    worker: WorkerId,
    row: Row,
    weights: &[u32],
    succ_starts: &[u32],
    counters: &mut [i32],
    buffers: &mut [u32],
    executed: &mut [u32],
    run: &mut [u32],
) -> Stepped
    requires { Knows p k worker.0 sizes judged × ((length weights.now ≡ sizes.weights)
        × ((length succ_starts.now ≡ sizes.succ_starts) × ((length counters.old ≡ sizes.counters)
        × ((length buffers.old ≡ sizes.buffers) × ((length executed.old ≡ sizes.executed)
        × (length run.old ≡ sizes.run)))))) }
    ensures completes { Completes p k worker.0 sizes judged row weights.now succ_starts.now
        counters.old counters.new buffers.old buffers.new
        executed.old executed.new run.old run.new result }
    ensures hand_and_write { HandAndWrite row result }
{
    let after = admission::admit(judged, row, Step::Complete)?;
    let own = searches::ring_number(p, worker, worker);
    let plan = plan_complete(weights, succ_starts, counters, run, sizes.preds, own, after)?;
    match plan {
        CompletePlan::Sink(entries, accepted, weight) => {
            write_sink(
                counters, executed, run, own, worker, entries, accepted, weight, after,
            )
        }
        CompletePlan::Inner(entries, accepted, weight) => write_inner(
            counters,
            buffers,
            executed,
            run,
            weights.len(),
            own,
            worker,
            entries,
            accepted,
            weight,
            after,
        ),
    }
}
