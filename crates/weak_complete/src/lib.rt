// Complete of a weak job: the held copy joins the record and its task's degree falls by one; with the last copy the task's weight leaves the
// worker's own counter, and the task joins the completed buffer if it has successors.
#![tactic(auto)]

ghost use Rattle.std.specs.Prelude.{◌≡◌, [], ◌∷◌, ◌+◌, ◌*◌, ◌≤◌, ◌<◌, length, set};
ghost use Rattle.task.specs.Types.{engine};
ghost use Rattle.weak_task.specs.Types.{copy_of};
ghost use Rattle.memory.specs.Updates.{store_words};
ghost use Rattle.weak_admission.specs.Admission.{Knows};
ghost use Rattle.weak_complete.specs.Complete.{Completes, HandAndWrite};
ghost use Rattle.weak_complete.specs.Planned.{Opens, Decides, DecidesLast, DecidesCopy};
ghost use Rattle.weak_complete.specs.Written.{let_go_row, Recordable, Records, Enterable, Lightens, Joinable, WritesCopy, WritesSink, WritesInner};

use task::{Answer, Refusal, Step, TaskId, WorkerId};
use weak_admission::{WeakSizes, WeakStepped};
use weak_task::{TaskCopy, WeakOutcome, WeakRow};

// What Complete is to do: a copy joins the record that isn't its task's last; the last one does, and its task is a sink, or joins the buffer.
// With the entries word, the accepted word, and the task's degree or, for the last copy, its weight, as read.
#[derive(Clone, Copy)]
pub enum CompletePlan {
    Copy(u32, u32, u32),
    Sink(u32, u32, u32),
    Inner(u32, u32, u32),
}

// A copy that isn't its task's last: the accepted word is left to check.
fn plan_copy(
    run: &[u32],
    n: usize,
    e: usize,
    task: TaskId,
    entries: u32,
    roots: u32,
    degree: u32,
) -> Result<CompletePlan, Refusal>
    requires { (length run.now ≡ 3) × ((n ≤ engine.tasks) × ((e ≤ engine.edges)
        × Opens n e run.now entries roots task.0 degree)) }
    ensures { DecidesCopy n e run.now task.0 degree result }
{
    let accepted = run[1];
    if 4 * e + 3 * roots as usize <= accepted as usize {
        return Err(Refusal::Damaged);
    }
    Ok(CompletePlan::Copy(entries, accepted, degree))
}

// The task's last copy: its weight, the worker's own counter, the successor range, for a task with successors the buffer's places, the
// accepted word.
fn plan_last(
    weights: &[u32],
    succ_starts: &[u32],
    counters: &[i32],
    run: &[u32],
    e: usize,
    own: usize,
    row: WeakRow,
    entries: u32,
    roots: u32,
) -> Result<CompletePlan, Refusal>
    requires { (length weights.now ≤ engine.tasks) × ((e ≤ engine.edges) × ((length succ_starts.now ≡ length weights.now + 1)
        × ((own < length counters.now) × ((length run.now ≡ 3)
        × Opens (length weights.now) e run.now entries roots row.held.task.0 1)))) }
    ensures { DecidesLast e own row weights.now succ_starts.now counters.now run.now result }
{
    let n = weights.len();
    let task = row.held.task.0 as usize;
    let weight = weights[task];
    if 65535 < weight {
        return Err(Refusal::Damaged);
    }
    if !counters::counter_fits(counters, own) {
        return Err(Refusal::Damaged);
    }
    let past = succ_starts[task + 1];
    if e < past as usize {
        return Err(Refusal::Damaged);
    }
    let first = succ_starts[task];
    if past <= first {
        if past < first {
            return Err(Refusal::Damaged);
        }
        let accepted = run[1];
        if 4 * e + 3 * roots as usize <= accepted as usize {
            return Err(Refusal::Damaged);
        }
        return Ok(CompletePlan::Sink(entries, accepted, weight));
    }
    if n <= row.write as usize {
        return Err(Refusal::Damaged);
    }
    if row.write < row.read {
        return Err(Refusal::Damaged);
    }
    let accepted = run[1];
    if 4 * e + 3 * roots as usize <= accepted as usize {
        return Err(Refusal::Damaged);
    }
    Ok(CompletePlan::Inner(entries, accepted, weight))
}

// Everything is read and checked: R, the entries word, the held copy, the degree of its task, then what that degree says. R, "read just before
// either other", is read once.
pub fn plan_complete(
    weights: &[u32],
    succ_starts: &[u32],
    degrees: &[u32],
    counters: &[i32],
    run: &[u32],
    e: usize,
    own: usize,
    row: WeakRow,
) -> Result<CompletePlan, Refusal>
    requires { (length weights.now ≤ engine.tasks) × ((e ≤ engine.edges) × ((length succ_starts.now ≡ length weights.now + 1)
        × ((length degrees.now ≡ length weights.now) × ((own < length counters.now) × (length run.now ≡ 3))))) }
    ensures { Decides e own row weights.now succ_starts.now degrees.now counters.now
        run.now result }
{
    let n = weights.len();
    let roots = run[2];
    if n < roots as usize {
        return Err(Refusal::Damaged);
    }
    let entries = run[0];
    let copies = e + roots as usize;
    if copies <= entries as usize {
        if entries as usize == copies {
            return Err(Refusal::RecordFull);
        }
        return Err(Refusal::Damaged);
    }
    let held = row.held;
    if !weak_admission::copy_fits(held, n) {
        return Err(Refusal::Damaged);
    }
    let task = held.task;
    let degree = degrees[task.0 as usize];
    if degree < 2 {
        if degree == 0 {
            return Err(Refusal::Damaged);
        }
        return plan_last(
            weights,
            succ_starts,
            counters,
            run,
            e,
            own,
            row,
            entries,
            roots,
        );
    }
    if n < degree as usize {
        return Err(Refusal::Damaged);
    }
    plan_copy(run, n, e, task, entries, roots, degree)
}

// Entry n of the record becomes the copy and its worker.
fn put_copy(executed: &mut [u32], n: usize, copy: TaskCopy, worker: WorkerId)
    requires { 3 * n + 2 < length executed.old }
    ensures { executed.new
        ≡ store_words executed.old (3 * n) (copy.task.0 ∷ copy.predecessor.0 ∷ worker.0 ∷ []) }
{
    executed[3 * n] = copy.task.0;
    executed[3 * n + 1] = copy.predecessor.0;
    executed[3 * n + 2] = worker.0;
}

// The degree of the copy's task falls by one, the copy and its worker join the record, and the step is counted, by the words as read.
fn join_record(
    degrees: &mut [u32],
    executed: &mut [u32],
    run: &mut [u32],
    entries: u32,
    accepted: u32,
    degree: u32,
    copy: TaskCopy,
    worker: WorkerId,
)
    requires { Recordable (length degrees.old) (length executed.old) (length run.old) copy.task.0 degree entries accepted }
    ensures { Records entries accepted degree (copy_of copy) worker.0 degrees.old degrees.new
        executed.old executed.new run.old run.new }
{
    degrees[copy.task.0 as usize] = degree - 1;
    put_copy(executed, entries as usize, copy, worker);
    run[1] = accepted + 1;
    run[0] = entries + 1;
}

// The task joins the worker's completed buffer, at the write place.
fn join_buffer(buffers: &mut [u32], n: usize, worker: WorkerId, write: u32, task: TaskId)
    requires { Joinable worker.0 n write (length buffers.old) }
    ensures { buffers.new ≡ set buffers.old (worker.0 * n + write) task.0 }
{
    buffers[worker.0 as usize * n + write as usize] = task.0;
}

// The row after Complete: the hand becomes empty, and the write place is as given.
fn let_go(row: WeakRow, write: u32) -> WeakRow
    ensures { result ≡ let_go_row write row }
{
    WeakRow {
        held: TaskCopy {
            task: TaskId::NIL,
            predecessor: TaskId::NIL,
        },
        write,
        ..row
    }
}

// What is written for a copy that isn't its task's last, by the words as read; the row after it.
pub fn write_copy(
    degrees: &mut [u32],
    executed: &mut [u32],
    run: &mut [u32],
    worker: WorkerId,
    row: WeakRow,
    entries: u32,
    accepted: u32,
    degree: u32,
) -> WeakRow
    requires { Enterable row.held.task.0 degree entries accepted degrees.old executed.old run.old }
    ensures writes_copy { WritesCopy worker.0 row degrees.old degrees.new executed.old executed.new
        run.old run.new result }
    ensures value { result ≡ let_go_row row.write row }
{
    let held = row.held;
    join_record(
        degrees, executed, run, entries, accepted, degree, held, worker,
    );
    let_go(row, row.write)
}

// For the last copy of a sink: its weight leaves the worker's own counter, whose number this is.
pub fn write_sink(
    degrees: &mut [u32],
    counters: &mut [i32],
    executed: &mut [u32],
    run: &mut [u32],
    own: usize,
    worker: WorkerId,
    row: WeakRow,
    entries: u32,
    accepted: u32,
    weight: u32,
) -> WeakRow
    requires { Enterable row.held.task.0 1 entries accepted degrees.old executed.old run.old × Lightens own weight counters.old }
    ensures writes_sink { WritesSink worker.0 own weight row degrees.old degrees.new counters.old
        counters.new executed.old executed.new run.old run.new result }
    ensures value { result ≡ let_go_row row.write row }
{
    let held = row.held;
    counters::lower(counters, own, weight);
    join_record(degrees, executed, run, entries, accepted, 1, held, worker);
    let_go(row, row.write)
}

// For the last copy of another task, among n: the task joins the worker's buffer too.
pub fn write_inner(
    degrees: &mut [u32],
    counters: &mut [i32],
    buffers: &mut [u32],
    executed: &mut [u32],
    run: &mut [u32],
    n: usize,
    own: usize,
    worker: WorkerId,
    row: WeakRow,
    entries: u32,
    accepted: u32,
    weight: u32,
) -> WeakRow
    requires { Enterable row.held.task.0 1 entries accepted degrees.old executed.old run.old × (Lightens own weight counters.old
        × Joinable worker.0 n row.write (length buffers.old)) }
    ensures writes_inner { WritesInner worker.0 n own weight row degrees.old degrees.new counters.old
        counters.new buffers.old buffers.new executed.old executed.new
        run.old run.new result }
    ensures value { result ≡ let_go_row (row.write + 1) row }
{
    let held = row.held;
    let task = held.task;
    counters::lower(counters, own, weight);
    join_record(degrees, executed, run, entries, accepted, 1, held, worker);
    join_buffer(buffers, n, worker, row.write, task);
    let_go(row, row.write + 1)
}

// Complete by a worker with this row, after what was judged; `sizes` are the lengths of all lent lists.
pub fn complete_row(
    sizes: WeakSizes,
    judged: Answer,
    p: usize,
    k: usize,
    worker: WorkerId,
    row: WeakRow,
    weights: &[u32],
    succ_starts: &[u32],
    degrees: &mut [u32],
    counters: &mut [i32],
    buffers: &mut [u32],
    executed: &mut [u32],
    run: &mut [u32],
) -> WeakStepped
    requires { Knows p k worker.0 sizes judged × ((length weights.now ≡ sizes.weights)
        × ((length succ_starts.now ≡ sizes.succ_starts) × ((length degrees.old ≡ sizes.degrees)
        × ((length counters.old ≡ sizes.counters) × ((length buffers.old ≡ sizes.buffers)
        × ((length executed.old ≡ sizes.executed) × (length run.old ≡ sizes.run))))))) }
    ensures completes { Completes p k worker.0 sizes judged row weights.now succ_starts.now
        degrees.old degrees.new counters.old counters.new
        buffers.old buffers.new executed.old executed.new
        run.old run.new result }
    ensures hand_and_write { HandAndWrite row result }
{
    let after = weak_admission::admit(judged, row, Step::Complete)?;
    let own = searches::ring_number(p, worker, worker);
    let plan = plan_complete(
        weights,
        succ_starts,
        degrees,
        counters,
        run,
        sizes.preds,
        own,
        after,
    )?;
    match plan {
        CompletePlan::Copy(entries, accepted, degree) => {
            let left = write_copy(
                degrees, executed, run, worker, after, entries, accepted, degree,
            );
            Ok((WeakOutcome::Moved, left))
        }
        CompletePlan::Sink(entries, accepted, weight) => {
            let left = write_sink(
                degrees, counters, executed, run, own, worker, after, entries, accepted, weight,
            );
            Ok((WeakOutcome::Moved, left))
        }
        CompletePlan::Inner(entries, accepted, weight) => {
            let left = write_inner(
                degrees,
                counters,
                buffers,
                executed,
                run,
                weights.len(),
                own,
                worker,
                after,
                entries,
                accepted,
                weight,
            );
            Ok((WeakOutcome::Moved, left))
        }
    }
}
