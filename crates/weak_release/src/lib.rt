// Release of a weak job: a copy of the oldest completed task's successor at the cursor joins a ring. A task's first copy picks the ring and
// fixes the task's worker, its later copies follow.
#![tactic(auto)]

ghost use Rattle.std.specs.Prelude.{◌≡◌, ◌+◌, ◌*◌, ◌≤◌, ◌<◌, length};
ghost use Rattle.task.specs.Types.{engine};
ghost use Rattle.weak_task.specs.Rows.{with_places};
ghost use Rattle.weak_rows.specs.Copies.{copies_of};
ghost use Rattle.weak_admission.specs.Admission.{Knows};
ghost use Rattle.weak_release.specs.Release.{tables_of, words_of, Lent, Releases, ReadAndCursor};
ghost use Rattle.weak_release.specs.Plan.{fixed_of, PicksCopy, Counts, Ended, PlansFirst, PlansLater, Sized, PlansRelease};
ghost use Rattle.weak_release.specs.Written.{advanced_row, Placeable, Raises, WritesLater, WritesFirst};

use task::{Answer, Ends, Refusal, Step, TaskId, WorkerId};
use weak_admission::{WeakSizes, WeakStepped};
use weak_task::{CopyCell, TaskCopy, WeakOutcome, WeakRow};

// The successor at the cursor, the completed task that it follows, and how many successors that one has: of a task that is fixed to no worker
// yet, or to this one.
#[derive(Clone, Copy)]
pub enum CopyPick {
    First(TaskId, TaskId, u32),
    Later(TaskId, TaskId, u32, WorkerId),
}

// The worker that the successor is fixed to, or none yet.
fn pick_fixed(
    fixed: &[u32],
    p: usize,
    task: TaskId,
    completed: TaskId,
    count: u32,
) -> Result<CopyPick, Refusal>
    requires { (task.0 < length fixed.now) × (p ≤ engine.workers) }
    ensures { result ≡ fixed_of p fixed.now task completed count }
{
    let word = fixed[task.0 as usize];
    if p <= word as usize {
        if word != weak_task::UNFIXED.0 {
            return Err(Refusal::Damaged);
        }
        return Ok(CopyPick::First(task, completed, count));
    }
    Ok(CopyPick::Later(task, completed, count, WorkerId(word)))
}

// The copy that is to be placed, by the lists that it is found in.
pub fn pick_copy(
    succ_starts: &[u32],
    succs: &[u32],
    fixed: &[u32],
    buffers: &[u32],
    p: usize,
    worker: WorkerId,
    row: WeakRow,
) -> Result<CopyPick, Refusal>
    requires { (length succ_starts.now ≡ length fixed.now + 1) × ((worker.0 * length fixed.now + length fixed.now ≤ length buffers.now)
        × (p ≤ engine.workers)) }
    ensures { PicksCopy p worker.0 row succ_starts.now succs.now fixed.now buffers.now result }
{
    let (task, completed, count) = release_plan::pick_successor(
        succ_starts,
        succs,
        fixed.len(),
        buffers,
        worker,
        row.read,
        row.write,
        row.cursor,
    )?;
    pick_fixed(fixed, p, task, completed, count)
}

// What Release is to do: a task's first copy joins the ring of this owner, and the weight with it; or a later one does. With the copy that was
// picked, the owner, the ring's ends, the weight of a first copy, and the accepted word, as read.
#[derive(Clone, Copy)]
pub enum WeakPlan {
    First(TaskId, TaskId, u32, WorkerId, Ends, u32, u32),
    Later(TaskId, TaskId, u32, WorkerId, Ends, u32),
}

// The first copy, once its owner is found, by whatever way, and the ends of the ring that the worker fills there: its weight, then R and the
// accepted word.
pub fn plan_first(
    weights: &[u32],
    run: &[u32],
    edges: usize,
    task: TaskId,
    completed: TaskId,
    count: u32,
    owner: WorkerId,
    both: Ends,
) -> Result<WeakPlan, Refusal>
    requires { Counts (length weights.now) edges run.now × (task.0 < length weights.now) }
    ensures { PlansFirst edges task completed count owner both weights.now run.now result }
{
    let weight = weights[task.0 as usize];
    if 65535 < weight {
        return Err(Refusal::Damaged);
    }
    let accepted = weak_admission::count_of(run, weights.len(), edges)?;
    Ok(WeakPlan::First(task, completed, count, owner, both, weight, accepted))
}

// "later copies go only to that worker's ring, and 11 is given exactly if that ring is full"
pub fn plan_later(
    ends: &[u32],
    run: &[u32],
    p: usize,
    k: usize,
    worker: WorkerId,
    tasks: usize,
    edges: usize,
    task: TaskId,
    completed: TaskId,
    count: u32,
    owner: WorkerId,
) -> Result<WeakPlan, Refusal>
    requires { Counts tasks edges run.now × (Ended p k worker.0 ends.now × (owner.0 < p)) }
    ensures { PlansLater p k worker.0 tasks edges task completed count owner ends.now run.now result }
{
    let ring = searches::ring_number(p, owner, worker);
    let both = ring::ends_at(ends, ring);
    if !ring::is_sound(both, k) {
        return Err(Refusal::Damaged);
    }
    if ring::is_full(both, k) {
        return Err(Refusal::RingsFull(task.0));
    }
    let accepted = weak_admission::count_of(run, tasks, edges)?;
    Ok(WeakPlan::Later(task, completed, count, owner, both, accepted))
}

// Everything is read and checked: the copy, for a first one "its ring as in document 01", then the rest.
pub fn plan_release(
    weights: &[u32],
    succ_starts: &[u32],
    succs: &[u32],
    fixed: &[u32],
    ends: &[u32],
    counters: &[i32],
    buffers: &[u32],
    run: &[u32],
    p: usize,
    k: usize,
    worker: WorkerId,
    edges: usize,
    row: WeakRow,
) -> Result<WeakPlan, Refusal>
    requires { Sized p k worker.0 edges weights.now succ_starts.now succs.now fixed.now ends.now counters.now buffers.now
        run.now }
    ensures { PlansRelease p k worker.0 edges row weights.now succ_starts.now succs.now
        fixed.now ends.now counters.now buffers.now run.now result }
{
    let picked = pick_copy(succ_starts, succs, fixed, buffers, p, worker, row)?;
    match picked {
        CopyPick::First(task, completed, count) => {
            let (owner, both) = release_plan::find_owner(ends, counters, p, k, worker, task)?;
            plan_first(weights, run, edges, task, completed, count, owner, both)
        }
        CopyPick::Later(task, completed, count, owner) => plan_later(
            ends,
            run,
            p,
            k,
            worker,
            weights.len(),
            edges,
            task,
            completed,
            count,
            owner,
        ),
    }
}

// The row after a successor: the cursor goes on, and after the last one the place of the oldest task.
fn advanced(row: WeakRow, count: u32) -> WeakRow
    requires { (row.read < row.write) × (row.cursor < count) }
    ensures value { result ≡ advanced_row count row }
    ensures value_2 { result ≡ with_places result.read row.write result.cursor row }
{
    let mut read = row.read;
    let mut cursor = row.cursor + 1;
    if cursor == count {
        read += 1;
        cursor = 0;
    }
    WeakRow {
        read,
        cursor,
        ..row
    }
}

// What is written for a later copy, by the words as read; the row after it.
pub fn write_later(
    rings: &mut [CopyCell],
    ends: &mut [u32],
    run: &mut [u32],
    p: usize,
    k: usize,
    worker: WorkerId,
    row: WeakRow,
    task: TaskId,
    completed: TaskId,
    count: u32,
    owner: WorkerId,
    both: Ends,
    accepted: u32,
) -> WeakRow
    requires { Placeable p k worker.0 row count owner.0 both accepted (copies_of rings.old) ends.old run.old }
    ensures writes_later { WritesLater p k worker.0 row task completed count owner.0 (copies_of rings.old) (copies_of rings.new)
        ends.old ends.new run.old run.new result }
    ensures value { result ≡ with_places result.read row.write result.cursor row }
{
    let predecessor = completed;
    let copy = TaskCopy { task, predecessor };
    let ring = searches::ring_number(p, owner, worker);
    weak_rows::append_copy(rings, ends, k, ring, both, copy);
    run[1] = accepted + 1;
    advanced(row, count)
}

// For a first copy: the weight joins with it, and the owner is the task's worker.
pub fn write_first(
    fixed: &mut [u32],
    rings: &mut [CopyCell],
    ends: &mut [u32],
    counters: &mut [i32],
    run: &mut [u32],
    p: usize,
    k: usize,
    worker: WorkerId,
    row: WeakRow,
    task: TaskId,
    completed: TaskId,
    count: u32,
    owner: WorkerId,
    both: Ends,
    weight: u32,
    accepted: u32,
) -> WeakRow
    requires { Placeable p k worker.0 row count owner.0 both accepted (copies_of rings.old) ends.old run.old
        × ((task.0 < length fixed.old) × Raises p worker.0 owner.0 weight counters.old) }
    ensures writes_first { WritesFirst p k worker.0 row task completed count owner.0 weight (words_of fixed.old
        (copies_of rings.old) ends.old counters.old run.old) (words_of fixed.new
        (copies_of rings.new) ends.new counters.new run.new) result }
    ensures value { result ≡ with_places result.read row.write result.cursor row }
{
    let ring = searches::ring_number(p, owner, worker);
    counters::raise(counters, ring, weight);
    fixed[task.0 as usize] = owner.0;
    write_later(
        rings, ends, run, p, k, worker, row, task, completed, count, owner, both, accepted,
    )
}

// Release by a worker with this row, after what was judged; `sizes` are the lengths of all lent lists.
pub fn release_row(
    sizes: WeakSizes,
    judged: Answer,
    p: usize,
    k: usize,
    worker: WorkerId,
    row: WeakRow,
    weights: &[u32],
    succ_starts: &[u32],
    succs: &[u32],
    fixed: &mut [u32],
    rings: &mut [CopyCell],
    ends: &mut [u32],
    counters: &mut [i32],
    buffers: &[u32],
    run: &mut [u32],
) -> WeakStepped
    requires { Knows p k worker.0 sizes judged × Lent sizes (tables_of weights.now succ_starts.now succs.now buffers.now)
        (words_of fixed.old (copies_of rings.old) ends.old counters.old run.old) }
    ensures releases { Releases p k worker.0 sizes judged row (tables_of weights.now succ_starts.now
        succs.now buffers.now) (words_of fixed.old (copies_of rings.old)
        ends.old counters.old run.old) (words_of fixed.new (copies_of rings.new)
        ends.new counters.new run.new) result }
    ensures read_and_cursor { ReadAndCursor row result }
{
    let after = weak_admission::admit(judged, row, Step::Release)?;
    let plan = plan_release(
        weights,
        succ_starts,
        succs,
        fixed,
        ends,
        counters,
        buffers,
        run,
        p,
        k,
        worker,
        sizes.preds,
        after,
    )?;
    match plan {
        WeakPlan::First(task, predecessor, count, owner, both, weight, accepted) => {
            let left = write_first(
                fixed,
                rings,
                ends,
                counters,
                run,
                p,
                k,
                worker,
                after,
                task,
                predecessor,
                count,
                owner,
                both,
                weight,
                accepted,
            );
            Ok((
                WeakOutcome::Placed(TaskCopy { task, predecessor }, owner),
                left,
            ))
        }
        WeakPlan::Later(task, predecessor, count, owner, both, accepted) => {
            let left = write_later(
                rings,
                ends,
                run,
                p,
                k,
                worker,
                after,
                task,
                predecessor,
                count,
                owner,
                both,
                accepted,
            );
            Ok((
                WeakOutcome::Placed(TaskCopy { task, predecessor }, owner),
                left,
            ))
        }
    }
}
