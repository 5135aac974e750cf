// What a weak job's calls share, which lend the worker rows and the slots as cells, seven words and two: the same memory as lists of
// `WeakRow` and of `TaskCopy`. The lengths of all lent lists; the end of each step, which stores the words of the row that it changes.
#![tactic(auto)]

ghost use Rattle.std.specs.Prelude.{◌≡◌, ◌<◌, length, get_or};
ghost use Rattle.weak_task.specs.Types.{idle};
ghost use Rattle.weak_rows.specs.Rows.{rows_of};
ghost use Rattle.weak_admission.specs.Admission.{sizes_of, answer_of, rows_after};
ghost use Rattle.weak_fetch.specs.Fetch.{HandAndPointer};
ghost use Rattle.weak_start.specs.Start.{PhaseAlone};
ghost use Rattle.weak_complete.specs.Complete.{HandAndWrite};
ghost use Rattle.weak_release.specs.Release.{ReadAndCursor};
ghost use Rattle.weak_engine_cells.specs.Cells.{weak_cell_mem};

use task::WorkerId;
use weak_admission::{WeakSizes, WeakStepped};
use weak_task::{CopyCell, WeakAnswer, WeakRow, WeakRowCell};

// The lengths of the lent lists; the rings' is counted in copies.
pub fn sizes_of(
    weights: &[u32],
    pred_starts: &[u32],
    preds: &[u32],
    succ_starts: &[u32],
    succs: &[u32],
    degrees: &[u32],
    fixed: &[u32],
    rings: &[CopyCell],
    ends: &[u32],
    counters: &[i32],
    buffers: &[u32],
    executed: &[u32],
    run: &[u32],
    rows: &[WeakRowCell],
) -> WeakSizes
    ensures { result
        ≡ sizes_of
        (weak_cell_mem weights.now pred_starts.now preds.now succ_starts.now
        succs.now degrees.now fixed.now rings.now
        ends.now counters.now buffers.now executed.now
        run.now rows.now) }
{
    WeakSizes {
        weights: weights.len(),
        pred_starts: pred_starts.len(),
        preds: preds.len(),
        succ_starts: succ_starts.len(),
        succs: succs.len(),
        degrees: degrees.len(),
        fixed: fixed.len(),
        rings: rings.len(),
        ends: ends.len(),
        counters: counters.len(),
        buffers: buffers.len(),
        executed: executed.len(),
        run: run.len(),
        rows: rows.len(),
    }
}

// The end of a Fetch by the worker with this row: accepted, it stores the row's hand and pointer.
pub fn store_fetched(
    rows: &mut [WeakRowCell],
    worker: WorkerId,
    row: WeakRow,
    stepped: WeakStepped,
) -> WeakAnswer
    requires { (worker.0 < length rows.old) × ((row ≡ get_or (rows_of rows.old) worker.0 idle) × HandAndPointer row stepped) }
    ensures { (result ≡ answer_of stepped) × (rows_of rows.new ≡ rows_after (rows_of rows.old) worker.0 stepped) }
{
    let (outcome, after) = stepped?;
    let held = after.held;
    weak_rows::set_hand(rows, worker, after.phase, held);
    weak_rows::set_pointer(rows, worker, after.pointer);
    Ok(outcome)
}

// The end of a Start by the worker with this row: accepted, it stores the row's phase.
pub fn store_started(
    rows: &mut [WeakRowCell],
    worker: WorkerId,
    row: WeakRow,
    stepped: WeakStepped,
) -> WeakAnswer
    requires { (worker.0 < length rows.old) × ((row ≡ get_or (rows_of rows.old) worker.0 idle) × PhaseAlone row stepped) }
    ensures { (result ≡ answer_of stepped) × (rows_of rows.new ≡ rows_after (rows_of rows.old) worker.0 stepped) }
{
    let (outcome, after) = stepped?;
    weak_rows::set_phase(rows, worker, after.phase);
    Ok(outcome)
}

// The end of a Complete by the worker with this row: accepted, it stores the row's hand and write place.
pub fn store_completed(
    rows: &mut [WeakRowCell],
    worker: WorkerId,
    row: WeakRow,
    stepped: WeakStepped,
) -> WeakAnswer
    requires { (worker.0 < length rows.old) × ((row ≡ get_or (rows_of rows.old) worker.0 idle) × HandAndWrite row stepped) }
    ensures { (result ≡ answer_of stepped) × (rows_of rows.new ≡ rows_after (rows_of rows.old) worker.0 stepped) }
{
    let (outcome, after) = stepped?;
    let held = after.held;
    weak_rows::set_hand(rows, worker, after.phase, held);
    weak_rows::set_write(rows, worker, after.write);
    Ok(outcome)
}

// The end of a Release by the worker with this row: accepted, it stores the row's cursor, and its read place where
// that has moved.
pub fn store_released(
    rows: &mut [WeakRowCell],
    worker: WorkerId,
    row: WeakRow,
    stepped: WeakStepped,
) -> WeakAnswer
    requires { (worker.0 < length rows.old) × ((row ≡ get_or (rows_of rows.old) worker.0 idle) × ReadAndCursor row stepped) }
    ensures { (result ≡ answer_of stepped) × (rows_of rows.new ≡ rows_after (rows_of rows.old) worker.0 stepped) }
{
    let (outcome, after) = stepped?;
    if after.read == row.read {
        weak_rows::set_cursor(rows, worker, after.cursor);
        return Ok(outcome);
    }
    weak_rows::set_next(rows, worker, after.read, after.cursor);
    Ok(outcome)
}
