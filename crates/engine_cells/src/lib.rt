// What the engine's calls share, which lend the worker rows as cells, six words each: the same memory as a list of `Row`. The lengths of
// all lent lists; the end of each step, which stores the words of the row that it changes.
#![tactic(auto)]

ghost use Rattle.std.specs.Prelude.{◌≡◌, ◌<◌, length, get_or};
ghost use Rattle.task.specs.Types.{idle};
ghost use Rattle.rows.specs.Rows.{rows_of};
ghost use Rattle.admission.specs.Admission.{sizes_of, answer_of, rows_after};
ghost use Rattle.fetch.specs.Fetch.{HandAndPointer};
ghost use Rattle.start.specs.Start.{PhaseAlone};
ghost use Rattle.complete.specs.Complete.{HandAndWrite};
ghost use Rattle.release.specs.Release.{ReadAndCursor};
ghost use Rattle.engine_cells.specs.Cells.{cell_mem};

use admission::{Sizes, Stepped};
use task::{Row, RowCell, StepAnswer, WorkerId};

// The lengths of the lent lists.
pub fn sizes_of(
    weights: &[u32],
    pred_starts: &[u32],
    preds: &[u32],
    succ_starts: &[u32],
    succs: &[u32],
    degrees: &[u32],
    rings: &[u32],
    ends: &[u32],
    counters: &[i32],
    buffers: &[u32],
    executed: &[u32],
    run: &[u32],
    rows: &[RowCell],
) -> Sizes
    ensures { result
        ≡ sizes_of
        (cell_mem weights.now pred_starts.now preds.now succ_starts.now
        succs.now degrees.now rings.now ends.now
        counters.now buffers.now executed.now run.now
        rows.now) }
{
    Sizes {
        weights: weights.len(),
        pred_starts: pred_starts.len(),
        preds: preds.len(),
        succ_starts: succ_starts.len(),
        succs: succs.len(),
        degrees: degrees.len(),
        rings: rings.len(),
        ends: ends.len(),
        counters: counters.len(),
        buffers: buffers.len(),
        executed: executed.len(),
        run: run.len(),
        rows: rows.len(),
    }
}

// The end of a Fetch by the worker with this row: accepted, it stores the row's hand and pointer.
pub fn store_fetched(
    rows: &mut [RowCell],
    worker: WorkerId,
    row: Row,
    stepped: Stepped,
) -> StepAnswer
    requires { (worker.0 < length rows.old) × ((row ≡ get_or (rows_of rows.old) worker.0 idle) × HandAndPointer row stepped) }
    ensures { (result ≡ answer_of stepped) × (rows_of rows.new ≡ rows_after (rows_of rows.old) worker.0 stepped) }
{
    let (outcome, after) = stepped?;
    let held = after.held;
    rows::set_hand(rows, worker, after.phase, held);
    rows::set_pointer(rows, worker, after.pointer);
    Ok(outcome)
}

// The end of a Start by the worker with this row: accepted, it stores the row's phase.
pub fn store_started(
    rows: &mut [RowCell],
    worker: WorkerId,
    row: Row,
    stepped: Stepped,
) -> StepAnswer
    requires { (worker.0 < length rows.old) × ((row ≡ get_or (rows_of rows.old) worker.0 idle) × PhaseAlone row stepped) }
    ensures { (result ≡ answer_of stepped) × (rows_of rows.new ≡ rows_after (rows_of rows.old) worker.0 stepped) }
{
    let (outcome, after) = stepped?;
    rows::set_phase(rows, worker, after.phase);
    Ok(outcome)
}

// The end of a Complete by the worker with this row: accepted, it stores the row's hand and write place.
pub fn store_completed(
    rows: &mut [RowCell],
    worker: WorkerId,
    row: Row,
    stepped: Stepped,
) -> StepAnswer
    requires { (worker.0 < length rows.old) × ((row ≡ get_or (rows_of rows.old) worker.0 idle) × HandAndWrite row stepped) }
    ensures { (result ≡ answer_of stepped) × (rows_of rows.new ≡ rows_after (rows_of rows.old) worker.0 stepped) }
{
    let (outcome, after) = stepped?;
    let held = after.held;
    rows::set_hand(rows, worker, after.phase, held);
    rows::set_write(rows, worker, after.write);
    Ok(outcome)
}

// The end of a Release by the worker with this row: accepted, it stores the row's cursor, and its read place where
// that has moved.
pub fn store_released(
    rows: &mut [RowCell],
    worker: WorkerId,
    row: Row,
    stepped: Stepped,
) -> StepAnswer
    requires { (worker.0 < length rows.old) × ((row ≡ get_or (rows_of rows.old) worker.0 idle) × ReadAndCursor row stepped) }
    ensures { (result ≡ answer_of stepped) × (rows_of rows.new ≡ rows_after (rows_of rows.old) worker.0 stepped) }
{
    let (outcome, after) = stepped?;
    if after.read == row.read {
        rows::set_cursor(rows, worker, after.cursor);
        return Ok(outcome);
    }
    rows::set_next(rows, worker, after.read, after.cursor);
    Ok(outcome)
}
