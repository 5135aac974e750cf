// The engine's four steps with the worker rows as cells, six words each: the same memory as a list of `Row`. The calls for C and Rust go
// through these; `engine_ref` has document 01's form. Each is lent all lists of a run and the numbers P and K, mutably what its rule
// writes: the other lists keep their words by their type. 2, 1 and 7 come first; then the worker's row is read, the step taken by value,
// and where it is accepted the words of the row that it changes are stored.
#![tactic(auto)]

ghost use Rattle.std.specs.Prelude.{◌≡◌};
ghost use Rattle.task.specs.declared.Step.{Step};
ghost use Rattle.rules.specs.Plans.{result_of};
ghost use Rattle.rules.specs.Steps.{step};
ghost use Rattle.engine_cells.specs.Cells.{cell_mem};

use task::{Limits, RowCell, StepAnswer, WorkerId};

pub fn fetch(
    limits: Limits,
    weights: &[u32],
    pred_starts: &[u32],
    preds: &[u32],
    succ_starts: &[u32],
    succs: &[u32],
    degrees: &[u32],
    rings: &[u32],
    ends: &mut [u32],
    counters: &[i32],
    buffers: &[u32],
    executed: &[u32],
    run: &mut [u32],
    rows: &mut [RowCell],
    p: usize,
    k: usize,
    worker: WorkerId,
) -> StepAnswer
    ensures { result_of result
        (cell_mem weights.now pred_starts.now preds.now succ_starts.now
        succs.now degrees.now rings.now ends.new
        counters.now buffers.now executed.now run.new
        rows.new)
        ≡ step limits p k worker.0 Step.Fetch
        (cell_mem weights.now pred_starts.now preds.now succ_starts.now
        succs.now degrees.now rings.now ends.old
        counters.now buffers.now executed.now run.old
        rows.old) }
{
    let sizes = engine_cells::sizes_of(
        weights,
        pred_starts,
        preds,
        succ_starts,
        succs,
        degrees,
        rings,
        ends,
        counters,
        buffers,
        executed,
        run,
        rows,
    );
    let judged = admission::judge(limits, sizes, p, k, worker);
    judged?;
    let row = rows::row_at(rows, worker);
    let stepped = fetch::fetch_row(sizes, judged, p, k, worker, row, rings, ends, run);
    engine_cells::store_fetched(rows, worker, row, stepped)
}

pub fn start(
    limits: Limits,
    weights: &[u32],
    pred_starts: &[u32],
    preds: &[u32],
    succ_starts: &[u32],
    succs: &[u32],
    degrees: &[u32],
    rings: &[u32],
    ends: &[u32],
    counters: &[i32],
    buffers: &[u32],
    executed: &[u32],
    run: &mut [u32],
    rows: &mut [RowCell],
    p: usize,
    k: usize,
    worker: WorkerId,
) -> StepAnswer
    ensures { result_of result
        (cell_mem weights.now pred_starts.now preds.now succ_starts.now
        succs.now degrees.now rings.now ends.now
        counters.now buffers.now executed.now run.new
        rows.new)
        ≡ step limits p k worker.0 Step.Start
        (cell_mem weights.now pred_starts.now preds.now succ_starts.now
        succs.now degrees.now rings.now ends.now
        counters.now buffers.now executed.now run.old
        rows.old) }
{
    let sizes = engine_cells::sizes_of(
        weights,
        pred_starts,
        preds,
        succ_starts,
        succs,
        degrees,
        rings,
        ends,
        counters,
        buffers,
        executed,
        run,
        rows,
    );
    let judged = admission::judge(limits, sizes, p, k, worker);
    judged?;
    let row = rows::row_at(rows, worker);
    let stepped = start::start_row(sizes, judged, p, k, worker, row, run);
    engine_cells::store_started(rows, worker, row, stepped)
}

pub fn complete(
    limits: Limits,
    weights: &[u32],
    pred_starts: &[u32],
    preds: &[u32],
    succ_starts: &[u32],
    succs: &[u32],
    degrees: &[u32],
    rings: &[u32],
    ends: &[u32],
    counters: &mut [i32],
    buffers: &mut [u32],
    executed: &mut [u32],
    run: &mut [u32],
    rows: &mut [RowCell],
    p: usize,
    k: usize,
    worker: WorkerId,
) -> StepAnswer
    ensures { result_of result
        (cell_mem weights.now pred_starts.now preds.now succ_starts.now
        succs.now degrees.now rings.now ends.now
        counters.new buffers.new executed.new run.new
        rows.new)
        ≡ step limits p k worker.0 Step.Complete
        (cell_mem weights.now pred_starts.now preds.now succ_starts.now
        succs.now degrees.now rings.now ends.now
        counters.old buffers.old executed.old run.old
        rows.old) }
{
    let sizes = engine_cells::sizes_of(
        weights,
        pred_starts,
        preds,
        succ_starts,
        succs,
        degrees,
        rings,
        ends,
        counters,
        buffers,
        executed,
        run,
        rows,
    );
    let judged = admission::judge(limits, sizes, p, k, worker);
    judged?;
    let row = rows::row_at(rows, worker);
    let stepped = complete::complete_row(
        sizes,
        judged,
        p,
        k,
        worker,
        row,
        weights,
        succ_starts,
        counters,
        buffers,
        executed,
        run,
    );
    engine_cells::store_completed(rows, worker, row, stepped)
}

pub fn release(
    limits: Limits,
    weights: &[u32],
    pred_starts: &[u32],
    preds: &[u32],
    succ_starts: &[u32],
    succs: &[u32],
    degrees: &mut [u32],
    rings: &mut [u32],
    ends: &mut [u32],
    counters: &mut [i32],
    buffers: &[u32],
    executed: &[u32],
    run: &mut [u32],
    rows: &mut [RowCell],
    p: usize,
    k: usize,
    worker: WorkerId,
) -> StepAnswer
    ensures { result_of result
        (cell_mem weights.now pred_starts.now preds.now succ_starts.now
        succs.now degrees.new rings.new ends.new
        counters.new buffers.now executed.now run.new
        rows.new)
        ≡ step limits p k worker.0 Step.Release
        (cell_mem weights.now pred_starts.now preds.now succ_starts.now
        succs.now degrees.old rings.old ends.old
        counters.old buffers.now executed.now run.old
        rows.old) }
{
    let sizes = engine_cells::sizes_of(
        weights,
        pred_starts,
        preds,
        succ_starts,
        succs,
        degrees,
        rings,
        ends,
        counters,
        buffers,
        executed,
        run,
        rows,
    );
    let judged = admission::judge(limits, sizes, p, k, worker);
    judged?;
    let row = rows::row_at(rows, worker);
    let stepped = release::release_row(
        sizes,
        judged,
        p,
        k,
        worker,
        row,
        weights,
        succ_starts,
        succs,
        degrees,
        rings,
        ends,
        counters,
        buffers,
        run,
    );
    engine_cells::store_released(rows, worker, row, stepped)
}
