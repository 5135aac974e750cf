// A weak job's four steps, with the worker rows and the slots as cells, seven words and two: the same memory as lists of `WeakRow` and of
// `TaskCopy`. Each is lent all lists of a run and the numbers P and K, mutably what its rule writes: the other lists keep their words by
// their type. 2, 1 and 7 come first; then the worker's row is read, the step taken by value, and where it is accepted the words of the row
// that it changes are stored.
#![tactic(auto)]

ghost use Rattle.std.specs.Prelude.{◌≡◌};
ghost use Rattle.task.specs.declared.Step.{Step};
ghost use Rattle.weak_rules.specs.Plans.{result_of};
ghost use Rattle.weak_rules.specs.Steps.{step};
ghost use Rattle.weak_engine_cells.specs.Cells.{weak_cell_mem};

use task::{Limits, WorkerId};
use weak_task::{CopyCell, WeakAnswer, WeakRowCell};

pub fn fetch(
    limits: Limits,
    weights: &[u32],
    pred_starts: &[u32],
    preds: &[u32],
    succ_starts: &[u32],
    succs: &[u32],
    degrees: &[u32],
    fixed: &[u32],
    rings: &[CopyCell],
    ends: &mut [u32],
    counters: &[i32],
    buffers: &[u32],
    executed: &[u32],
    run: &mut [u32],
    rows: &mut [WeakRowCell],
    p: usize,
    k: usize,
    worker: WorkerId,
) -> WeakAnswer
    ensures { result_of result
        (weak_cell_mem weights.now pred_starts.now preds.now succ_starts.now
        succs.now degrees.now fixed.now rings.now
        ends.new counters.now buffers.now executed.now
        run.new rows.new)
        ≡ step limits p k worker.0 Step.Fetch
        (weak_cell_mem weights.now pred_starts.now preds.now succ_starts.now
        succs.now degrees.now fixed.now rings.now
        ends.old counters.now buffers.now executed.now
        run.old rows.old) }
{
    let sizes = weak_engine_cells::sizes_of(
        weights,
        pred_starts,
        preds,
        succ_starts,
        succs,
        degrees,
        fixed,
        rings,
        ends,
        counters,
        buffers,
        executed,
        run,
        rows,
    );
    let judged = weak_admission::judge(limits, sizes, p, k, worker);
    judged?;
    let row = weak_rows::row_at(rows, worker);
    let stepped = weak_fetch::fetch_row(sizes, judged, p, k, worker, row, rings, ends, run);
    weak_engine_cells::store_fetched(rows, worker, row, stepped)
}

pub fn start(
    limits: Limits,
    weights: &[u32],
    pred_starts: &[u32],
    preds: &[u32],
    succ_starts: &[u32],
    succs: &[u32],
    degrees: &[u32],
    fixed: &[u32],
    rings: &[CopyCell],
    ends: &[u32],
    counters: &[i32],
    buffers: &[u32],
    executed: &[u32],
    run: &mut [u32],
    rows: &mut [WeakRowCell],
    p: usize,
    k: usize,
    worker: WorkerId,
) -> WeakAnswer
    ensures { result_of result
        (weak_cell_mem weights.now pred_starts.now preds.now succ_starts.now
        succs.now degrees.now fixed.now rings.now
        ends.now counters.now buffers.now executed.now
        run.new rows.new)
        ≡ step limits p k worker.0 Step.Start
        (weak_cell_mem weights.now pred_starts.now preds.now succ_starts.now
        succs.now degrees.now fixed.now rings.now
        ends.now counters.now buffers.now executed.now
        run.old rows.old) }
{
    let sizes = weak_engine_cells::sizes_of(
        weights,
        pred_starts,
        preds,
        succ_starts,
        succs,
        degrees,
        fixed,
        rings,
        ends,
        counters,
        buffers,
        executed,
        run,
        rows,
    );
    let judged = weak_admission::judge(limits, sizes, p, k, worker);
    judged?;
    let row = weak_rows::row_at(rows, worker);
    let stepped = weak_start::start_row(sizes, judged, p, k, worker, row, run);
    weak_engine_cells::store_started(rows, worker, row, stepped)
}

pub fn complete(
    limits: Limits,
    weights: &[u32],
    pred_starts: &[u32],
    preds: &[u32],
    succ_starts: &[u32],
    succs: &[u32],
    degrees: &mut [u32],
    fixed: &[u32],
    rings: &[CopyCell],
    ends: &[u32],
    counters: &mut [i32],
    buffers: &mut [u32],
    executed: &mut [u32],
    run: &mut [u32],
    rows: &mut [WeakRowCell],
    p: usize,
    k: usize,
    worker: WorkerId,
) -> WeakAnswer
    ensures { result_of result
        (weak_cell_mem weights.now pred_starts.now preds.now succ_starts.now
        succs.now degrees.new fixed.now rings.now
        ends.now counters.new buffers.new executed.new
        run.new rows.new)
        ≡ step limits p k worker.0 Step.Complete
        (weak_cell_mem weights.now pred_starts.now preds.now succ_starts.now
        succs.now degrees.old fixed.now rings.now
        ends.now counters.old buffers.old executed.old
        run.old rows.old) }
{
    let sizes = weak_engine_cells::sizes_of(
        weights,
        pred_starts,
        preds,
        succ_starts,
        succs,
        degrees,
        fixed,
        rings,
        ends,
        counters,
        buffers,
        executed,
        run,
        rows,
    );
    let judged = weak_admission::judge(limits, sizes, p, k, worker);
    judged?;
    let row = weak_rows::row_at(rows, worker);
    let stepped = weak_complete::complete_row(
        sizes,
        judged,
        p,
        k,
        worker,
        row,
        weights,
        succ_starts,
        degrees,
        counters,
        buffers,
        executed,
        run,
    );
    weak_engine_cells::store_completed(rows, worker, row, stepped)
}

pub fn release(
    limits: Limits,
    weights: &[u32],
    pred_starts: &[u32],
    preds: &[u32],
    succ_starts: &[u32],
    succs: &[u32],
    degrees: &[u32],
    fixed: &mut [u32],
    rings: &mut [CopyCell],
    ends: &mut [u32],
    counters: &mut [i32],
    buffers: &[u32],
    executed: &[u32],
    run: &mut [u32],
    rows: &mut [WeakRowCell],
    p: usize,
    k: usize,
    worker: WorkerId,
) -> WeakAnswer
    ensures { result_of result
        (weak_cell_mem weights.now pred_starts.now preds.now succ_starts.now
        succs.now degrees.now fixed.new rings.new
        ends.new counters.new buffers.now executed.now
        run.new rows.new)
        ≡ step limits p k worker.0 Step.Release
        (weak_cell_mem weights.now pred_starts.now preds.now succ_starts.now
        succs.now degrees.now fixed.old rings.old
        ends.old counters.old buffers.now executed.now
        run.old rows.old) }
{
    let sizes = weak_engine_cells::sizes_of(
        weights,
        pred_starts,
        preds,
        succ_starts,
        succs,
        degrees,
        fixed,
        rings,
        ends,
        counters,
        buffers,
        executed,
        run,
        rows,
    );
    let judged = weak_admission::judge(limits, sizes, p, k, worker);
    judged?;
    let row = weak_rows::row_at(rows, worker);
    let stepped = weak_release::release_row(
        sizes,
        judged,
        p,
        k,
        worker,
        row,
        weights,
        succ_starts,
        succs,
        fixed,
        rings,
        ends,
        counters,
        buffers,
        run,
    );
    weak_engine_cells::store_released(rows, worker, row, stepped)
}
