// The engine's begin with the worker rows as cells, six words each: the same memory as a list of `Row`.
#![tactic(auto)]

ghost use Rattle.std.specs.Prelude.{◌≡◌};
ghost use Rattle.rules.specs.Begin.{begin};
ghost use Rattle.rules.specs.Plans.{result_of};
ghost use Rattle.engine_cells.specs.Cells.{cell_mem};

use task::{Answer, Limits, RowCell};

pub fn begin(
    limits: Limits,
    weights: &[u32],
    pred_starts: &[u32],
    preds: &[u32],
    succ_starts: &mut [u32],
    succs: &mut [u32],
    degrees: &mut [u32],
    rings: &mut [u32],
    ends: &mut [u32],
    counters: &mut [i32],
    buffers: &mut [u32],
    executed: &mut [u32],
    run: &mut [u32],
    rows: &mut [RowCell],
    p: usize,
    k: usize,
) -> Answer
    ensures { result_of result
        (cell_mem weights.now pred_starts.now preds.now succ_starts.new
        succs.new degrees.new rings.new ends.new
        counters.new buffers.new executed.new run.new
        rows.new)
        ≡ begin limits p k
        (cell_mem weights.now pred_starts.now preds.now succ_starts.old
        succs.old degrees.old rings.old ends.old
        counters.old buffers.old executed.old run.old
        rows.old) }
{
    let begun = begin::begin_lists(
        limits,
        rows.len(),
        p,
        k,
        weights,
        pred_starts,
        preds,
        succ_starts,
        succs,
        degrees,
        rings,
        ends,
        counters,
        buffers,
        executed,
        run,
    );
    let count = begun.rows;
    rows::clear_rows(rows, count);
    begun.answer
}
