// A weak job's begin, with the worker rows and the slots as cells, seven words and two: the same memory as lists of `WeakRow` and of
// `TaskCopy`.
#![tactic(auto)]

ghost use Rattle.std.specs.Prelude.{◌≡◌};
ghost use Rattle.weak_rules.specs.Begin.{begin};
ghost use Rattle.weak_rules.specs.Plans.{result_of};
ghost use Rattle.weak_engine_cells.specs.Cells.{weak_cell_mem};

use task::{Answer, Limits};
use weak_task::{CopyCell, WeakRowCell};

pub fn begin(
    limits: Limits,
    weights: &[u32],
    pred_starts: &[u32],
    preds: &[u32],
    succ_starts: &mut [u32],
    succs: &mut [u32],
    degrees: &mut [u32],
    fixed: &mut [u32],
    rings: &mut [CopyCell],
    ends: &mut [u32],
    counters: &mut [i32],
    buffers: &mut [u32],
    executed: &mut [u32],
    run: &mut [u32],
    rows: &mut [WeakRowCell],
    p: usize,
    k: usize,
) -> Answer
    ensures { result_of result
        (weak_cell_mem weights.now pred_starts.now preds.now succ_starts.new
        succs.new degrees.new fixed.new rings.new
        ends.new counters.new buffers.new executed.new
        run.new rows.new)
        ≡ begin limits p k
        (weak_cell_mem weights.now pred_starts.now preds.now succ_starts.old
        succs.old degrees.old fixed.old rings.old
        ends.old counters.old buffers.old executed.old
        run.old rows.old) }
{
    let begun = weak_begin::begin_lists(
        limits,
        rows.len(),
        p,
        k,
        weights,
        pred_starts,
        preds,
        succ_starts,
        succs,
        degrees,
        fixed,
        rings,
        ends,
        counters,
        buffers,
        executed,
        run,
    );
    let count = begun.rows;
    weak_rows::clear_rows(rows, count);
    begun.answer
}
