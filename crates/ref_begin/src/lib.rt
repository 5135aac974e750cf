// `begin` in document 01's form, lent all lists of a run, the worker rows as one list of records: the lists but the rows are laid down by
// value, then so many rows are cleared as that says.
#![tactic(auto)]

ghost use Rattle.std.specs.Prelude.{◌≡◌};
ghost use Rattle.rules.specs.Memory.{mem_of};
ghost use Rattle.rules.specs.Begin.{begin};
ghost use Rattle.rules.specs.Plans.{result_of};

use task::{Answer, Limits, Row};

pub fn begin(
    limits: Limits,
    weights: &[u32],
    pred_starts: &[u32],
    preds: &[u32],
    succ_starts: &mut [u32],
    succs: &mut [u32],
    degrees: &mut [u32],
    rings: &mut [u32],
    ends: &mut [u32],
    counters: &mut [i32],
    buffers: &mut [u32],
    executed: &mut [u32],
    run: &mut [u32],
    rows: &mut [Row],
    p: usize,
    k: usize,
) -> Answer
    ensures { result_of result
        (mem_of weights.now pred_starts.now preds.now succ_starts.new
        succs.new degrees.new rings.new ends.new
        counters.new buffers.new executed.new run.new
        rows.new)
        ≡ begin limits p k
        (mem_of weights.now pred_starts.now preds.now succ_starts.old
        succs.old degrees.old rings.old ends.old
        counters.old buffers.old executed.old run.old
        rows.old) }
{
    let begun = begin::begin_lists(
        limits,
        rows.len(),
        p,
        k,
        weights,
        pred_starts,
        preds,
        succ_starts,
        succs,
        degrees,
        rings,
        ends,
        counters,
        buffers,
        executed,
        run,
    );
    row_list::clear_rows(rows, begun.rows);
    begun.answer
}
