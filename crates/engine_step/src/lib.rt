// One of the engine's four steps by its name, for callers that choose it at run time, as the desk program does: the four calls of `engine`,
// lent mutably what any of them writes.
#![tactic(auto)]

ghost use Rattle.std.specs.Prelude.{◌≡◌};
ghost use Rattle.rules.specs.Plans.{result_of};
ghost use Rattle.rules.specs.Steps.{step};
ghost use Rattle.engine_cells.specs.Cells.{cell_mem};

use task::{Limits, RowCell, Step, StepAnswer, WorkerId};

pub fn step(
    limits: Limits,
    which: Step,
    weights: &[u32],
    pred_starts: &[u32],
    preds: &[u32],
    succ_starts: &[u32],
    succs: &[u32],
    degrees: &mut [u32],
    rings: &mut [u32],
    ends: &mut [u32],
    counters: &mut [i32],
    buffers: &mut [u32],
    executed: &mut [u32],
    run: &mut [u32],
    rows: &mut [RowCell],
    p: usize,
    k: usize,
    worker: WorkerId,
) -> StepAnswer
    ensures { result_of result
        (cell_mem weights.now pred_starts.now preds.now succ_starts.now
        succs.now degrees.new rings.new ends.new
        counters.new buffers.new executed.new run.new
        rows.new)
        ≡ step limits p k worker.0 which
        (cell_mem weights.now pred_starts.now preds.now succ_starts.now
        succs.now degrees.old rings.old ends.old
        counters.old buffers.old executed.old run.old
        rows.old) }
{
    match which {
        Step::Fetch => engine::fetch(
            limits,
            weights,
            pred_starts,
            preds,
            succ_starts,
            succs,
            degrees,
            rings,
            ends,
            counters,
            buffers,
            executed,
            run,
            rows,
            p,
            k,
            worker,
        ),
        Step::Start => engine::start(
            limits,
            weights,
            pred_starts,
            preds,
            succ_starts,
            succs,
            degrees,
            rings,
            ends,
            counters,
            buffers,
            executed,
            run,
            rows,
            p,
            k,
            worker,
        ),
        Step::Complete => engine::complete(
            limits,
            weights,
            pred_starts,
            preds,
            succ_starts,
            succs,
            degrees,
            rings,
            ends,
            counters,
            buffers,
            executed,
            run,
            rows,
            p,
            k,
            worker,
        ),
        Step::Release => engine::release(
            limits,
            weights,
            pred_starts,
            preds,
            succ_starts,
            succs,
            degrees,
            rings,
            ends,
            counters,
            buffers,
            executed,
            run,
            rows,
            p,
            k,
            worker,
        ),
    }
}
