// The desk's run: one turn after the other, the workers by turns.
#![tactic(auto)]

ghost use Rattle.std.specs.Prelude.{◌≡◌, ◌≤◌, length};
ghost use Rattle.task.specs.Types.{engine};
ghost use Rattle.rules.specs.Desk.{desk_run};
ghost use Rattle.engine_cells.specs.Cells.{cell_mem};

use task::{RowCell, WorkerId};

// Turns 0, 1, 0, 1, .. on memory that has been begun, until all steps are accepted.
pub fn drive(
    weights: &[u32],
    pred_starts: &[u32],
    preds: &[u32],
    succ_starts: &[u32],
    succs: &[u32],
    degrees: &mut [u32],
    rings: &mut [u32],
    ends: &mut [u32],
    counters: &mut [i32],
    buffers: &mut [u32],
    executed: &mut [u32],
    run: &mut [u32],
    rows: &mut [RowCell],
)
    requires { (length weights.now ≤ engine.tasks) × ((length preds.now ≤ engine.edges) × (length run.old ≡ 2)) }
    ensures { cell_mem weights.now pred_starts.now preds.now succ_starts.now
        succs.now degrees.new rings.new ends.new
        counters.new buffers.new executed.new run.new
        rows.new
        ≡ desk_run
        (cell_mem weights.now pred_starts.now preds.now succ_starts.now
        succs.now degrees.old rings.old ends.old
        counters.old buffers.old executed.old run.old
        rows.old) }
{
    let steps = 3 * weights.len() + preds.len();
    let mut worker = 0;
    for _turn in 0..2 * steps {
        if steps <= run[1] as usize {
            return;
        }
        tries::take_turn(
            weights,
            pred_starts,
            preds,
            succ_starts,
            succs,
            degrees,
            rings,
            ends,
            counters,
            buffers,
            executed,
            run,
            rows,
            WorkerId::new(worker),
        );
        worker = 1 - worker;
    }
}
