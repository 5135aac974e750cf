// A turn of the desk: it takes the first accepted of Release, Fetch, Start, Complete, or nothing.
#![tactic(auto)]

ghost use Rattle.std.specs.Prelude.{◌≡◌, ◌<◌, get_or};
ghost use Rattle.task.specs.Types.{engine};
ghost use Rattle.task.specs.declared.Step.{Step};
ghost use Rattle.rules.specs.Desk.{tries, turn};
ghost use Rattle.engine_cells.specs.Cells.{cell_mem};

use task::{Limits, RowCell, Step, WorkerId};

// The steps in the order in which a turn tries them.
const TRIES: [Step; 4] = [Step::Release, Step::Fetch, Step::Start, Step::Complete];

fn try_at(tried: usize) -> Step
    requires { tried < 4 }
    ensures { result ≡ get_or tries tried Step.Fetch }
{
    TRIES[tried]
}

pub fn take_turn(
    weights: &[u32],
    pred_starts: &[u32],
    preds: &[u32],
    succ_starts: &[u32],
    succs: &[u32],
    degrees: &mut [u32],
    rings: &mut [u32],
    ends: &mut [u32],
    counters: &mut [i32],
    buffers: &mut [u32],
    executed: &mut [u32],
    run: &mut [u32],
    rows: &mut [RowCell],
    worker: WorkerId,
)
    ensures { cell_mem weights.now pred_starts.now preds.now succ_starts.now
        succs.now degrees.new rings.new ends.new
        counters.new buffers.new executed.new run.new
        rows.new
        ≡ turn engine 2 4 worker.0 tries
        (cell_mem weights.now pred_starts.now preds.now succ_starts.now
        succs.now degrees.old rings.old ends.old
        counters.old buffers.old executed.old run.old
        rows.old) }
{
    let mut tried = 0;
    while tried < 4 {
        let answer = engine_step::step(
            Limits::engine(),
            try_at(tried),
            weights,
            pred_starts,
            preds,
            succ_starts,
            succs,
            degrees,
            rings,
            ends,
            counters,
            buffers,
            executed,
            run,
            rows,
            2,
            4,
            worker,
        );
        let Err(_) = answer else {
            return;
        };
        tried += 1;
    }
}
