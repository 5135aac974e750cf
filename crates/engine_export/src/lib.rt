// The engine for C and Rust: lists as pointer and length, all those of a run in document 01's order, then P, K and, for a step, the
// worker. A row is lent as its cell of six words, the same memory as a `Row`. A call answers the number and the detail, 0 and 0 where it
// accepts; a step answers its outcome too.
#![tactic(auto)]

ghost use Rattle.std.specs.Prelude.{◌≡◌};
ghost use Rattle.task.specs.Types.{engine};
ghost use Rattle.task.specs.declared.Step.{Step};
ghost use Rattle.rules.specs.Begin.{begin};
ghost use Rattle.rules.specs.Steps.{step};
ghost use Rattle.rules.specs.Plans.{result_of};
ghost use Rattle.engine_cells.specs.Cells.{cell_mem};
ghost use Rattle.replies.specs.Replies.{reply_of, step_reply_of};
ghost use Rattle.engine_export.specs.Replies.{replied};

use replies::{Reply, StepReply};
use task::{Limits, RowCell, WorkerId};

#[unsafe(no_mangle)]
pub extern "C" fn yolluvek_begin(
    weights: &[u32],
    pred_starts: &[u32],
    preds: &[u32],
    succ_starts: &mut [u32],
    succs: &mut [u32],
    degrees: &mut [u32],
    rings: &mut [u32],
    ends: &mut [u32],
    counters: &mut [i32],
    buffers: &mut [u32],
    executed: &mut [u32],
    run: &mut [u32],
    rows: &mut [RowCell],
    p: usize,
    k: usize,
) -> Reply
    ensures { result_of result
        (cell_mem weights.now pred_starts.now preds.now succ_starts.new
        succs.new degrees.new rings.new ends.new
        counters.new buffers.new executed.new run.new
        rows.new)
        ≡ replied reply_of (begin engine p k
        (cell_mem weights.now pred_starts.now preds.now succ_starts.old
        succs.old degrees.old rings.old ends.old
        counters.old buffers.old executed.old run.old
        rows.old)) }
{
    let answer = engine_begin::begin(
        Limits::engine(),
        weights,
        pred_starts,
        preds,
        succ_starts,
        succs,
        degrees,
        rings,
        ends,
        counters,
        buffers,
        executed,
        run,
        rows,
        p,
        k,
    );
    replies::reply_of(answer)
}

#[unsafe(no_mangle)]
pub extern "C" fn yolluvek_fetch(
    weights: &[u32],
    pred_starts: &[u32],
    preds: &[u32],
    succ_starts: &[u32],
    succs: &[u32],
    degrees: &[u32],
    rings: &[u32],
    ends: &mut [u32],
    counters: &[i32],
    buffers: &[u32],
    executed: &[u32],
    run: &mut [u32],
    rows: &mut [RowCell],
    p: usize,
    k: usize,
    worker: u32,
) -> StepReply
    ensures { result_of result
        (cell_mem weights.now pred_starts.now preds.now succ_starts.now
        succs.now degrees.now rings.now ends.new
        counters.now buffers.now executed.now run.new
        rows.new)
        ≡ replied step_reply_of (step engine p k worker Step.Fetch
        (cell_mem weights.now pred_starts.now preds.now succ_starts.now
        succs.now degrees.now rings.now ends.old
        counters.now buffers.now executed.now run.old
        rows.old)) }
{
    let answer = engine::fetch(
        Limits::engine(),
        weights,
        pred_starts,
        preds,
        succ_starts,
        succs,
        degrees,
        rings,
        ends,
        counters,
        buffers,
        executed,
        run,
        rows,
        p,
        k,
        WorkerId(worker),
    );
    if let Err(why) = answer {
        return replies::refusal_reply_of(why);
    }
    replies::step_reply_of(answer)
}

#[unsafe(no_mangle)]
pub extern "C" fn yolluvek_start(
    weights: &[u32],
    pred_starts: &[u32],
    preds: &[u32],
    succ_starts: &[u32],
    succs: &[u32],
    degrees: &[u32],
    rings: &[u32],
    ends: &[u32],
    counters: &[i32],
    buffers: &[u32],
    executed: &[u32],
    run: &mut [u32],
    rows: &mut [RowCell],
    p: usize,
    k: usize,
    worker: u32,
) -> StepReply
    ensures { result_of result
        (cell_mem weights.now pred_starts.now preds.now succ_starts.now
        succs.now degrees.now rings.now ends.now
        counters.now buffers.now executed.now run.new
        rows.new)
        ≡ replied step_reply_of (step engine p k worker Step.Start
        (cell_mem weights.now pred_starts.now preds.now succ_starts.now
        succs.now degrees.now rings.now ends.now
        counters.now buffers.now executed.now run.old
        rows.old)) }
{
    let answer = engine::start(
        Limits::engine(),
        weights,
        pred_starts,
        preds,
        succ_starts,
        succs,
        degrees,
        rings,
        ends,
        counters,
        buffers,
        executed,
        run,
        rows,
        p,
        k,
        WorkerId(worker),
    );
    if let Err(why) = answer {
        return replies::refusal_reply_of(why);
    }
    replies::step_reply_of(answer)
}

#[unsafe(no_mangle)]
pub extern "C" fn yolluvek_complete(
    weights: &[u32],
    pred_starts: &[u32],
    preds: &[u32],
    succ_starts: &[u32],
    succs: &[u32],
    degrees: &[u32],
    rings: &[u32],
    ends: &[u32],
    counters: &mut [i32],
    buffers: &mut [u32],
    executed: &mut [u32],
    run: &mut [u32],
    rows: &mut [RowCell],
    p: usize,
    k: usize,
    worker: u32,
) -> StepReply
    ensures { result_of result
        (cell_mem weights.now pred_starts.now preds.now succ_starts.now
        succs.now degrees.now rings.now ends.now
        counters.new buffers.new executed.new run.new
        rows.new)
        ≡ replied step_reply_of (step engine p k worker Step.Complete
        (cell_mem weights.now pred_starts.now preds.now succ_starts.now
        succs.now degrees.now rings.now ends.now
        counters.old buffers.old executed.old run.old
        rows.old)) }
{
    let answer = engine::complete(
        Limits::engine(),
        weights,
        pred_starts,
        preds,
        succ_starts,
        succs,
        degrees,
        rings,
        ends,
        counters,
        buffers,
        executed,
        run,
        rows,
        p,
        k,
        WorkerId(worker),
    );
    if let Err(why) = answer {
        return replies::refusal_reply_of(why);
    }
    replies::step_reply_of(answer)
}

#[unsafe(no_mangle)]
pub extern "C" fn yolluvek_release(
    weights: &[u32],
    pred_starts: &[u32],
    preds: &[u32],
    succ_starts: &[u32],
    succs: &[u32],
    degrees: &mut [u32],
    rings: &mut [u32],
    ends: &mut [u32],
    counters: &mut [i32],
    buffers: &[u32],
    executed: &[u32],
    run: &mut [u32],
    rows: &mut [RowCell],
    p: usize,
    k: usize,
    worker: u32,
) -> StepReply
    ensures { result_of result
        (cell_mem weights.now pred_starts.now preds.now succ_starts.now
        succs.now degrees.new rings.new ends.new
        counters.new buffers.now executed.now run.new
        rows.new)
        ≡ replied step_reply_of (step engine p k worker Step.Release
        (cell_mem weights.now pred_starts.now preds.now succ_starts.now
        succs.now degrees.old rings.old ends.old
        counters.old buffers.now executed.now run.old
        rows.old)) }
{
    let answer = engine::release(
        Limits::engine(),
        weights,
        pred_starts,
        preds,
        succ_starts,
        succs,
        degrees,
        rings,
        ends,
        counters,
        buffers,
        executed,
        run,
        rows,
        p,
        k,
        WorkerId(worker),
    );
    if let Err(why) = answer {
        return replies::refusal_reply_of(why);
    }
    replies::step_reply_of(answer)
}
