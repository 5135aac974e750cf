// A weak job's calls for C and Rust: lists as pointer and length, all those of a run, then P, K and, for a step, the worker. A slot is lent
// as its cell of two words and a row as its cell of seven, the same memory as a `TaskCopy` and a `WeakRow`. A call answers the number and
// the detail, 0 and 0 where it accepts; a step answers its outcome too.
#![tactic(auto)]

ghost use Rattle.std.specs.Prelude.{◌≡◌};
ghost use Rattle.task.specs.Types.{engine};
ghost use Rattle.task.specs.declared.Step.{Step};
ghost use Rattle.weak_rules.specs.Begin.{begin};
ghost use Rattle.weak_rules.specs.Steps.{step};
ghost use Rattle.weak_rules.specs.Plans.{result_of};
ghost use Rattle.weak_engine_cells.specs.Cells.{weak_cell_mem};
ghost use Rattle.replies.specs.Replies.{reply_of};
ghost use Rattle.weak_replies.specs.Replies.{weak_reply_of};
ghost use Rattle.weak_export.specs.Replies.{replied};

use replies::Reply;
use task::{Limits, WorkerId};
use weak_replies::WeakReply;
use weak_task::{CopyCell, WeakRowCell};

#[unsafe(no_mangle)]
pub extern "C" fn yolluvek_weak_begin(
    weights: &[u32],
    pred_starts: &[u32],
    preds: &[u32],
    succ_starts: &mut [u32],
    succs: &mut [u32],
    degrees: &mut [u32],
    fixed: &mut [u32],
    rings: &mut [CopyCell],
    ends: &mut [u32],
    counters: &mut [i32],
    buffers: &mut [u32],
    executed: &mut [u32],
    run: &mut [u32],
    rows: &mut [WeakRowCell],
    p: usize,
    k: usize,
) -> Reply
    ensures { result_of result
        (weak_cell_mem weights.now pred_starts.now preds.now succ_starts.new
        succs.new degrees.new fixed.new rings.new
        ends.new counters.new buffers.new executed.new
        run.new rows.new)
        ≡ replied reply_of (begin engine p k
        (weak_cell_mem weights.now pred_starts.now preds.now succ_starts.old
        succs.old degrees.old fixed.old rings.old
        ends.old counters.old buffers.old executed.old
        run.old rows.old)) }
{
    let answer = weak_engine_begin::begin(
        Limits::engine(),
        weights,
        pred_starts,
        preds,
        succ_starts,
        succs,
        degrees,
        fixed,
        rings,
        ends,
        counters,
        buffers,
        executed,
        run,
        rows,
        p,
        k,
    );
    replies::reply_of(answer)
}

#[unsafe(no_mangle)]
pub extern "C" fn yolluvek_weak_fetch(
    weights: &[u32],
    pred_starts: &[u32],
    preds: &[u32],
    succ_starts: &[u32],
    succs: &[u32],
    degrees: &[u32],
    fixed: &[u32],
    rings: &[CopyCell],
    ends: &mut [u32],
    counters: &[i32],
    buffers: &[u32],
    executed: &[u32],
    run: &mut [u32],
    rows: &mut [WeakRowCell],
    p: usize,
    k: usize,
    worker: u32,
) -> WeakReply
    ensures { result_of result
        (weak_cell_mem weights.now pred_starts.now preds.now succ_starts.now
        succs.now degrees.now fixed.now rings.now
        ends.new counters.now buffers.now executed.now
        run.new rows.new)
        ≡ replied weak_reply_of (step engine p k worker Step.Fetch
        (weak_cell_mem weights.now pred_starts.now preds.now succ_starts.now
        succs.now degrees.now fixed.now rings.now
        ends.old counters.now buffers.now executed.now
        run.old rows.old)) }
{
    let answer = weak_engine::fetch(
        Limits::engine(),
        weights,
        pred_starts,
        preds,
        succ_starts,
        succs,
        degrees,
        fixed,
        rings,
        ends,
        counters,
        buffers,
        executed,
        run,
        rows,
        p,
        k,
        WorkerId(worker),
    );
    if let Err(why) = answer {
        return weak_replies::refusal_reply_of(why);
    }
    weak_replies::weak_reply_of(answer)
}

#[unsafe(no_mangle)]
pub extern "C" fn yolluvek_weak_start(
    weights: &[u32],
    pred_starts: &[u32],
    preds: &[u32],
    succ_starts: &[u32],
    succs: &[u32],
    degrees: &[u32],
    fixed: &[u32],
    rings: &[CopyCell],
    ends: &[u32],
    counters: &[i32],
    buffers: &[u32],
    executed: &[u32],
    run: &mut [u32],
    rows: &mut [WeakRowCell],
    p: usize,
    k: usize,
    worker: u32,
) -> WeakReply
    ensures { result_of result
        (weak_cell_mem weights.now pred_starts.now preds.now succ_starts.now
        succs.now degrees.now fixed.now rings.now
        ends.now counters.now buffers.now executed.now
        run.new rows.new)
        ≡ replied weak_reply_of (step engine p k worker Step.Start
        (weak_cell_mem weights.now pred_starts.now preds.now succ_starts.now
        succs.now degrees.now fixed.now rings.now
        ends.now counters.now buffers.now executed.now
        run.old rows.old)) }
{
    let answer = weak_engine::start(
        Limits::engine(),
        weights,
        pred_starts,
        preds,
        succ_starts,
        succs,
        degrees,
        fixed,
        rings,
        ends,
        counters,
        buffers,
        executed,
        run,
        rows,
        p,
        k,
        WorkerId(worker),
    );
    if let Err(why) = answer {
        return weak_replies::refusal_reply_of(why);
    }
    weak_replies::weak_reply_of(answer)
}

#[unsafe(no_mangle)]
pub extern "C" fn yolluvek_weak_complete(
    weights: &[u32],
    pred_starts: &[u32],
    preds: &[u32],
    succ_starts: &[u32],
    succs: &[u32],
    degrees: &mut [u32],
    fixed: &[u32],
    rings: &[CopyCell],
    ends: &[u32],
    counters: &mut [i32],
    buffers: &mut [u32],
    executed: &mut [u32],
    run: &mut [u32],
    rows: &mut [WeakRowCell],
    p: usize,
    k: usize,
    worker: u32,
) -> WeakReply
    ensures { result_of result
        (weak_cell_mem weights.now pred_starts.now preds.now succ_starts.now
        succs.now degrees.new fixed.now rings.now
        ends.now counters.new buffers.new executed.new
        run.new rows.new)
        ≡ replied weak_reply_of (step engine p k worker Step.Complete
        (weak_cell_mem weights.now pred_starts.now preds.now succ_starts.now
        succs.now degrees.old fixed.now rings.now
        ends.now counters.old buffers.old executed.old
        run.old rows.old)) }
{
    let answer = weak_engine::complete(
        Limits::engine(),
        weights,
        pred_starts,
        preds,
        succ_starts,
        succs,
        degrees,
        fixed,
        rings,
        ends,
        counters,
        buffers,
        executed,
        run,
        rows,
        p,
        k,
        WorkerId(worker),
    );
    if let Err(why) = answer {
        return weak_replies::refusal_reply_of(why);
    }
    weak_replies::weak_reply_of(answer)
}

#[unsafe(no_mangle)]
pub extern "C" fn yolluvek_weak_release(
    weights: &[u32],
    pred_starts: &[u32],
    preds: &[u32],
    succ_starts: &[u32],
    succs: &[u32],
    degrees: &[u32],
    fixed: &mut [u32],
    rings: &mut [CopyCell],
    ends: &mut [u32],
    counters: &mut [i32],
    buffers: &[u32],
    executed: &[u32],
    run: &mut [u32],
    rows: &mut [WeakRowCell],
    p: usize,
    k: usize,
    worker: u32,
) -> WeakReply
    ensures { result_of result
        (weak_cell_mem weights.now pred_starts.now preds.now succ_starts.now
        succs.now degrees.now fixed.new rings.new
        ends.new counters.new buffers.now executed.now
        run.new rows.new)
        ≡ replied weak_reply_of (step engine p k worker Step.Release
        (weak_cell_mem weights.now pred_starts.now preds.now succ_starts.now
        succs.now degrees.now fixed.old rings.old
        ends.old counters.old buffers.now executed.now
        run.old rows.old)) }
{
    let answer = weak_engine::release(
        Limits::engine(),
        weights,
        pred_starts,
        preds,
        succ_starts,
        succs,
        degrees,
        fixed,
        rings,
        ends,
        counters,
        buffers,
        executed,
        run,
        rows,
        p,
        k,
        WorkerId(worker),
    );
    if let Err(why) = answer {
        return weak_replies::refusal_reply_of(why);
    }
    weak_replies::weak_reply_of(answer)
}
