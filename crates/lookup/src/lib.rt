// The neighbours of a task, handed back as a part of the table itself, and the judging call on the same arguments.
#![tactic(auto)]

ghost use Rattle.std.specs.Prelude.{◌≡◌, ◌&&◌, ◌+◌, ◌≤◌, ◌<◌, length, get_or, ltb};
ghost use Rattle.lists.specs.Decided.{holds};
ghost use Rattle.graph.specs.Graph.{part};
ghost use Rattle.graph.specs.Decide.{good?};
ghost use Rattle.graph.specs.Lookup.{lent_of, task_fits, judge_answer, neighbours_of};
ghost use Rattle.lookup.specs.Place.{word_ptr, InPlace};

use task::{Answer, Limits, Refusal, Side, TaskId};

// Whether t is one of the n tasks and its part of the table is good.
fn task_fits(n: usize, starts: &[u32], words: &[u32], t: usize) -> bool
    requires { length starts.now ≡ n + 1 }
    ensures { result ≡ (ltb t n && holds (good? n starts.now words.now t)) }
{
    if n <= t {
        return false;
    }
    tables::part_good(n, starts, words, t)
}

// The same on the side named.
fn side_fits(
    weights: &[u32],
    pred_starts: &[u32],
    preds: &[u32],
    succ_starts: &[u32],
    succs: &[u32],
    side: Side,
    t: usize,
) -> bool
    requires { (length pred_starts.now ≡ length weights.now + 1) × (length succ_starts.now ≡ length weights.now + 1) }
    ensures { result ≡ task_fits side (lent_of weights.now pred_starts.now preds.now
        succ_starts.now succs.now) t }
{
    let n = weights.len();
    match side {
        Side::Predecessors => task_fits(n, pred_starts, preds, t),
        Side::Successors => task_fits(n, succ_starts, succs, t),
    }
}

// The judging call: 2, 1, 3 in order, or accepted.
pub fn judge(
    weights: &[u32],
    pred_starts: &[u32],
    preds: &[u32],
    succ_starts: &[u32],
    succs: &[u32],
    side: Side,
    task: TaskId,
) -> Answer
    ensures { result ≡ judge_answer side (lent_of weights.now pred_starts.now preds.now
        succ_starts.now succs.now) task.0 }
{
    let n = weights.len();
    let e = preds.len();
    if !tables::sizes_fit(Limits::engine(), n, e) {
        return Err(Refusal::BeyondLimit);
    }
    if !((pred_starts.len() == n + 1) & ((succ_starts.len() == n + 1) & (succs.len() == e))) {
        return Err(Refusal::WrongLength);
    }
    let t = task.0;
    if !side_fits(
        weights,
        pred_starts,
        preds,
        succ_starts,
        succs,
        side,
        t as usize,
    ) {
        return Err(Refusal::BadTable(t));
    }
    Ok(())
}

// Task t's part of a table in which its range is good.
fn part_at<'a>(starts: &[u32], words: &'a [u32], t: usize) -> &'a [u32]
    requires { (t + 1 < length starts.now) × ((get_or starts.now t 0 ≤ get_or starts.now (t + 1) 0)
        × (get_or starts.now (t + 1) 0 ≤ length words.now)) }
    ensures { (result.now ≡ part starts.now words.now t)
        × (result.ref_ptr ≡ word_ptr words.entry.ref_ptr (get_or starts.now t 0)) }
{
    let a = starts[t] as usize;
    let e = starts[t + 1] as usize;
    &words[a..e]
}

// The neighbours on the side named, from their place in the table itself; a refused lookup hands back an empty part. Left free:
// which of the two tables that empty part belongs to; no other list has the result's lifetime.
pub fn neighbours<'a>(
    weights: &[u32],
    pred_starts: &[u32],
    preds: &'a [u32],
    succ_starts: &[u32],
    succs: &'a [u32],
    side: Side,
    task: TaskId,
) -> &'a [u32]
    ensures { (result.now ≡ neighbours_of side (lent_of weights.now pred_starts.now preds.now
        succ_starts.now succs.now) task.0)
        × InPlace side (lent_of weights.now pred_starts.now preds.now
        succ_starts.now succs.now) preds.entry.ref_ptr succs.entry.ref_ptr task.0 result.ref_ptr }
{
    let answer = judge(weights, pred_starts, preds, succ_starts, succs, side, task);
    let Ok(()) = answer else {
        return &preds[0..0];
    };
    let t = task.0 as usize;
    match side {
        Side::Predecessors => part_at(pred_starts, preds, t),
        Side::Successors => part_at(succ_starts, succs, t),
    }
}
