// Begin on the lent lists but the rows: judged from what is read, then everything is laid down.
#![tactic(auto)]

ghost use Rattle.rules.specs.Memory.{mem_of};
ghost use Rattle.begin.specs.Begin.{Begins};

use admission::Sizes;
use task::{Answer, Limits};

// Begin's answer, and how many rows the caller has to clear: P, or 0 where it is refused.
// kept: no Result, since refused_begin_clears_rows and rows_left try a wrong number in either case.
#[derive(Clone, Copy)]
pub struct Begun {
    pub answer: Answer,
    pub rows: usize,
}

pub fn begin_lists(
    limits: Limits,
    rows: usize,
    p: usize,
    k: usize,
    weights: &[u32],
    pred_starts: &[u32],
    preds: &[u32],
    succ_starts: &mut [u32],
    succs: &mut [u32],
    degrees: &mut [u32],
    rings: &mut [u32],
    ends: &mut [u32],
    counters: &mut [i32],
    buffers: &mut [u32],
    executed: &mut [u32],
    run: &mut [u32],
) -> Begun
    ensures { Begins limits p k rows (λ rs. mem_of weights.now pred_starts.now preds.now
        succ_starts.old succs.old degrees.old rings.old ends.old
        counters.old buffers.old executed.old run.old rs) (λ rs. mem_of
        weights.now pred_starts.now preds.now succ_starts.new succs.new
        degrees.new rings.new ends.new counters.new buffers.new
        executed.new run.new rs) result }
{
    let sizes = Sizes {
        weights: weights.len(),
        pred_starts: pred_starts.len(),
        preds: preds.len(),
        succ_starts: succ_starts.len(),
        succs: succs.len(),
        degrees: degrees.len(),
        rings: rings.len(),
        ends: ends.len(),
        counters: counters.len(),
        buffers: buffers.len(),
        executed: executed.len(),
        run: run.len(),
        rows,
    };
    let answer = begin_check::judge(limits, sizes, p, k, weights, pred_starts, preds);
    let Ok(()) = answer else {
        return Begun { answer, rows: 0 };
    };
    let n = weights.len();
    successors::fill(n, pred_starts, preds, succ_starts, succs, degrees);
    roots::lay_rings(weights, degrees, rings, ends, counters, p, k);
    roots::clear(buffers);
    roots::clear(executed);
    roots::clear(run);
    Begun { answer, rows: p }
}
