// Begin of a weak job on the lent lists but the rows: judged from what is read, then everything is laid down.
#![tactic(auto)]

ghost use Rattle.weak_rules.specs.Memory.{mem_of};
ghost use Rattle.weak_rows.specs.Copies.{copies_of};
ghost use Rattle.weak_begin.specs.Begin.{Begins};

use begin::Begun;
use task::Limits;
use weak_admission::WeakSizes;
use weak_task::CopyCell;

pub fn begin_lists(
    limits: Limits,
    rows: usize,
    p: usize,
    k: usize,
    weights: &[u32],
    pred_starts: &[u32],
    preds: &[u32],
    succ_starts: &mut [u32],
    succs: &mut [u32],
    degrees: &mut [u32],
    fixed: &mut [u32],
    rings: &mut [CopyCell],
    ends: &mut [u32],
    counters: &mut [i32],
    buffers: &mut [u32],
    executed: &mut [u32],
    run: &mut [u32],
) -> Begun
    ensures { Begins limits p k rows (λ rs. mem_of weights.now pred_starts.now preds.now
        succ_starts.old succs.old degrees.old fixed.old
        (copies_of rings.old) ends.old counters.old buffers.old
        executed.old run.old rs) (λ rs. mem_of weights.now pred_starts.now
        preds.now succ_starts.new succs.new degrees.new fixed.new
        (copies_of rings.new) ends.new counters.new buffers.new executed.new
        run.new rs) result }
{
    let sizes = WeakSizes {
        weights: weights.len(),
        pred_starts: pred_starts.len(),
        preds: preds.len(),
        succ_starts: succ_starts.len(),
        succs: succs.len(),
        degrees: degrees.len(),
        fixed: fixed.len(),
        rings: rings.len(),
        ends: ends.len(),
        counters: counters.len(),
        buffers: buffers.len(),
        executed: executed.len(),
        run: run.len(),
        rows,
    };
    let answer = weak_begin_check::judge(limits, sizes, p, k, weights, pred_starts, preds);
    let Ok(()) = answer else {
        return Begun { answer, rows: 0 };
    };
    let n = weights.len();
    successors::fill(n, pred_starts, preds, succ_starts, succs, degrees);
    weak_roots::lay_roots(weights, degrees, fixed, rings, ends, counters, p, k);
    roots::clear(buffers);
    roots::clear(executed);
    weak_roots::lay_run(n, pred_starts, run);
    Begun { answer, rows: p }
}
