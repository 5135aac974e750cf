// `fetch` in document 01's form, lent all lists of a run, the worker rows as one list of records: the worker's row is read, the step is
// taken by value, and the row that is then the worker's is stored.
#![tactic(auto)]

ghost use Rattle.std.specs.Prelude.{◌≡◌};
ghost use Rattle.task.specs.declared.Step.{Step};
ghost use Rattle.rules.specs.Memory.{mem_of};
ghost use Rattle.rules.specs.Steps.{step};
ghost use Rattle.rules.specs.Plans.{result_of};

use admission::Sizes;
use task::{Limits, Row, StepAnswer, WorkerId};

pub fn fetch(
    limits: Limits,
    weights: &[u32],
    pred_starts: &[u32],
    preds: &[u32],
    succ_starts: &[u32],
    succs: &[u32],
    degrees: &[u32],
    rings: &[u32],
    ends: &mut [u32],
    counters: &[i32],
    buffers: &[u32],
    executed: &[u32],
    run: &mut [u32],
    rows: &mut [Row],
    p: usize,
    k: usize,
    worker: WorkerId,
) -> StepAnswer
    ensures { result_of result
        (mem_of weights.now pred_starts.now preds.now succ_starts.now
        succs.now degrees.now rings.now ends.new
        counters.now buffers.now executed.now run.new
        rows.new)
        ≡ step limits p k worker.0 Step.Fetch
        (mem_of weights.now pred_starts.now preds.now succ_starts.now
        succs.now degrees.now rings.now ends.old
        counters.now buffers.now executed.now run.old
        rows.old) }
{
    let sizes = Sizes {
        weights: weights.len(),
        pred_starts: pred_starts.len(),
        preds: preds.len(),
        succ_starts: succ_starts.len(),
        succs: succs.len(),
        degrees: degrees.len(),
        rings: rings.len(),
        ends: ends.len(),
        counters: counters.len(),
        buffers: buffers.len(),
        executed: executed.len(),
        run: run.len(),
        rows: rows.len(),
    };
    let judged = admission::judge(limits, sizes, p, k, worker);
    let row = row_list::row_at(rows, worker);
    let stepped = fetch::fetch_row(sizes, judged, p, k, worker, row, rings, ends, run);
    row_list::store_row(rows, worker, admission::row_after(stepped, row));
    admission::answer_of(stepped)
}
