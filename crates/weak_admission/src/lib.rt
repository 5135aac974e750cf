// What is judged before a weak step's own rule: the numbers and the lengths of the lent lists (2, 1), the worker (7), the phase word (8)
// and whether the step suits it (9); and what every weak step reads last, R and the accepted word.
#![tactic(auto)]

ghost use Rattle.std.specs.Prelude.{◌≡◌, ◌≤◌, length};
ghost use Rattle.task.specs.Types.{engine};
ghost use Rattle.plans.specs.Sizes.{others_fit, lengths_fit};
ghost use Rattle.weak_rules.specs.Memory.{Mem};
ghost use Rattle.weak_admission.specs.Admission.{sizes_of, Judges, Knows, Admits, answer_of, row_after};
ghost use Rattle.weak_task.specs.Types.{copy_of};
ghost use Rattle.weak_admission.specs.Count.{copy_within, count_of};

use task::{Answer, Damaged, Limits, Refusal, Step, TaskId, WorkerId};
use weak_task::{TaskCopy, WeakAnswer, WeakOutcome, WeakRow};

// The lengths of the lent lists; the rings' is counted in copies.
#[derive(Clone, Copy)]
pub struct WeakSizes {
    pub weights: usize,
    pub pred_starts: usize,
    pub preds: usize,
    pub succ_starts: usize,
    pub succs: usize,
    pub degrees: usize,
    pub fixed: usize,
    pub rings: usize,
    pub ends: usize,
    pub counters: usize,
    pub buffers: usize,
    pub executed: usize,
    pub run: usize,
    pub rows: usize,
}

// The lists beside weights, predecessors and predecessor starts have their lengths.
pub fn others_fit(sizes: WeakSizes, p: usize, k: usize) -> bool
    requires { ((p ≤ engine.workers) × ((k ≤ engine.slots) × (sizes.weights ≤ engine.tasks)))
        × (sizes.preds ≤ engine.edges) }
    ensures { (m : Mem) → sizes_of m ≡ sizes → result ≡ others_fit p k m }
{
    let n = sizes.weights;
    let squares = p * p;
    (sizes.succ_starts == n + 1)
        & ((sizes.succs == sizes.preds)
            & ((sizes.degrees == n)
                & ((sizes.fixed == n)
                    & ((sizes.rings == squares * k)
                        & ((sizes.ends == squares * 3)
                            & ((sizes.counters == squares)
                                & ((sizes.buffers == p * n)
                                    & ((sizes.executed == 3 * (sizes.preds + n))
                                        & ((sizes.run == 3) & (sizes.rows == p))))))))))
}

// All lists have their lengths.
pub fn lengths_fit(sizes: WeakSizes, p: usize, k: usize) -> bool
    requires { ((p ≤ engine.workers) × ((k ≤ engine.slots) × (sizes.weights ≤ engine.tasks)))
        × (sizes.preds ≤ engine.edges) }
    ensures { (m : Mem) → sizes_of m ≡ sizes → result ≡ lengths_fit p k m }
{
    (sizes.pred_starts == sizes.weights + 1) & others_fit(sizes, p, k)
}

// 2, 1 and 7. Apart from what follows, so that it is small enough for the compiler to expand it in each call, where the limits are known.
pub fn judge(limits: Limits, sizes: WeakSizes, p: usize, k: usize, worker: WorkerId) -> Answer
    ensures judges { Judges limits p k worker.0 sizes result }
    ensures knows { Knows p k worker.0 sizes result }
{
    if !(admission::numbers_fit(limits, p, k)
        & tables::sizes_fit(limits, sizes.weights, sizes.preds))
    {
        return Err(Refusal::BeyondLimit);
    }
    if !lengths_fit(sizes, p, k) {
        return Err(Refusal::WrongLength);
    }
    if p <= worker.0 as usize {
        return Err(Refusal::NoSuchWorker(worker.0));
    }
    Ok(())
}

// The worker's row in the phase that the step leads to: what was judged, then the phase word (8) and whether the step suits it (9). The
// phase is set here alone.
pub fn admit(judged: Answer, row: WeakRow, step: Step) -> Result<WeakRow, Refusal>
    ensures { Admits row step judged result }
{
    judged?;
    let phase = admission::phase_after(row.phase, step)?;
    Ok(WeakRow { phase, ..row })
}

// Both words of a copy are in their ranges: the task below N, the predecessor NIL or below N.
pub fn copy_fits(copy: TaskCopy, tasks: usize) -> bool
    ensures { result ≡ copy_within tasks (copy_of copy) }
{
    let task = copy.task.0;
    let predecessor = copy.predecessor.0;
    ((task as usize) < tasks) & ((predecessor == TaskId::NIL.0) | ((predecessor as usize) < tasks))
}

// The accepted word, unless it or R is damaged.
pub type Counted = Result<u32, Damaged>;

// R, "read just before" the accepted word, and that word, with which a step's checks end.
pub fn count_of(run: &[u32], tasks: usize, edges: usize) -> Counted
    requires { (length run.now ≡ 3) × ((tasks ≤ engine.tasks) × (edges ≤ engine.edges)) }
    ensures { result ≡ count_of tasks edges run.now }
{
    let roots = run[2];
    if tasks < roots as usize {
        return Err(Damaged);
    }
    let accepted = run[1];
    if 4 * edges + 3 * roots as usize <= accepted as usize {
        return Err(Damaged);
    }
    Ok(accepted)
}

// A step's end: its outcome and the worker's row after it, or refused.
pub type WeakStepped = Result<(WeakOutcome, WeakRow), Refusal>;

pub fn answer_of(stepped: WeakStepped) -> WeakAnswer
    ensures { result ≡ answer_of stepped }
{
    let (outcome, _) = stepped?;
    Ok(outcome)
}

// The worker's row after a step, which had this row before.
pub fn row_after(stepped: WeakStepped, row: WeakRow) -> WeakRow
    ensures { result ≡ row_after row stepped }
{
    match stepped {
        Err(_) => row,
        Ok((_, after)) => after,
    }
}
