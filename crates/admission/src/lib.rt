// What is judged before a call's own rule: the numbers and the lengths of the lent lists (2, 1), and for a step the worker (7), the
// phase word (8) and whether the step suits it (9).
#![tactic(auto)]

ghost use Rattle.std.specs.Prelude.{◌≡◌, ◌≤◌};
ghost use Rattle.task.specs.Types.{engine};
ghost use Rattle.rules.specs.Memory.{Mem};
ghost use Rattle.rules.specs.Sizes.{numbers_fit, others_fit, lengths_fit};
ghost use Rattle.admission.specs.Phase.{phase_after};
ghost use Rattle.admission.specs.Admission.{sizes_of, Judges, Knows, Admits, answer_of, row_after};

use task::{Answer, Limits, Refusal, Row, Step, StepAnswer, StepOutcome, WorkerId};

// The lengths of the lent lists.
#[derive(Clone, Copy)]
pub struct Sizes {
    pub weights: usize,
    pub pred_starts: usize,
    pub preds: usize,
    pub succ_starts: usize,
    pub succs: usize,
    pub degrees: usize,
    pub rings: usize,
    pub ends: usize,
    pub counters: usize,
    pub buffers: usize,
    pub executed: usize,
    pub run: usize,
    pub rows: usize,
}

// P and K are within their limits.
pub fn numbers_fit(limits: Limits, p: usize, k: usize) -> bool
    ensures { result ≡ numbers_fit limits p k }
{
    let most = limits.capped();
    ((1 <= p) & (p <= most.workers)) & ((2 <= k) & (k <= most.slots))
}

// The lists beside weights, predecessors and predecessor starts have their lengths.
pub fn others_fit(sizes: Sizes, p: usize, k: usize) -> bool
    requires { (p ≤ engine.workers) × ((k ≤ engine.slots) × (sizes.weights ≤ engine.tasks)) }
    ensures { (m : Mem) → sizes_of m ≡ sizes → result ≡ others_fit p k m }
{
    let n = sizes.weights;
    let squares = p * p;
    (sizes.succ_starts == n + 1)
        & ((sizes.succs == sizes.preds)
            & ((sizes.degrees == n)
                & ((sizes.rings == squares * k)
                    & ((sizes.ends == squares * 3)
                        & ((sizes.counters == squares)
                            & ((sizes.buffers == p * n)
                                & ((sizes.executed == 2 * n)
                                    & ((sizes.run == 2) & (sizes.rows == p)))))))))
}

// All lists have their lengths.
pub fn lengths_fit(sizes: Sizes, p: usize, k: usize) -> bool
    requires { (p ≤ engine.workers) × ((k ≤ engine.slots) × (sizes.weights ≤ engine.tasks)) }
    ensures { (m : Mem) → sizes_of m ≡ sizes → result ≡ lengths_fit p k m }
{
    (sizes.pred_starts == sizes.weights + 1) & others_fit(sizes, p, k)
}

// 2, 1 and 7. Apart from what follows, so that it is small enough for the compiler to expand it in each call, where the limits are known.
pub fn judge(limits: Limits, sizes: Sizes, p: usize, k: usize, worker: WorkerId) -> Answer
    ensures judges { Judges limits p k worker.0 sizes result }
    ensures knows { Knows p k worker.0 sizes result }
{
    if !(numbers_fit(limits, p, k) & tables::sizes_fit(limits, sizes.weights, sizes.preds)) {
        return Err(Refusal::BeyondLimit);
    }
    if !lengths_fit(sizes, p, k) {
        return Err(Refusal::WrongLength);
    }
    if p <= worker.0 as usize {
        return Err(Refusal::NoSuchWorker(worker.0));
    }
    Ok(())
}

// The phase that a step leads to, whatever else stands in the worker's row: the phase word (8), and whether the step suits it (9).
pub fn phase_after(phase: u32, step: Step) -> Result<u32, Refusal>
    ensures { result ≡ phase_after phase step }
{
    let Some(to) = task::next_phase(phase, step) else {
        if 2 < phase {
            return Err(Refusal::Damaged);
        }
        return Err(Refusal::WrongPhase(phase));
    };
    Ok(to)
}

// The worker's row in the phase that the step leads to: what was judged, then the phase word (8) and whether the step suits it (9). The
// phase is set here alone.
pub fn admit(judged: Answer, row: Row, step: Step) -> Result<Row, Refusal>
    ensures { Admits row step judged result }
{
    judged?;
    let phase = phase_after(row.phase, step)?;
    Ok(Row { phase, ..row })
}

// A step's end: its outcome and the worker's row after it, or refused.
pub type Stepped = Result<(StepOutcome, Row), Refusal>;

pub fn answer_of(stepped: Stepped) -> StepAnswer
    ensures { result ≡ answer_of stepped }
{
    let (outcome, _) = stepped?;
    Ok(outcome)
}

// The worker's row after a step, which had this row before.
pub fn row_after(stepped: Stepped, row: Row) -> Row
    ensures { result ≡ row_after row stepped }
{
    match stepped {
        Err(_) => row,
        Ok((_, after)) => after,
    }
}
