// What begin is refused for: 2, 1, 3, 4, 5, 6 in order.
#![tactic(auto)]

ghost use Rattle.begin_check.specs.Judging.{Judges};

use admission::Sizes;
use task::{Answer, Limits, Refusal};

// Begin's answer, from what is read alone. Products of lengths wait for 2.
pub fn judge(
    limits: Limits,
    sizes: Sizes,
    p: usize,
    k: usize,
    weights: &[u32],
    starts: &[u32],
    preds: &[u32],
) -> Answer
    ensures { Judges limits p k sizes weights.now starts.now preds.now result }
{
    if !(admission::numbers_fit(limits, p, k)
        & tables::sizes_fit(limits, sizes.weights, sizes.preds))
    {
        return Err(Refusal::BeyondLimit);
    }
    let others = admission::others_fit(sizes, p, k);
    let mut order = [0u32; 1024];
    let check = graph_check::check_graph(limits, true, others, weights, starts, preds, &mut order);
    check.answer?;
    let n = weights.len();
    let found = roots::count_roots(n, starts);
    if p * k < found {
        return Err(Refusal::TooManyRoots(found as u32));
    }
    Ok(())
}
