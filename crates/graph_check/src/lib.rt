// The graph check that every call on a graph shares: 2, 1, 3, 4, 5 in order.
#![tactic(auto)]

ghost use Rattle.std.specs.Prelude.{◌≡◌, true, length, Err};
ghost use Rattle.graph.specs.Graph.{graph_of};
ghost use Rattle.graph.specs.Conditions.{Sized};
ghost use Rattle.graph.specs.Check.{tables_answer, check_answer};
ghost use Rattle.graph.specs.Stripping.{Ordered};

use task::{Answer, Limits, Refusal};

// The answer, and how many tasks were stripped where 5 was judged.
#[derive(Clone, Copy)]
pub struct Checked {
    pub answer: Answer,
    pub stripped: usize,
}

fn refused(why: Refusal) -> Checked
    ensures { (result.answer ≡ Err why) × (result.stripped ≡ 0) }
{
    Checked {
        answer: Err(why),
        stripped: 0,
    }
}

// 3, 4 and 5 on tables of the right lengths; the tasks are stripped into `order`.
pub fn check_tables(n: usize, starts: &[u32], preds: &[u32], order: &mut [u32]) -> Checked
    requires { Sized (graph_of n starts.now preds.now) × (length order.old ≡ 1024) }
    ensures { (result.answer ≡ tables_answer (graph_of n starts.now preds.now))
        × Ordered (graph_of n starts.now preds.now) result.answer
        order.old order.new result.stripped }
{
    let bad = tables::first_bad(n, starts, preds);
    if bad < n {
        return refused(Refusal::BadTable(bad as u32));
    }
    if !tables::ends_fit(n, starts, preds) {
        return refused(Refusal::BadTable(n as u32));
    }
    let mut left = [0u32; 1024];
    let twice = tables::first_twice(n, starts, preds, &mut left);
    if twice < n {
        return refused(Refusal::Duplicate(twice as u32));
    }
    let judged = cycles::first_on_cycle(n, starts, preds, &mut left, order);
    let looped = judged.first;
    let stripped = judged.stripped;
    if looped < n {
        return Checked {
            answer: Err(Refusal::Cycle(looped as u32)),
            stripped: stripped,
        };
    }
    Checked {
        answer: Ok(()),
        stripped: stripped,
    }
}

// The whole check of weights and predecessor tables. Where it judges 5 it hands out the order of stripping, so that no call
// is answered without it. `within` says that the call's other numbers are within their limits, `others` that its other
// lists have their lengths. The contract leaves one thing free: which of the orders that can be stripped it hands out, behind
// the tasks without successors. The words behind the order stay.
pub fn check_graph(
    limits: Limits,
    within: bool,
    others: bool,
    weights: &[u32],
    starts: &[u32],
    preds: &[u32],
    order: &mut [u32],
) -> Checked
    requires { length order.old ≡ 1024 }
    ensures { (result.answer ≡ check_answer limits within others weights.now starts.now preds.now)
        × Ordered (graph_of (length weights.now) starts.now preds.now) result.answer
        order.old order.new result.stripped }
{
    let n = weights.len();
    if !(within & tables::sizes_fit(limits, n, preds.len())) {
        return refused(Refusal::BeyondLimit);
    }
    if !tables::weights_fit(weights) {
        return refused(Refusal::BeyondLimit);
    }
    if !((starts.len() == n + 1) & others) {
        return refused(Refusal::WrongLength);
    }
    check_tables(n, starts, preds, order)
}

// The check of a graph by itself; the order is its own scratch.
pub fn check(limits: Limits, weights: &[u32], starts: &[u32], preds: &[u32]) -> Answer
    ensures { result ≡ check_answer limits true true weights.now starts.now preds.now }
{
    let mut order = [0u32; 1024];
    let checked = check_graph(limits, true, true, weights, starts, preds, &mut order);
    checked.answer
}
