// Check and fill in one call: where the graph is refused, nothing is written.
#![tactic(auto)]

ghost use Rattle.std.specs.Prelude.{◌≡◌};
ghost use Rattle.graph.specs.Successors.{linked_of, linked};

use task::{Answer, Limits};

// Checks a graph and fills its successor table and degrees: 2, 1, 3, 4, 5 in order, or accepted.
pub fn link_graph(
    limits: Limits,
    weights: &[u32],
    starts: &[u32],
    preds: &[u32],
    succ_starts: &mut [u32],
    succs: &mut [u32],
    degrees: &mut [u32],
) -> Answer
    ensures { linked_of result succ_starts.new succs.new degrees.new
        ≡ linked limits weights.now starts.now preds.now succ_starts.old
        succs.old degrees.old }
{
    let n = weights.len();
    let fit = (succ_starts.len() == n + 1) & ((succs.len() == preds.len()) & (degrees.len() == n));
    let mut order = [0u32; 1024];
    let check = graph_check::check_graph(limits, true, fit, weights, starts, preds, &mut order);
    check.answer?;
    successors::fill(n, starts, preds, succ_starts, succs, degrees);
    Ok(())
}
