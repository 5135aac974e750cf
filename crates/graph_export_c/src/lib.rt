// The graph layer's calls as C and Rust see them: each hands on to the call of the same name in `graph_export`, under its clauses.
#![tactic(auto)]

ghost use Rattle.std.specs.Prelude.{◌≡◌, true};
ghost use Rattle.graph.specs.Check.{check_answer};
ghost use Rattle.graph.specs.Successors.{linked};
ghost use Rattle.graph.specs.Lookup.{lent_of, judge_answer};
ghost use Rattle.replies.specs.Replies.{reply_of};
ghost use Rattle.graph_export.specs.Replies.{limits_of, side_of, replied, replied_of, part_in};

use graph_export::Part;
use replies::Reply;

#[unsafe(no_mangle)]
pub extern "C" fn yolluvek_check_graph(
    most_tasks: usize,
    most_edges: usize,
    weights: &[u32],
    starts: &[u32],
    preds: &[u32],
) -> Reply
    ensures { result ≡ reply_of (check_answer (limits_of most_tasks most_edges) true true weights.now starts.now
        preds.now) }
{
    graph_export::yolluvek_check_graph(most_tasks, most_edges, weights, starts, preds)
}

#[unsafe(no_mangle)]
pub extern "C" fn yolluvek_link_graph(
    most_tasks: usize,
    most_edges: usize,
    weights: &[u32],
    starts: &[u32],
    preds: &[u32],
    succ_starts: &mut [u32],
    succs: &mut [u32],
    degrees: &mut [u32],
) -> Reply
    ensures { replied_of result succ_starts.new succs.new degrees.new
        ≡ replied (linked (limits_of most_tasks most_edges) weights.now starts.now preds.now
        succ_starts.old succs.old degrees.old) }
{
    graph_export::yolluvek_link_graph(
        most_tasks,
        most_edges,
        weights,
        starts,
        preds,
        succ_starts,
        succs,
        degrees,
    )
}

#[unsafe(no_mangle)]
pub extern "C" fn yolluvek_judge_lookup(
    weights: &[u32],
    pred_starts: &[u32],
    preds: &[u32],
    succ_starts: &[u32],
    succs: &[u32],
    side: u32,
    task: u32,
) -> Reply
    ensures { result ≡ reply_of (judge_answer (side_of side) (lent_of weights.now pred_starts.now preds.now
        succ_starts.now succs.now) task) }
{
    graph_export::yolluvek_judge_lookup(weights, pred_starts, preds, succ_starts, succs, side, task)
}

#[unsafe(no_mangle)]
pub extern "C" fn yolluvek_lookup(
    weights: &[u32],
    pred_starts: &[u32],
    preds: &[u32],
    succ_starts: &[u32],
    succs: &[u32],
    side: u32,
    task: u32,
) -> Part
    ensures { result ≡ part_in (side_of side) (lent_of weights.now pred_starts.now preds.now
        succ_starts.now succs.now) task }
{
    graph_export::yolluvek_lookup(weights, pred_starts, preds, succ_starts, succs, side, task)
}
