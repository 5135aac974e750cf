// The graph layer's calls for C and Rust: lists as pointer and length; each call answers the number and the detail, 0 and 0
// where it accepts.
#![tactic(auto)]

ghost use Rattle.std.specs.Prelude.{◌≡◌, true, ◌+◌, ◌-◌, ◌≤◌, ◌<◌, length, get_or};
ghost use Rattle.graph.specs.Check.{check_answer};
ghost use Rattle.graph.specs.Successors.{linked};
ghost use Rattle.graph.specs.Lookup.{lent_of, judge_answer};
ghost use Rattle.replies.specs.Replies.{reply_of};
ghost use Rattle.graph_export.specs.Replies.{limits_of, side_of, replied, replied_of, part_in};

use replies::Reply;
use task::{Limits, Side, TaskId};

// Limits on N and E; the others are the engine's.
fn limits(tasks: usize, edges: usize) -> Limits
    ensures { result ≡ limits_of tasks edges }
{
    Limits {
        tasks,
        edges,
        workers: 16,
        slots: 64,
    }
}

// The graph check alone, with these limits on N and E.
#[unsafe(no_mangle)]
pub extern "C" fn yolluvek_check_graph(
    most_tasks: usize,
    most_edges: usize,
    weights: &[u32],
    starts: &[u32],
    preds: &[u32],
) -> Reply
    ensures { result ≡ reply_of (check_answer (limits_of most_tasks most_edges) true true weights.now starts.now
        preds.now) }
{
    let limits = limits(most_tasks, most_edges);
    replies::reply_of(graph_check::check(limits, weights, starts, preds))
}

// The same check, and where it accepts successor starts, successors and degrees.
#[unsafe(no_mangle)]
pub extern "C" fn yolluvek_link_graph(
    most_tasks: usize,
    most_edges: usize,
    weights: &[u32],
    starts: &[u32],
    preds: &[u32],
    succ_starts: &mut [u32],
    succs: &mut [u32],
    degrees: &mut [u32],
) -> Reply
    ensures { replied_of result succ_starts.new succs.new degrees.new
        ≡ replied (linked (limits_of most_tasks most_edges) weights.now starts.now preds.now
        succ_starts.old succs.old degrees.old) }
{
    let within = limits(most_tasks, most_edges);
    replies::reply_of(link::link_graph(within, weights, starts, preds, succ_starts, succs, degrees))
}

fn side_of(number: u32) -> Side
    ensures { result ≡ side_of number }
{
    if number == 0 {
        Side::Predecessors
    } else {
        Side::Successors
    }
}

// The judging call of the lookup. Side 0 is that of the predecessors, any other that of the successors.
#[unsafe(no_mangle)]
pub extern "C" fn yolluvek_judge_lookup(
    weights: &[u32],
    pred_starts: &[u32],
    preds: &[u32],
    succ_starts: &[u32],
    succs: &[u32],
    side: u32,
    task: u32,
) -> Reply
    ensures { result ≡ reply_of (judge_answer (side_of side) (lent_of weights.now pred_starts.now preds.now
        succ_starts.now succs.now) task) }
{
    let on = side_of(side);
    let named = TaskId::new(task);
    replies::reply_of(lookup::judge(weights, pred_starts, preds, succ_starts, succs, on, named))
}

// Where a lookup's part stands in the table on the side named, and how many neighbours it has; 0 and 0 where the lookup is refused.
#[repr(C)]
#[derive(Clone, Copy)]
pub struct Part {
    pub place: u32,
    pub count: u32,
}

fn part_at(starts: &[u32], t: usize) -> Part
    requires { (t + 1 < length starts.now) × (get_or starts.now t 0 ≤ get_or starts.now (t + 1) 0) }
    ensures { (result.place ≡ get_or starts.now t 0) × (result.count ≡ get_or starts.now (t + 1) 0 - get_or
        starts.now t 0) }
{
    let place = starts[t];
    Part {
        place,
        count: starts[t + 1] - place,
    }
}

#[unsafe(no_mangle)]
pub extern "C" fn yolluvek_lookup(
    weights: &[u32],
    pred_starts: &[u32],
    preds: &[u32],
    succ_starts: &[u32],
    succs: &[u32],
    side: u32,
    task: u32,
) -> Part
    ensures { result ≡ part_in (side_of side) (lent_of weights.now pred_starts.now preds.now
        succ_starts.now succs.now) task }
{
    let on = side_of(side);
    let named = TaskId::new(task);
    let answer = lookup::judge(weights, pred_starts, preds, succ_starts, succs, on, named);
    let Ok(()) = answer else {
        return Part { place: 0, count: 0 };
    };
    match on {
        Side::Predecessors => part_at(pred_starts, task as usize),
        Side::Successors => part_at(succ_starts, task as usize),
    }
}
