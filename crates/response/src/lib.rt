// What the desk answers to a text: it is read, begun and run, and what is to be printed is put into a lent buffer.
#![tactic(auto)]

ghost use Rattle.std.specs.Prelude.{◌≡◌, ◌+◌, ◌≤◌, length};
ghost use Rattle.task.specs.Types.{engine};
ghost use Rattle.engine_cells.specs.Cells.{cell_mem};
ghost use Rattle.desk_rule.specs.Output.{desk_memory, graph_output, desk_output};
ghost use Rattle.text_put.specs.Appending.{Appends};

use task::{Limits, ROW_WORDS, RowCell};

// Begins a run with P 2 and K 4, takes the desk's turns, and puts what is printed of it.
fn run_graph(
    weights: &[u32],
    pred_starts: &[u32],
    preds: &[u32],
    succ_starts: &mut [u32],
    succs: &mut [u32],
    degrees: &mut [u32],
    rings: &mut [u32],
    ends: &mut [u32],
    counters: &mut [i32],
    buffers: &mut [u32],
    executed: &mut [u32],
    run: &mut [u32],
    rows: &mut [RowCell],
    out: &mut [u8],
) -> usize
    requires { length out.old ≡ 32768 }
    ensures { Appends 0
        (graph_output
        (cell_mem weights.now pred_starts.now preds.now succ_starts.old
        succs.old degrees.old rings.old ends.old
        counters.old buffers.old executed.old run.old
        rows.old))
        out.old out.new result }
{
    let answer = engine_begin::begin(
        Limits::engine(),
        weights,
        pred_starts,
        preds,
        succ_starts,
        succs,
        degrees,
        rings,
        ends,
        counters,
        buffers,
        executed,
        run,
        rows,
        2,
        4,
    );
    if let Err(why) = answer {
        return printing::put_refused(out, why.number(), why.detail());
    }
    turns::drive(
        weights,
        pred_starts,
        preds,
        succ_starts,
        succs,
        degrees,
        rings,
        ends,
        counters,
        buffers,
        executed,
        run,
        rows,
    );
    let at = printing::put_pair(out, 0, weights.len() as u32, run[1]);
    printing::put_entries(out, at, executed, run[0] as usize)
}

// The same for tables alone, which the desk lends its own lists beside.
fn run_tables(weights: &[u32], pred_starts: &[u32], preds: &[u32], out: &mut [u8]) -> usize
    requires { (length weights.now ≤ engine.tasks) × ((length preds.now ≤ engine.edges) × (length out.old ≡ 32768)) }
    ensures { Appends 0 (graph_output (desk_memory weights.now pred_starts.now preds.now)) out.old out.new result }
{
    let n = weights.len();
    let e = preds.len();
    let mut succ_starts = [0u32; 1025];
    let mut succs = [0u32; 8192];
    let mut degrees = [0u32; 1024];
    let mut rings = [0u32; 16];
    let mut ends = [0u32; 12];
    let mut counters = [0i32; 4];
    let mut buffers = [0u32; 2048];
    let mut executed = [0u32; 2048];
    let mut run = [0u32; 2];
    let mut rows = [[0u32; ROW_WORDS]; 2];
    run_graph(
        weights,
        pred_starts,
        preds,
        &mut succ_starts[..n + 1],
        &mut succs[..e],
        &mut degrees[..n],
        &mut rings,
        &mut ends,
        &mut counters,
        &mut buffers[..2 * n],
        &mut executed[..2 * n],
        &mut run,
        &mut rows,
        out,
    )
}

// All that the desk program prints for a text.
pub fn respond(text: &[u8], out: &mut [u8]) -> usize
    requires { length out.old ≡ 32768 }
    ensures { Appends 0 (desk_output text.now) out.old out.new result }
{
    let mut weights = [0u32; 1024];
    let mut starts = [0u32; 1025];
    let mut preds = [0u32; 8192];
    let read = stg::read(text, &mut weights, &mut starts, &mut preds);
    match read {
        Err(why) => printing::put_refused(out, why.number(), why.detail()),
        Ok((n, e)) => run_tables(
            &weights[..n as usize],
            &starts[..n as usize + 1],
            &preds[..e as usize],
            out,
        ),
    }
}
