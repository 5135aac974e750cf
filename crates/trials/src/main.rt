// Runs the graph check, the linking call and the lookup on the cases of standard input, a line each, and prints a line
// for each: what the calls answer and what they leave. The file stdout has what the model in Rust answers.
//
// # ..         a note, printed as it stands
// g ..         limits on N and E; lengths of weights, starts, predecessors; lengths of the lent successor starts,
//              successors, degrees; the words of the first three lists
// n ..         lengths of weights, predecessor starts, predecessors, successor starts, successors; their words; then the
//              questions, each a side (0 predecessors, else successors) and a task
//
// Numbers are decimal, up to 32 bits, each behind one blank. A line that is none of these is printed as unreadable.
#![tactic(auto)]

ghost use Rattle.std.specs.Prelude.{◌≤◌, ◌<◌, length};

use cases::show::{Left, List, Told};
use cases::{lines, read, show};
use std::io;
use std::io::Write;
use task::{Limits, Side, TaskId};

fn side_of(word: u32) -> Side {
    if word == 0 {
        Side::Predecessors
    } else {
        Side::Successors
    }
}

// The judging call's answer, and what the lookup hands back.
fn ask<'a, W: Write>(
    out: &mut W,
    weights: &[u32],
    pred_starts: &[u32],
    preds: &'a [u32],
    succ_starts: &[u32],
    succs: &'a [u32],
    side: u32,
    task: u32,
) -> io::Result<()> {
    let on = side_of(side);
    let named = TaskId::new(task);
    let answer = lookup::judge(weights, pred_starts, preds, succ_starts, succs, on, named);
    let found = lookup::neighbours(weights, pred_starts, preds, succ_starts, succs, on, named);
    write!(out, "{} : {}", Told(answer), List(found))
}

fn ask_all<'a, W: Write>(
    out: &mut W,
    weights: &[u32],
    pred_starts: &[u32],
    preds: &'a [u32],
    succ_starts: &[u32],
    succs: &'a [u32],
    asked: &[u32],
) -> io::Result<()> {
    for (i, pair) in asked.chunks_exact(2).enumerate() {
        if 0 < i {
            write!(out, " | ")?;
        }
        ask(
            out,
            weights,
            pred_starts,
            preds,
            succ_starts,
            succs,
            pair[0],
            pair[1],
        )?;
    }
    writeln!(out)
}

fn lookup_case<W: Write>(out: &mut W, case: &[u32]) -> io::Result<()> {
    if case.len() < 5 {
        return show::unreadable(out);
    }
    let a = 5 + read::length_at(case, 0);
    let b = a + read::length_at(case, 1);
    let c = b + read::length_at(case, 2);
    let d = c + read::length_at(case, 3);
    let e = d + read::length_at(case, 4);
    if case.len() < e || (case.len() - e) % 2 != 0 {
        return show::unreadable(out);
    }
    ask_all(
        out,
        &case[5..a],
        &case[a..b],
        &case[b..c],
        &case[c..d],
        &case[d..e],
        &case[e..],
    )
}

// Links with the lent lists, and prints the answer and what they hold then.
fn link_lent<W: Write>(
    out: &mut W,
    limits: Limits,
    weights: &[u32],
    starts: &[u32],
    preds: &[u32],
    succ_starts: &mut [u32],
    succs: &mut [u32],
    degrees: &mut [u32],
) -> io::Result<()> {
    show::put_marks(succ_starts);
    show::put_marks(succs);
    show::put_marks(degrees);
    let answer = link::link_graph(limits, weights, starts, preds, succ_starts, succs, degrees);
    write!(
        out,
        "{} | {} | {} | {}",
        Told(answer),
        Left(succ_starts),
        Left(succs),
        Left(degrees)
    )
}

// Lends lists of the lengths named.
fn lend<W: Write>(
    out: &mut W,
    limits: Limits,
    weights: &[u32],
    starts: &[u32],
    preds: &[u32],
    a: usize,
    b: usize,
    c: usize,
) -> io::Result<()>
    requires { (a ≤ 8200) × ((b ≤ 8200) × (c ≤ 8200)) }
{
    let mut succ_starts = [0u32; 8200];
    let mut succs = [0u32; 8200];
    let mut degrees = [0u32; 8200];
    link_lent(
        out,
        limits,
        weights,
        starts,
        preds,
        &mut succ_starts[..a],
        &mut succs[..b],
        &mut degrees[..c],
    )
}

// Checks and links a graph, with lent lists of the lengths named.
fn run_graph<W: Write>(
    out: &mut W,
    limits: Limits,
    weights: &[u32],
    starts: &[u32],
    preds: &[u32],
    a: usize,
    b: usize,
    c: usize,
) -> io::Result<()> {
    if 8200 < a.max(b).max(c) {
        return show::unreadable(out);
    }
    let mut order = [0u32; 1024];
    let check = graph_check::check_graph(limits, true, true, weights, starts, preds, &mut order);
    write!(out, "check {} | link ", Told(check.answer))?;
    lend(out, limits, weights, starts, preds, a, b, c)?;
    writeln!(out)
}

// The limits that a case names; the others are the engine's.
fn limits_of(case: &[u32]) -> Limits
    requires { 2 ≤ length case.now }
{
    Limits {
        tasks: read::length_at(case, 0),
        edges: read::length_at(case, 1),
        ..Limits::engine()
    }
}

fn graph_case<W: Write>(out: &mut W, case: &[u32]) -> io::Result<()> {
    if case.len() < 8 {
        return show::unreadable(out);
    }
    let a = 8 + read::length_at(case, 2);
    let b = a + read::length_at(case, 3);
    let c = b + read::length_at(case, 4);
    if case.len() != c {
        return show::unreadable(out);
    }
    let limits = limits_of(case);
    let succ_starts = read::length_at(case, 5);
    let succs = read::length_at(case, 6);
    let degrees = read::length_at(case, 7);
    run_graph(
        out,
        limits,
        &case[8..a],
        &case[a..b],
        &case[b..c],
        succ_starts,
        succs,
        degrees,
    )
}

fn run_line<W: Write>(out: &mut W, line: &[u8], words: &mut [u32]) -> io::Result<()> {
    if let [b'#', ..] = line {
        return show::note(out, line);
    }
    let Some(count) = read::numbers(line, words) else {
        return show::unreadable(out);
    };
    let case = &words[..count];
    match line {
        [b'g', ..] => graph_case(out, case),
        [b'n', ..] => lookup_case(out, case),
        _ => show::unreadable(out),
    }
}

fn run<W: Write>(out: &mut W, text: &[u8]) -> io::Result<()> {
    let mut words = [0u32; 24576];
    for line in text.split_inclusive(|byte| *byte == b'\n') {
        run_line(out, line.strip_suffix(b"\n").unwrap_or(line), &mut words)?;
    }
    Ok(())
}

fn main(rt: HostRuntime) -> io::Result<()> {
    let mut out = rt.stdout();
    let mut space = read::room();
    let count = lines::input(&mut rt.stdin(), &mut out, &mut space)?;
    run(&mut out, &space[..count])
}
