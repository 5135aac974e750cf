// Makes the engine's calls on the cases of standard input, a line each, and prints what they answer and leave. The file
// stdout has what the model in Rust answers.
//
// # ..         a note, printed as it stands
// r ..         a word; the lengths of the thirteen lent lists, in the order of the calls; the words of the first three of
//              them, while the others hold the word everywhere; then commands (scripts/src/script.rt)
//
// Numbers are decimal, up to 32 bits, each behind one blank. A line that is none of these is printed as unreadable.
#![tactic(auto)]

ghost use Rattle.std.specs.Prelude.{◌≤◌};

use cases::{lines, read, show};
use scripts::script::At;
use std::io;
use std::io::Write;
use task::{ROW_WORDS, RowCell, WorkerId};

// A script is cut off behind so many calls.
const MOST_CALLS: u32 = 4194304;

// Makes the calls of a script.
fn run_script<W: Write>(
    out: &mut W,
    script: &[u32],
    weights: &[u32],
    pred_starts: &[u32],
    preds: &[u32],
    succ_starts: &mut [u32],
    succs: &mut [u32],
    degrees: &mut [u32],
    rings: &mut [u32],
    ends: &mut [u32],
    counters: &mut [i32],
    buffers: &mut [u32],
    executed: &mut [u32],
    run: &mut [u32],
    rows: &mut [RowCell],
) -> io::Result<()> {
    let Some(mut at) = At::start(script) else {
        return Ok(());
    };
    for _ in 0..MOST_CALLS {
        let accepted = calls::make(
            out,
            at.command,
            at.call(),
            WorkerId::new(at.worker),
            weights,
            pred_starts,
            preds,
            succ_starts,
            succs,
            degrees,
            rings,
            ends,
            counters,
            buffers,
            executed,
            run,
            rows,
        )?;
        if !at.after(accepted) {
            break;
        }
    }
    Ok(())
}

// A length of a case, up to the room that there is.
fn capped(case: &[u32], place: usize, room: usize) -> usize
    ensures { result ≤ room }
{
    if case.len() <= place {
        return 0;
    }
    read::length_at(case, place).min(room)
}

// The word that the lists hold before the first call; small enough to be a counter.
fn fill_of(case: &[u32]) -> u32
    ensures { result ≤ 2147483647 }
{
    match case {
        [fill, ..] if *fill <= 2147483647 => *fill,
        _ => 0,
    }
}

// Lends lists of the lengths that the case names.
fn lend<W: Write>(
    out: &mut W,
    case: &[u32],
    weights: &[u32],
    pred_starts: &[u32],
    preds: &[u32],
    script: &[u32],
) -> io::Result<()> {
    let fill = fill_of(case);
    let signed = fill as i32;
    let row = [fill; ROW_WORDS];
    let mut succ_starts = [fill; 1032];
    let mut succs = [fill; 8200];
    let mut degrees = [fill; 1032];
    let mut rings = [fill; 16400];
    let mut ends = [fill; 776];
    let mut counters = [signed; 260];
    let mut buffers = [fill; 16400];
    let mut executed = [fill; 2056];
    let mut run = [fill; 8];
    let mut rows = [row; 20];
    run_script(
        out,
        script,
        weights,
        pred_starts,
        preds,
        &mut succ_starts[..capped(case, 4, 1032)],
        &mut succs[..capped(case, 5, 8200)],
        &mut degrees[..capped(case, 6, 1032)],
        &mut rings[..capped(case, 7, 16400)],
        &mut ends[..capped(case, 8, 776)],
        &mut counters[..capped(case, 9, 260)],
        &mut buffers[..capped(case, 10, 16400)],
        &mut executed[..capped(case, 11, 2056)],
        &mut run[..capped(case, 12, 8)],
        &mut rows[..capped(case, 13, 20)],
    )
}

fn run_case<W: Write>(out: &mut W, case: &[u32]) -> io::Result<()> {
    if case.len() < 14 {
        return show::unreadable(out);
    }
    let a = 14 + read::length_at(case, 1);
    let b = a + read::length_at(case, 2);
    let c = b + read::length_at(case, 3);
    if case.len() < c || (case.len() - c) % 6 != 0 {
        return show::unreadable(out);
    }
    lend(
        out,
        case,
        &case[14..a],
        &case[a..b],
        &case[b..c],
        &case[c..],
    )
}

fn run_line<W: Write>(out: &mut W, line: &[u8], words: &mut [u32]) -> io::Result<()> {
    if let Some(count) = lines::numbers_of(out, line, b'r', words)? {
        run_case(out, &words[..count])?;
    }
    Ok(())
}

fn run_lines<W: Write>(out: &mut W, text: &[u8]) -> io::Result<()> {
    let mut words = [0u32; 24576];
    for line in text.split_inclusive(|byte| *byte == b'\n') {
        run_line(out, line.strip_suffix(b"\n").unwrap_or(line), &mut words)?;
    }
    Ok(())
}

fn main(rt: HostRuntime) -> io::Result<()> {
    let mut out = rt.stdout();
    let mut space = read::room();
    let count = lines::input(&mut rt.stdin(), &mut out, &mut space)?;
    run_lines(&mut out, &space[..count])
}
