// Runs the reader on the texts of standard input, and prints a line for each: what it answers and what the lent lists hold
// then. The file stdout has what the model in Rust answers.
//
// # ..         a note, printed as it stands
// t L W S P    a text: its L bytes stand behind the line, and a line feed behind them; lengths of the lent weights,
//              predecessor starts and predecessors
//
// Numbers are decimal, up to 32 bits, each behind one blank. A line that is none of these is printed as unreadable.
#![tactic(auto)]

ghost use Rattle.std.specs.Prelude.{◌<◌, length};

use cases::show::Left;
use cases::{lines, read, show};
use std::io::Write;
use std::{fmt, io};
use task::ReadAnswer;

// The number and the detail, then N and E; 0 and 0 where there are none.
#[derive(Clone, Copy)]
struct Told(ReadAnswer);

impl fmt::Display for Told {
    fn fmt<W: fmt::Write>(&self, f: &mut fmt::Formatter<W>) -> fmt::Result {
        match self.0 {
            Err(why) => write!(f, "{} {} 0 0", why.number(), why.detail()),
            Ok((n, e)) => write!(f, "0 0 {n} {e}"),
        }
    }
}

// Reads a text into the lent lists, and prints the answer and what they hold then.
fn read_lent<W: Write>(
    out: &mut W,
    text: &[u8],
    weights: &mut [u32],
    starts: &mut [u32],
    preds: &mut [u32],
) -> io::Result<()> {
    show::put_marks(weights);
    show::put_marks(starts);
    show::put_marks(preds);
    let read = stg::read(text, weights, starts, preds);
    writeln!(
        out,
        "read {} : {} | {} | {}",
        Told(read),
        Left(weights),
        Left(starts),
        Left(preds)
    )
}

// Lends lists of the lengths named behind the text's own.
fn lend<W: Write>(out: &mut W, text: &[u8], numbers: &[u32]) -> io::Result<()>
    requires { 3 < length numbers.now }
{
    let a = read::length_at(numbers, 1);
    let b = read::length_at(numbers, 2);
    let c = read::length_at(numbers, 3);
    if 8200 < a.max(b).max(c) {
        return show::unreadable(out);
    }
    let mut weights = [0u32; 8200];
    let mut starts = [0u32; 8200];
    let mut preds = [0u32; 8200];
    read_lent(
        out,
        text,
        &mut weights[..a],
        &mut starts[..b],
        &mut preds[..c],
    )
}

fn run<W: Write>(out: &mut W, input: &[u8]) -> io::Result<()> {
    let mut words = [0u32; 8];
    let mut at = 0;
    // kept: a case says itself where the next one starts
    while at < input.len() {
        let case = lines::text_at(out, input, at, 4, &mut words)?;
        if let Some(text) = case.text {
            lend(out, &input[text.from..text.end], &words)?;
        }
        at = case.next;
    }
    Ok(())
}

fn main(rt: HostRuntime) -> io::Result<()> {
    let mut out = rt.stdout();
    let mut space = read::room();
    let count = lines::input(&mut rt.stdin(), &mut out, &mut space)?;
    run(&mut out, &space[..count])
}
