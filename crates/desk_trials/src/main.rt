// Answers the texts of standard input as the desk program does, one after the other. The file stdout has what the model in
// Rust answers.
//
// # ..         a note, printed as it stands
// t L          a text: its L bytes stand behind the line, and a line feed behind them
//
// Numbers are decimal, up to 32 bits, each behind one blank. A line that is none of these is printed as unreadable.
#![tactic(auto)]

use cases::{lines, read};
use std::io;
use std::io::Write;

// All that the desk program prints for a text.
fn respond<W: Write>(out: &mut W, text: &[u8]) -> io::Result<()> {
    let mut printed = [0u8; 32768];
    let end = response::respond(text, &mut printed);
    out.write_all(&printed[..end.min(32768)])
}

fn run<W: Write>(out: &mut W, input: &[u8]) -> io::Result<()> {
    let mut words = [0u32; 8];
    let mut at = 0;
    // kept: a case says itself where the next one starts
    while at < input.len() {
        let case = lines::text_at(out, input, at, 1, &mut words)?;
        if let Some(text) = case.text {
            respond(out, &input[text.from..text.end])?;
        }
        at = case.next;
    }
    Ok(())
}

fn main(rt: HostRuntime) -> io::Result<()> {
    let mut out = rt.stdout();
    let mut space = read::room();
    let count = lines::input(&mut rt.stdin(), &mut out, &mut space)?;
    run(&mut out, &space[..count])
}
