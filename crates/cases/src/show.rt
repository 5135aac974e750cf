// Printing answers and lists, and the words that a lent list holds before a call.
ghost use Rattle.std.specs.Prelude.{[], ◌∷◌, ◌++◌, OnOk};
ghost use Rattle.std.specs.Io.KnownBytes.{Appends};

use std::io::Write;
use std::{fmt, io};
use task::{Answer, RowCell};

// A line that is no case.
pub fn unreadable<W: Write>(out: &mut W) -> io::Result<()> {
    writeln!(out, "unreadable")
}

// A line as it stands.
pub fn note<W: Write>(out: &mut W, line: &[u8]) -> io::Result<()>
    ensures { OnOk result (Appends (W.contents out.old) (W.contents out.new) (line.now ++ 10 ∷ [])) }
{
    out.write_all(line)?;
    out.write_all(b"\n")
}

// The number and the detail; 0 and 0 where accepted.
#[derive(Clone, Copy)]
pub struct Told(pub Answer);

impl fmt::Display for Told {
    fn fmt<W: fmt::Write>(&self, f: &mut fmt::Formatter<W>) -> fmt::Result {
        match self.0 {
            Err(why) => write!(f, "{} {}", why.number(), why.detail()),
            Ok(()) => f.write_str("0 0"),
        }
    }
}

// What a lent list holds at a place before the call: no task, start or degree.
fn mark(place: usize) -> u32 {
    70000 + (place % 65536) as u32
}

pub fn put_marks(list: &mut [u32]) {
    for (i, word) in list.iter_mut().enumerate() {
        *word = mark(i);
    }
}

fn has_marks(list: &[u32]) -> bool {
    list.iter().enumerate().all(|(i, word)| *word == mark(i))
}

// One step of the hash: a polynomial modulo a prime below 2^32.
fn mixed(sum: u64, word: u32) -> u64 {
    ((sum % 4294967291) * 1000003 + word as u64 + 1) % 4294967291
}

pub fn hash(list: &[u32]) -> u64 {
    list.iter().copied().fold(0, mixed)
}

// A counter counts as a word: 2^31 more than it is.
pub fn hash_counters(counters: &[i32]) -> u64 {
    counters
        .iter()
        .map(|counter| counter.abs_diff(i32::MIN))
        .fold(0, mixed)
}

pub fn hash_rows(rows: &[RowCell]) -> u64 {
    hash(rows.as_flattened())
}

// Words, with a blank between two of them.
#[derive(Clone, Copy)]
pub struct Words<'a>(pub &'a [u32]);

impl fmt::Display for Words<'_> {
    fn fmt<W: fmt::Write>(&self, f: &mut fmt::Formatter<W>) -> fmt::Result {
        f.write_joined(self.0.iter(), " ")
    }
}

// The words of a short list; the length and the hash of a long one.
#[derive(Clone, Copy)]
pub struct List<'a>(pub &'a [u32]);

impl fmt::Display for List<'_> {
    fn fmt<W: fmt::Write>(&self, f: &mut fmt::Formatter<W>) -> fmt::Result {
        match self.0.len() {
            0 => f.write_str("-"),
            1..=16 => write!(f, "{}", Words(self.0)),
            count => write!(f, "{count} words {}", hash(self.0)),
        }
    }
}

// A lent list after the call.
#[derive(Clone, Copy)]
pub struct Left<'a>(pub &'a [u32]);

impl fmt::Display for Left<'_> {
    fn fmt<W: fmt::Write>(&self, f: &mut fmt::Formatter<W>) -> fmt::Result {
        if !self.0.is_empty() && has_marks(self.0) {
            f.write_str("kept")
        } else {
            write!(f, "{}", List(self.0))
        }
    }
}
