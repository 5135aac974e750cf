// The lines of the input: those of cases start with a letter, a note is printed as it stands, any other line as unreadable. An error is one
// that the reader or the writer gave; it leaves the lent lists as long as they were, with words that may have been read into them.
ghost use Rattle.std.specs.Prelude.{◌≡◌, ◌≤◌, ◌<◌, IfOk, IfSome, OnErr, length};
ghost use Rattle.std.specs.Io.{ReadsAtMost};

use crate::{read, show};
use std::io;
use std::io::{Read, Write};

// The text of a case, from one place to another.
#[derive(Clone, Copy)]
pub struct Text {
    pub from: usize,
    pub end: usize,
}

// The text behind the line of its case, unless the line is no such case; and where the next line starts.
#[derive(Clone, Copy)]
pub struct Case {
    pub text: Option<Text>,
    pub next: usize,
}

// How much of the room the reader fills: nothing where there may be more of it than room.
pub fn input<R: Read, W: Write>(from: &mut R, out: &mut W, space: &mut [u8]) -> io::Result<usize>
    ensures ok { ReadsAtMost result space.new }
    ensures err { OnErr result (length space.new ≡ length space.old) }
{
    let count = read::full(from, space)?;
    if count == space.len() {
        writeln!(out, "the input is too long")?;
        return Ok(0);
    }
    Ok(count)
}

// How many numbers a case's line has; none where the line is a note or no such case, which is told.
pub fn numbers_of<W: Write>(
    out: &mut W,
    line: &[u8],
    letter: u8,
    words: &mut [u32],
) -> io::Result<Option<usize>>
    ensures ok { IfOk result (λ numbers. IfSome numbers (λ count. count ≤ length words.new)) }
    ensures err { OnErr result (length words.new ≡ length words.old) }
{
    if let [b'#', ..] = line {
        show::note(out, line)?;
        return Ok(None);
    }
    let numbers = if line.first() == Some(&letter) {
        read::numbers(line, words)
    } else {
        None
    };
    if numbers.is_none() {
        show::unreadable(out)?;
    }
    Ok(numbers)
}

fn unreadable<W: Write>(out: &mut W, next: usize) -> io::Result<Case>
    ensures { IfOk result (λ case. (case.text ≡ None) × (case.next ≡ next)) }
{
    show::unreadable(out)?;
    Ok(Case { text: None, next })
}

// The case at a place: a line of so many numbers, the first of them the length of the text behind it, and a line feed behind that.
pub fn text_at<W: Write>(
    out: &mut W,
    input: &[u8],
    at: usize,
    wanted: usize,
    words: &mut [u32],
) -> io::Result<Case>
    requires { (at < length input.now) × (0 < length words.old) }
    ensures ok { IfOk result (λ case. (at < case.next) × IfSome case.text (λ text. (text.from ≤ text.end) × (text.end ≤ length input.now))) }
    ensures err { OnErr result (length words.new ≡ length words.old) }
{
    let end = read::line_end(input, at);
    if end == input.len() {
        return unreadable(out, end);
    }
    let from = end + 1;
    let Some(count) = numbers_of(out, &input[at..end], b't', words)? else {
        return Ok(Case {
            text: None,
            next: from,
        });
    };
    let size = read::length_at(words, 0);
    if count != wanted || input.len() - from < size {
        return unreadable(out, from);
    }
    let end = from + size;
    Ok(Case {
        text: Some(Text { from, end }),
        next: end + 1,
    })
}
