// Reading the input, and lines of decimal numbers.
ghost use Rattle.std.specs.Prelude.{◌≡◌, ◌≤◌, ◌<◌, IfSome, OnErr, length};
ghost use Rattle.std.specs.Io.{ReadsAtMost};

use std::io;
use std::io::Read;

// The number that digits spell, where there are any and it needs no more than 32 bits.
fn number(digits: &[u8]) -> Option<u32> {
    if digits.is_empty() {
        return None;
    }
    let mut value = 0u32;
    for digit in digits {
        let digit = char::from(*digit).to_digit(10)?;
        value = value.checked_mul(10)?.checked_add(digit)?;
    }
    Some(value)
}

// Numbers with one blank between two of them; how many.
fn spaced(list: &[u8], words: &mut [u32]) -> Option<usize>
    ensures { IfSome result (λ count. count ≤ length words.new) }
{
    let mut count = 0;
    for digits in list.split(|byte| *byte == b' ') {
        *words.get_mut(count)? = number(digits)?;
        count += 1;
    }
    Some(count)
}

// The numbers after the first byte of a line, each behind one blank; how many, unless something else stands there or they are too many.
pub fn numbers(line: &[u8], words: &mut [u32]) -> Option<usize>
    ensures { IfSome result (λ count. count ≤ length words.new) }
{
    match line {
        [] | [_] => Some(0),
        [_, b' ', list @ ..] => spaced(list, words),
        _ => None,
    }
}

// Where the line that holds a place ends: its line feed, or the end of the text.
pub fn line_end(text: &[u8], from: usize) -> usize
    requires { from ≤ length text.now }
    ensures { (from ≤ result) × (result ≤ length text.now) }
{
    let rest = &text[from..];
    let place = rest.iter().position(|byte| *byte == b'\n');
    from + place.unwrap_or(rest.len())
}

// A word of a case that is a length or a limit.
pub fn length_at(case: &[u32], place: usize) -> usize
    requires { place < length case.now }
    ensures { result ≤ 4294967295 }
{
    case[place] as usize
}

// Reads until the room is full or the reader is at its end; how many bytes stand at the room's start then.
pub fn full<R: Read>(from: &mut R, space: &mut [u8]) -> io::Result<usize>
    ensures ok { ReadsAtMost result space.new }
    ensures err { OnErr result (length space.new ≡ length space.old) }
{
    let mut done = 0;
    // kept: std has no call that fills a slice as far as the input goes
    while done < space.len() {
        let count = from.read(&mut space[done..])?;
        if count == 0 {
            break;
        }
        done += count;
    }
    Ok(done)
}

// Room for the whole input.
pub fn room() -> [u8; 786432]
    ensures { 786432 ≡ length result }
{
    [0; 786432]
}
