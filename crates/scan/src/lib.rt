// The pieces of a task text at a place: blanks, the end of a line, a number. Each looks at the line that stands there and at no
// other.
#![tactic(auto)]

ghost use Rattle.std.specs.Prelude.{◌≡◌, ◌≤◌, length};
ghost use Rattle.layout.specs.Reader.{skippable, parted};
ghost use Rattle.layout.specs.Scan.{line_at, Marked, Trimmed, NextLine};
ghost use Rattle.scan.specs.Pieces.{LineEnds, LineCloses, NumberFound};

// A number of the line and the place after it.
#[derive(Clone, Copy)]
pub struct Number {
    pub value: u32,
    pub next: usize,
}

// The first place from here on that is no space and no tab.
pub fn past_blanks(text: &[u8], at: usize) -> usize
    requires { at ≤ length text.now }
    ensures { Trimmed text.now at result }
{
    // kept: with `for p in at..text.len()`, here and in past_line, a read takes 20 % more instructions
    let mut p = at;
    while p < text.len() {
        let b = text[p];
        if (b != 32) & (b != 9) {
            return p;
        }
        p += 1;
    }
    p
}

// The place after the line's LF, or the text's end.
pub fn past_line(text: &[u8], at: usize) -> usize
    requires { at ≤ length text.now }
    ensures { NextLine text.now at result }
{
    // kept: as in past_blanks
    let mut p = at;
    while p < text.len() {
        if text[p] == 10 {
            return p + 1;
        }
        p += 1;
    }
    p
}

// The place after the line's end, where that stands at this place: LF, CR LF or the text's end.
pub fn line_end(text: &[u8], at: usize) -> Option<usize>
    requires { at ≤ length text.now }
    ensures { LineEnds text.now at result }
{
    let left = text.len() - at;
    if left == 0 {
        return Some(at);
    }
    let b = text[at];
    if b == 10 {
        return Some(at + 1);
    }
    if (b != 13) | (left == 1) {
        return None;
    }
    if text[at + 1] != 10 {
        return None;
    }
    Some(at + 2)
}

// The place after the line's end, where that stands after blanks.
pub fn close(text: &[u8], at: usize) -> Option<usize>
    requires { at ≤ length text.now }
    ensures { LineCloses text.now at result }
{
    let p = past_blanks(text, at);
    line_end(text, p)
}

// Nothing more of the line is left here, or a comment.
pub fn skippable(text: &[u8], at: usize) -> bool
    requires { at ≤ length text.now }
    ensures { result ≡ skippable (line_at text.now at) }
{
    line_end(text, at).is_some() || text[at] == 35
}

// Nothing more of the line is left here, or a blank.
fn parts(text: &[u8], at: usize) -> bool
    requires { at ≤ length text.now }
    ensures { result ≡ parted (line_at text.now at) }
{
    if at == text.len() {
        return true;
    }
    let b = text[at];
    if (b == 32) | (b == 9) {
        return true;
    }
    line_end(text, at).is_some()
}

// The number whose digits start here.
fn digits_at(text: &[u8], at: usize) -> Option<Number>
    requires { (at ≤ length text.now) × Marked (line_at text.now at) }
    ensures { NumberFound text.now at result }
{
    let left = text.len() - at;
    let end = at + left.min(5);
    let mut v = 0u32;
    // kept: the place where the digits end is asked for after the loop
    let mut p = at;
    while p < end {
        let d = text[p];
        if (d < 48) | (57 < d) {
            break;
        }
        v = v * 10 + (d as u32 - 48);
        p += 1;
    }
    if (p == at) | (65535 < v) {
        return None;
    }
    if !parts(text, p) {
        return None;
    }
    Some(Number { value: v, next: p })
}

// The line's next number, after blanks.
pub fn next_number(text: &[u8], at: usize) -> Option<Number>
    requires { at ≤ length text.now }
    ensures { NumberFound text.now at result }
{
    let p = past_blanks(text, at);
    digits_at(text, p)
}
