// The lines of a task text: the next one that is not skipped, the first one's n, a task's line.
#![tactic(auto)]

ghost use Rattle.std.specs.Prelude.{◌≡◌, suc, ◌≤◌, ◌<◌, length};
ghost use Rattle.text_lines.specs.TaskLines.{ContentFound, NumbersFound, HeadFound, TaskFound, FirstFound};

// The next line that is not skipped: the place of its first mark, and its number; where there is none, the number after the last.
#[derive(Clone, Copy)]
pub struct Content {
    pub place: Option<usize>,
    pub line: usize,
}

pub fn next_content(text: &[u8], at: usize, line: usize) -> Content
    requires { (at ≤ length text.now) × ((length text.now ≤ 65536) × (line ≤ suc at)) }
    ensures { ContentFound text.now at line result.place result.line }
{
    let mut p = at;
    let mut l = line;
    while p < text.len() {
        let mark = scan::past_blanks(text, p);
        if !scan::skippable(text, mark) {
            return Content {
                place: Some(mark),
                line: l,
            };
        }
        p = scan::past_line(text, mark);
        l += 1;
    }
    Content {
        place: None,
        line: l,
    }
}

// Reads count numbers of the line into the words from e on, and gives the place after them; none where the line has fewer. What has
// no room goes into the last word.
fn fill_numbers(text: &[u8], at: usize, count: usize, e: usize, words: &mut [u32]) -> Option<usize>
    requires { (at ≤ length text.now) × ((count ≤ 65535) × ((e ≤ 8192) × (length words.old ≡ 8193))) }
    ensures { NumbersFound text.now at count e words.old words.new result }
{
    let mut p = at;
    for k in e..e + count {
        let found = scan::next_number(text, p)?;
        let place = k.min(8192);
        words[place] = found.value;
        p = found.next;
    }
    Some(p)
}

// A task line's time and count of predecessors, and the place after them.
#[derive(Clone, Copy)]
struct Head {
    time: u32,
    count: u32,
    next: usize,
}

// The first three numbers of task t's line.
fn task_head(text: &[u8], at: usize, t: usize, last: bool) -> Option<Head>
    requires { (at ≤ length text.now) × (t < 1024) }
    ensures { HeadFound text.now at t last result }
{
    let number = scan::next_number(text, at)?;
    if number.value as usize != t {
        return None;
    }
    let time = scan::next_number(text, number.next)?;
    if (time.value != 0) & ((t == 0) | last) {
        return None;
    }
    let count = scan::next_number(text, time.next)?;
    if (count.value != 0) & (t == 0) {
        return None;
    }
    Some(Head {
        time: time.value,
        count: count.value,
        next: count.next,
    })
}

// What keeps a task line from being read: it breaks the layout, or there are too many edges.
#[derive(Clone, Copy, Debug, PartialEq, Eq)]
pub enum TaskError {
    Broken,
    Over,
}

// A task line as read: the place of the next line, and the edges up to here.
#[derive(Clone, Copy)]
pub struct TaskLine {
    pub next: usize,
    pub edges: usize,
}

// Reads task t's line after e edges.
pub fn task_line(
    text: &[u8],
    at: usize,
    t: usize,
    last: bool,
    e: usize,
    weights: &mut [u32],
    starts: &mut [u32],
    preds: &mut [u32],
) -> Result<TaskLine, TaskError>
    requires { (at ≤ length text.now) × ((t < 1024) × ((e ≤ 8192) × ((length weights.old ≡ 1024)
        × ((length starts.old ≡ 1025) × (length preds.old ≡ 8193))))) }
    ensures { TaskFound text.now at t last e result weights.old starts.old preds.old
        weights.new starts.new preds.new }
{
    let head = task_head(text, at, t, last).ok_or(TaskError::Broken)?;
    let count = head.count as usize;
    let place = fill_numbers(text, head.next, count, e, preds).ok_or(TaskError::Broken)?;
    let next = scan::close(text, place).ok_or(TaskError::Broken)?;
    if 8192 < e + count {
        return Err(TaskError::Over);
    }
    weights[t] = head.time;
    starts[t + 1] = (e + count) as u32;
    Ok(TaskLine {
        next,
        edges: e + count,
    })
}

// The first line that is not skipped: how many tasks follow, and the place of the next line.
#[derive(Clone, Copy)]
pub struct First {
    pub tasks: usize,
    pub next: usize,
}

pub fn first_line(text: &[u8], at: usize) -> Option<First>
    requires { at ≤ length text.now }
    ensures { FirstFound text.now at result }
{
    let n = scan::next_number(text, at)?;
    let next = scan::close(text, n.next)?;
    Some(First {
        tasks: n.value as usize + 2,
        next,
    })
}
