// The reader of task texts. The text is judged line by line into scratch lists; only an accepted text reaches the lent ones.
#![tactic(auto)]

ghost use Rattle.std.specs.Prelude.{◌≡◌, [], ◌≤◌, ◌<◌, ◌^◌, length, drop, Err};
ghost use Rattle.task.specs.declared.refusal.Refusal.TheVariants.{BeyondLimit, BrokenLayout};
ghost use Rattle.layout.specs.Reader.{verdict, read_as, read_text};
ghost use Rattle.layout.specs.Scan.{due_from, Outcome};
ghost use Rattle.stg.specs.Reading.{Room, Reading, refused_line};

use task::{ReadAnswer, Refusal};
use text_lines::TaskError;

fn broken(line: usize) -> ReadAnswer
    requires { line < 2 ^ 32 }
    ensures { result ≡ Err (BrokenLayout line) }
{
    Err(Refusal::BrokenLayout(line as u32))
}

fn over() -> ReadAnswer
    ensures { result ≡ Err BeyondLimit }
{
    Err(Refusal::BeyondLimit)
}

// Reads the lines of n tasks and what follows them.
fn read_tasks(
    text: &[u8],
    at_first: usize,
    line_first: usize,
    n: usize,
    weights: &mut [u32],
    starts: &mut [u32],
    preds: &mut [u32],
) -> ReadAnswer
    requires { Reading text.now at_first line_first n weights.old starts.old preds.old }
    ensures { Outcome (due_from (drop at_first text.now) line_first n []) result weights.new starts.new
        preds.new }
{
    let mut at = at_first;
    let mut line = line_first;
    let mut e = 0;
    for t in 0..n {
        let content = text_lines::next_content(text, at, line);
        let Some(place) = content.place else {
            return broken(content.line);
        };
        let last = t + 1 == n;
        match text_lines::task_line(text, place, t, last, e, weights, starts, preds) {
            Ok(read) => {
                at = read.next;
                line = content.line + 1;
                e = read.edges;
            }
            Err(error) => return refused_line(error, content.line),
        }
    }
    let content = text_lines::next_content(text, at, line);
    if content.place.is_some() {
        return broken(content.line);
    }
    Ok((n as u32, e as u32))
}

// The refusal of a task line that was not read.
fn refused_line(error: TaskError, line: usize) -> ReadAnswer
    requires { line < 2 ^ 32 }
    ensures { result ≡ refused_line error line }
{
    match error {
        TaskError::Over => over(),
        TaskError::Broken => broken(line),
    }
}

// Judges the text line by line, and reads it into the lists.
fn judge(text: &[u8], weights: &mut [u32], starts: &mut [u32], preds: &mut [u32]) -> ReadAnswer
    requires { (length text.now ≤ 65536) × Room weights.old starts.old preds.old }
    ensures { Outcome (verdict text.now) result weights.new starts.new preds.new }
{
    let content = text_lines::next_content(text, 0, 1);
    let Some(place) = content.place else {
        return broken(content.line);
    };
    let Some(first) = text_lines::first_line(text, place) else {
        return broken(content.line);
    };
    if 1024 < first.tasks {
        return over();
    }
    read_tasks(
        text,
        first.next,
        content.line + 1,
        first.tasks,
        weights,
        starts,
        preds,
    )
}

// Reads a task text into weights, predecessor starts and predecessors: N and E, or refused 1, 2 or 13.
pub fn read(text: &[u8], weights: &mut [u32], starts: &mut [u32], preds: &mut [u32]) -> ReadAnswer
    ensures { read_as result weights.new starts.new preds.new
        ≡ read_text text.now weights.old starts.old preds.old }
{
    let fit = (weights.len() == 1024) & ((starts.len() == 1025) & (preds.len() == 8192));
    if !fit {
        return Err(Refusal::WrongLength);
    }
    if 65536 < text.len() {
        return over();
    }
    let mut w = [0u32; 1024];
    let mut s = [0u32; 1025];
    let mut p = [0u32; 8193];
    let answer = judge(text, &mut w, &mut s, &mut p);
    let Ok((tasks, edges)) = answer else {
        return answer;
    };
    let n = tasks as usize;
    let e = edges as usize;
    weights[..n].copy_from_slice(&w[..n]);
    starts[..n + 1].copy_from_slice(&s[..n + 1]);
    preds[..e].copy_from_slice(&p[..e]);
    answer
}
