// The writer: a graph as a task text. It measures the text first, so that a buffer too small keeps its bytes.
#![tactic(auto)]

ghost use Rattle.std.specs.Prelude.{◌≡◌, ◌∷◌, ℕ, ◌+◌, ◌-◌, ◌≤◌, ◌<◌, length, get_or};
ghost use Rattle.lists.specs.Sums.{sum_to, sum_of};
ghost use Rattle.graph.specs.Graph.{graph_of};
ghost use Rattle.graph.specs.Conditions.{Sound};
ghost use Rattle.layout.specs.Marks.{space};
ghost use Rattle.layout.specs.Digits.{digits_of};
ghost use Rattle.layout.specs.Tasks.{task, tables};
ghost use Rattle.layout.specs.Layout.{task_row, task_rows};
ghost use Rattle.layout.specs.Plain.{spaced, line_text, rows_text, tasks_of, text_of, line_size, pred_size};
ghost use Rattle.layout.specs.Writer.{dummies_fit, saved_as, write_text};
ghost use Rattle.text_put.specs.Appending.{Appends};

use task::{Limits, Refusal, WriteAnswer};

fn dummies_fit(weights: &[u32], starts: &[u32]) -> bool
    requires { length starts.now ≡ length weights.now + 1 }
    ensures { result ≡ dummies_fit weights.now starts.now }
{
    let n = weights.len();
    if n < 2 {
        return false;
    }
    (weights[0] == 0) & ((starts[1] == 0) & (weights[n - 1] == 0))
}

// The bytes of all lines but the predecessors.
fn lines_size(weights: &[u32], starts: &[u32]) -> usize
    requires { (length weights.now ≤ 1024)
        × (length starts.now ≡ length weights.now + 1)
        × ((t : ℕ) → t < length weights.now → get_or starts.now t 0 ≤ get_or starts.now (t + 1) 0) }
    ensures { result ≡ sum_to (length weights.now) (line_size weights.now starts.now) }
{
    let mut size = 0;
    for t in 0..weights.len() {
        let count = starts[t + 1] - starts[t];
        size += text_put::width(t as u32)
            + text_put::width(weights[t])
            + text_put::width(count)
            + 3;
    }
    size
}

fn preds_size(preds: &[u32]) -> usize
    requires { length preds.now ≤ 8192 }
    ensures { result ≡ sum_of pred_size preds.now }
{
    preds.iter().map(|&pred| text_put::width(pred) + 1).sum()
}

fn text_size(weights: &[u32], starts: &[u32], preds: &[u32]) -> usize
    requires { Sound (graph_of (length weights.now) starts.now preds.now)
        × (2 ≤ length weights.now) }
    ensures { result ≡ length (text_of (tables weights.now starts.now preds.now)) }
{
    let lines = lines_size(weights, starts);
    text_put::width((weights.len() - 2) as u32) + 1 + lines + preds_size(preds)
}

// A space and a number.
fn put_next(out: &mut [u8], at: usize, number: u32) -> usize
    requires { at + length (space ∷ digits_of number) ≤ length out.old }
    ensures { Appends at (space ∷ digits_of number) out.old out.new result }
{
    let next = text_put::put_byte(out, at, b' ');
    text_put::put_number(out, next, number)
}

fn put_spaced(out: &mut [u8], at: usize, numbers: &[u32]) -> usize
    requires { at + length (spaced numbers.now) ≤ length out.old }
    ensures { Appends at (spaced numbers.now) out.old out.new result }
{
    let mut end = at;
    for &number in numbers {
        end = put_next(out, end, number);
    }
    end
}

// "number, time, count of predecessors, that many predecessors"
fn put_task(out: &mut [u8], at: usize, t: usize, time: u32, preds: &[u32]) -> usize
    requires { (at + length (line_text (task_row t (task time preds.now))) ≤ length out.old)
        × (t ≤ 1024)
        × (length preds.now ≤ 8192) }
    ensures { Appends at (line_text (task_row t (task time preds.now))) out.old out.new result }
{
    let numbered = text_put::put_number(out, at, t as u32);
    let timed = put_next(out, numbered, time);
    let counted = put_next(out, timed, preds.len() as u32);
    let ended = put_spaced(out, counted, preds);
    text_put::put_byte(out, ended, b'\n')
}

// The lines of all tasks, "task numbers .. rising".
fn put_tasks(out: &mut [u8], at: usize, weights: &[u32], starts: &[u32], preds: &[u32]) -> usize
    requires { Sound (graph_of (length weights.now) starts.now preds.now)
        × (at + length (rows_text (task_rows 0 (tasks_of (tables weights.now starts.now preds.now)))) ≤ length out.old) }
    ensures { Appends at (rows_text (task_rows 0 (tasks_of (tables weights.now starts.now preds.now))))
        out.old out.new result }
{
    let mut end = at;
    for t in 0..weights.len() {
        let from = starts[t] as usize;
        let to = starts[t + 1] as usize;
        end = put_task(out, end, t, weights[t], &preds[from..to]);
    }
    end
}

// The whole text, into a buffer with room for it.
fn put_text(out: &mut [u8], weights: &[u32], starts: &[u32], preds: &[u32]) -> usize
    requires { Sound (graph_of (length weights.now) starts.now preds.now)
        × (2 ≤ length weights.now)
        × (length (text_of (tables weights.now starts.now preds.now)) ≤ length out.old) }
    ensures { Appends 0 (text_of (tables weights.now starts.now preds.now)) out.old out.new result }
{
    let numbered = text_put::put_number(out, 0, (weights.len() - 2) as u32);
    let next = text_put::put_byte(out, numbered, b'\n');
    put_tasks(out, next, weights, starts, preds)
}

// Writes the graph as a task text. "The writer is lent a byte buffer and says how many bytes it used; bytes beyond stay."
pub fn write(weights: &[u32], starts: &[u32], preds: &[u32], text: &mut [u8]) -> WriteAnswer
    ensures { saved_as result text.new
        ≡ write_text weights.now starts.now preds.now text.old }
{
    let mut order = [0u32; 1024];
    let limits = Limits::ENGINE;
    let check = graph_check::check_graph(limits, true, true, weights, starts, preds, &mut order);
    check.answer?;
    if !dummies_fit(weights, starts) {
        return Err(Refusal::NoDummies);
    }
    if text.len() < text_size(weights, starts, preds) {
        return Err(Refusal::WrongLength);
    }
    let used = put_text(text, weights, starts, preds);
    Ok(used as u32)
}
