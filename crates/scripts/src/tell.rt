// Printing answers and lists.
use crate::script::Command;
use cases::show;
use cases::show::{List, Words};
use std::io::Write;
use std::{fmt, io};
use task::{Answer, ReleaseOutcome, RowCell, Step, StepAnswer, StepOutcome, WorkerId};

// Begin's number and detail; whether it is accepted.
pub fn begun<W: Write>(out: &mut W, answer: Answer) -> io::Result<bool> {
    writeln!(out, "begin {}", show::Told(answer))?;
    Ok(answer.is_ok())
}

// A step's letter behind the blank.
fn letter(step: Step) -> &'static str {
    match step {
        Step::Fetch => " f",
        Step::Start => " s",
        Step::Complete => " c",
        Step::Release => " r",
    }
}

#[derive(Clone, Copy)]
struct Released(ReleaseOutcome);

impl fmt::Display for Released {
    fn fmt<W: fmt::Write>(&self, f: &mut fmt::Formatter<W>) -> fmt::Result {
        match self.0 {
            ReleaseOutcome::DegreeLeft(degree) => write!(f, " left {degree}"),
            ReleaseOutcome::Placed(task, owner) => write!(f, " {} to {}", task.0, owner.0),
        }
    }
}

#[derive(Clone, Copy)]
struct Outcome(StepOutcome);

impl fmt::Display for Outcome {
    fn fmt<W: fmt::Write>(&self, f: &mut fmt::Formatter<W>) -> fmt::Result {
        match self.0 {
            StepOutcome::Moved => Ok(()),
            StepOutcome::Fetched(task) => write!(f, " {}", task.0),
            StepOutcome::Released(release) => write!(f, "{}", Released(release)),
        }
    }
}

// What a step answers, behind its letter.
#[derive(Clone, Copy)]
struct Told(StepAnswer);

impl fmt::Display for Told {
    fn fmt<W: fmt::Write>(&self, f: &mut fmt::Formatter<W>) -> fmt::Result {
        match self.0 {
            Err(why) => write!(f, " refused {} {}", why.number(), why.detail()),
            Ok(done) => write!(f, "{}", Outcome(done)),
        }
    }
}

// Prints a step's answer where the command asks for it; whether it is accepted.
pub fn answered<W: Write>(
    out: &mut W,
    command: Command,
    worker: WorkerId,
    step: Step,
    answer: StepAnswer,
) -> io::Result<bool> {
    let accepted = answer.is_ok();
    if command.prints(accepted) {
        writeln!(out, "{}{}{}", worker.0, letter(step), Told(answer))?;
    }
    Ok(accepted)
}

// The words of a short record, the length and the hash of a long one.
fn record<W: Write>(out: &mut W, list: &[u32]) -> io::Result<()> {
    if list.len() <= 128 {
        writeln!(out, "{}", Words(list))
    } else {
        writeln!(out, "{}", List(list))
    }
}

fn hashes<W: Write>(out: &mut W, lists: &[&[u32]]) -> io::Result<()> {
    for list in lists {
        write!(out, " {}", show::hash(list))?;
    }
    Ok(())
}

// N, the run words, the record, and the hash of each list.
pub fn lists<W: Write>(
    out: &mut W,
    weights: &[u32],
    pred_starts: &[u32],
    preds: &[u32],
    succ_starts: &[u32],
    succs: &[u32],
    degrees: &[u32],
    rings: &[u32],
    ends: &[u32],
    counters: &[i32],
    buffers: &[u32],
    executed: &[u32],
    run: &[u32],
    rows: &[RowCell],
) -> io::Result<()> {
    writeln!(out, "{} {}", weights.len(), Words(run))?;
    record(out, executed)?;
    write!(out, "hashes")?;
    hashes(
        out,
        &[
            weights,
            pred_starts,
            preds,
            succ_starts,
            succs,
            degrees,
            rings,
            ends,
        ],
    )?;
    write!(out, " {}", show::hash_counters(counters))?;
    hashes(out, &[buffers, executed, run])?;
    writeln!(out, " {}", show::hash_rows(rows))
}
