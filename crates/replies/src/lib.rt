// What the calls for C and Rust answer: the number and the detail, 0 and 0 where accepted; a step answers its outcome too.
#![tactic(auto)]

ghost use Rattle.std.specs.Prelude.{◌≡◌, Err};
ghost use Rattle.task.specs.Refusals.{outcome_says, release_says};
ghost use Rattle.replies.specs.Replies.{reply_of, said_of, step_reply_of};

use task::{Answer, Refusal, ReleaseOutcome, StepAnswer, StepOutcome};

#[repr(C)]
#[derive(Clone, Copy)]
pub struct Reply {
    pub number: u32,
    pub detail: u32,
}

pub fn reply_of(answer: Answer) -> Reply
    ensures { result ≡ reply_of answer }
{
    match answer {
        Err(why) => Reply {
            number: why.number(),
            detail: why.detail(),
        },
        Ok(()) => Reply {
            number: 0,
            detail: 0,
        },
    }
}

// The kind is 0 of a refused step, of Start and of Complete, 1 of a Fetch with its task, 2 of a Release with the degree left, 3 of one
// with the task placed and its owner.
#[repr(C)]
#[derive(Clone, Copy)]
pub struct StepReply {
    pub number: u32,
    pub detail: u32,
    pub kind: u32,
    pub first: u32,
    pub second: u32,
}

// A refused step's reply, by number and detail.
pub fn refused(number: u32, detail: u32) -> StepReply
    ensures { result ≡ record { number = number; detail = detail; kind = 0; first = 0; second = 0 } }
{
    StepReply {
        number,
        detail,
        kind: 0,
        first: 0,
        second: 0,
    }
}

// The same by its row of the table. An export answers it before it looks at outcomes.
pub fn refusal_reply_of(why: Refusal) -> StepReply
    ensures { result ≡ step_reply_of (Err why) }
{
    let (number, detail) = why.row();
    refused(number, detail)
}

fn accepted(kind: u32, first: u32, second: u32) -> StepReply
    ensures { result ≡ record { number = 0; detail = 0; kind = kind; first = first; second = second } }
{
    StepReply {
        number: 0,
        detail: 0,
        kind,
        first,
        second,
    }
}

fn release_reply_of(outcome: ReleaseOutcome) -> StepReply
    ensures { result ≡ said_of (release_says outcome) }
{
    match outcome {
        ReleaseOutcome::DegreeLeft(degree) => accepted(2, degree, 0),
        ReleaseOutcome::Placed(task, owner) => accepted(3, task.0, owner.0),
    }
}

fn outcome_reply_of(outcome: StepOutcome) -> StepReply
    ensures { result ≡ said_of (outcome_says outcome) }
{
    match outcome {
        StepOutcome::Moved => accepted(0, 0, 0),
        StepOutcome::Fetched(task) => accepted(1, task.0, 0),
        StepOutcome::Released(released) => release_reply_of(released),
    }
}

pub fn step_reply_of(answer: StepAnswer) -> StepReply
    ensures { result ≡ step_reply_of answer }
{
    match answer {
        Err(why) => refusal_reply_of(why),
        Ok(outcome) => outcome_reply_of(outcome),
    }
}
