// What the weak calls for C and Rust answer: the number and the detail, 0 and 0 where accepted, and the outcome.
#![tactic(auto)]

ghost use Rattle.std.specs.Prelude.{◌≡◌, Err, Ok};
ghost use Rattle.weak_replies.specs.Replies.{weak_reply_of};

use task::Refusal;
use weak_task::{WeakAnswer, WeakOutcome};

// The kind is 0 of a refused step, of Start and of Complete, 1 of a Fetch with its copy, 2 of a Release with the copy placed and its owner.
// A copy is its task and its predecessor.
#[repr(C)]
#[derive(Clone, Copy)]
pub struct WeakReply {
    pub number: u32,
    pub detail: u32,
    pub kind: u32,
    pub first: u32,
    pub second: u32,
    pub third: u32,
}

// A refused step's reply, by number and detail.
pub fn refused(number: u32, detail: u32) -> WeakReply
    ensures { result ≡ record { number = number; detail = detail; kind = 0; first = 0; second = 0; third = 0 } }
{
    WeakReply {
        number,
        detail,
        kind: 0,
        first: 0,
        second: 0,
        third: 0,
    }
}

// The same by its row of the table. An export answers it before it looks at outcomes.
pub fn refusal_reply_of(why: Refusal) -> WeakReply
    ensures { result ≡ weak_reply_of (Err why) }
{
    let (number, detail) = why.row();
    refused(number, detail)
}

fn accepted(kind: u32, first: u32, second: u32, third: u32) -> WeakReply
    ensures { result ≡ record { number = 0; detail = 0; kind = kind; first = first; second = second; third = third } }
{
    WeakReply {
        number: 0,
        detail: 0,
        kind,
        first,
        second,
        third,
    }
}

fn outcome_reply_of(outcome: WeakOutcome) -> WeakReply
    ensures { result ≡ weak_reply_of (Ok outcome) }
{
    match outcome {
        WeakOutcome::Moved => accepted(0, 0, 0, 0),
        WeakOutcome::Fetched(copy) => accepted(1, copy.task.0, copy.predecessor.0, 0),
        WeakOutcome::Placed(copy, owner) => {
            accepted(2, copy.task.0, copy.predecessor.0, owner.0)
        }
    }
}

pub fn weak_reply_of(answer: WeakAnswer) -> WeakReply
    ensures { result ≡ weak_reply_of answer }
{
    match answer {
        Err(why) => refusal_reply_of(why),
        Ok(outcome) => outcome_reply_of(outcome),
    }
}
