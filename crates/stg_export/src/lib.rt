// The reader and the writer for C and Rust: lists as pointer and length. They answer the number and the detail, 0 and 0 where
// they accept, and then N and E, or the bytes used, 0 where they refuse.
#![tactic(auto)]

ghost use Rattle.std.specs.Prelude.{◌≡◌};
ghost use Rattle.layout.specs.Reader.{read_text};
ghost use Rattle.layout.specs.Writer.{write_text};
ghost use Rattle.stg_export.specs.Replies.{reply_of, replied, replied_of, write_reply_of, write_replied, write_replied_of};

use task::{ReadAnswer, WriteAnswer};

#[repr(C)]
#[derive(Clone, Copy)]
pub struct ReadReply {
    pub number: u32,
    pub detail: u32,
    pub tasks: u32,
    pub edges: u32,
}

#[repr(C)]
#[derive(Clone, Copy)]
pub struct WriteReply {
    pub number: u32,
    pub detail: u32,
    pub used: u32,
}

fn reply_of(answer: ReadAnswer) -> ReadReply
    ensures { result ≡ reply_of answer }
{
    match answer {
        Err(why) => ReadReply {
            number: why.number(),
            detail: why.detail(),
            tasks: 0,
            edges: 0,
        },
        Ok((tasks, edges)) => ReadReply {
            number: 0,
            detail: 0,
            tasks,
            edges,
        },
    }
}

// Reads a task text into weights, predecessor starts and predecessors.
#[unsafe(no_mangle)]
pub extern "C" fn yolluvek_read_text(
    text: &[u8],
    weights: &mut [u32],
    starts: &mut [u32],
    preds: &mut [u32],
) -> ReadReply
    ensures { replied_of result weights.new starts.new preds.new
        ≡ replied (read_text text.now weights.old starts.old preds.old) }
{
    reply_of(stg::read(text, weights, starts, preds))
}

fn write_reply_of(answer: WriteAnswer) -> WriteReply
    ensures { result ≡ write_reply_of answer }
{
    match answer {
        Err(why) => WriteReply {
            number: why.number(),
            detail: why.detail(),
            used: 0,
        },
        Ok(used) => WriteReply {
            number: 0,
            detail: 0,
            used,
        },
    }
}

// Writes weights, predecessor starts and predecessors as a task text.
#[unsafe(no_mangle)]
pub extern "C" fn yolluvek_write_text(
    weights: &[u32],
    starts: &[u32],
    preds: &[u32],
    text: &mut [u8],
) -> WriteReply
    ensures { write_replied_of result text.new
        ≡ write_replied (write_text weights.now starts.now preds.now text.old) }
{
    write_reply_of(text_write::write(weights, starts, preds, text))
}
