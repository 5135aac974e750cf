// The reader and the writer as C and Rust see them: each hands on to the call of the same name in `stg_export`, under its clauses.
#![tactic(auto)]

ghost use Rattle.std.specs.Prelude.{◌≡◌};
ghost use Rattle.layout.specs.Reader.{read_text};
ghost use Rattle.layout.specs.Writer.{write_text};
ghost use Rattle.stg_export.specs.Replies.{replied, replied_of, write_replied, write_replied_of};

use stg_export::{ReadReply, WriteReply};

#[unsafe(no_mangle)]
pub extern "C" fn yolluvek_read_text(
    text: &[u8],
    weights: &mut [u32],
    starts: &mut [u32],
    preds: &mut [u32],
) -> ReadReply
    ensures { replied_of result weights.new starts.new preds.new
        ≡ replied (read_text text.now weights.old starts.old preds.old) }
{
    stg_export::yolluvek_read_text(text, weights, starts, preds)
}

#[unsafe(no_mangle)]
pub extern "C" fn yolluvek_write_text(
    weights: &[u32],
    starts: &[u32],
    preds: &[u32],
    text: &mut [u8],
) -> WriteReply
    ensures { write_replied_of result text.new
        ≡ write_replied (write_text weights.now starts.now preds.now text.old) }
{
    stg_export::yolluvek_write_text(weights, starts, preds, text)
}
