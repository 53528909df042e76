ghost use Rattle.std.specs.Prelude.{◌≡◌, ◌++◌, OnOk, OnErr};
ghost use Rattle.flash_entry.specs.declared.found.Told.TheVariants as answers;
ghost use Rattle.flash_reply.specs.Lines.{refusal_line};
ghost use Rattle.flash_reply.specs.Replies.{text, plain_text};

use crate::command::Command;
use crate::lines::{NO_MEMORY, gone_line, plain_line, refusal_line, stored_line, touched_line};
use crate::meta_replies::{
    append_meta_found, append_meta_gone, append_meta_stored, append_meta_sum,
};
use crate::text_replies::{append_found, append_sum, append_tally};
use bytes::BytesMut;
use flash_entry::{Gone, LookAnswer, Stored, Sum, Tally, Told, Touched};
use flash_text::Refusal;
use std::alloc::AllocError;

/// Appends the reply to a step of a command, by what it is told. The steps of a command are counted from 1.
pub fn reply_step(
    out: &mut BytesMut,
    to: &Command<'_>,
    step: u32,
    told: &Told,
) -> Result<(), AllocError>
    ensures appended { OnOk result (out.new.items ≡ out.old.items ++ text to.now step told.now) }
    ensures kept { OnErr result (out.new.items ≡ out.old.items) }
{
    match told {
        Told::Found(found) => reply_found(out, to, step, found),
        Told::Stored(stored) => reply_stored(out, to, step, stored),
        Told::Gone(gone) => reply_gone(out, to, step, gone),
        Told::Sum(sum) => reply_sum(out, to, step, sum),
        Told::Touched(touched) => reply_touched(out, to, step, touched),
        Told::Flushed => reply_plain(out, to),
        Told::Tally(tally) => reply_tally(out, to, step, tally),
        Told::NoMemory => reply_no_memory(out, to),
    }
}

/// Appends the reply to a lookup's step, one for each key; `END` is behind that of the last key.
pub fn reply_found(
    out: &mut BytesMut,
    to: &Command<'_>,
    step: u32,
    told: &LookAnswer,
) -> Result<(), AllocError>
    ensures appended { OnOk result (out.new.items ≡ out.old.items ++ text to.now step (answers.Found told.now)) }
    ensures kept { OnErr result (out.new.items ≡ out.old.items) }
{
    match to {
        Command::Text(text) if text.quiet => Ok(()),
        Command::Text(text) => append_found(out, text, step, told),
        Command::Meta(meta) => append_meta_found(out, meta, told),
    }
}

/// Appends the reply to a step that stores a value.
pub fn reply_stored(
    out: &mut BytesMut,
    to: &Command<'_>,
    _step: u32,
    told: &Stored,
) -> Result<(), AllocError>
    ensures appended { OnOk result (out.new.items ≡ out.old.items ++ text to.now _step (answers.Stored told.now)) }
    ensures kept { OnErr result (out.new.items ≡ out.old.items) }
{
    match to {
        Command::Text(text) if text.quiet => Ok(()),
        Command::Text(_) => out.extend_from_slice(stored_line(*told)),
        Command::Meta(meta) => append_meta_stored(out, meta, *told),
    }
}

/// Appends the reply to a step that deletes an item.
pub fn reply_gone(
    out: &mut BytesMut,
    to: &Command<'_>,
    _step: u32,
    told: &Gone,
) -> Result<(), AllocError>
    ensures appended { OnOk result (out.new.items ≡ out.old.items ++ text to.now _step (answers.Gone told.now)) }
    ensures kept { OnErr result (out.new.items ≡ out.old.items) }
{
    match to {
        Command::Text(text) if text.quiet => Ok(()),
        Command::Text(_) => out.extend_from_slice(gone_line(*told)),
        Command::Meta(meta) => append_meta_gone(out, meta, *told),
    }
}

/// Appends the reply to a step that changes a number.
pub fn reply_sum(
    out: &mut BytesMut,
    to: &Command<'_>,
    _step: u32,
    told: &Sum,
) -> Result<(), AllocError>
    ensures appended { OnOk result (out.new.items ≡ out.old.items ++ text to.now _step (answers.Sum told.now)) }
    ensures kept { OnErr result (out.new.items ≡ out.old.items) }
{
    match to {
        Command::Text(text) if text.quiet => Ok(()),
        Command::Text(_) => append_sum(out, *told),
        Command::Meta(meta) => append_meta_sum(out, meta, *told),
    }
}

/// Appends the reply to a step that gives an item another deadline.
pub fn reply_touched(
    out: &mut BytesMut,
    to: &Command<'_>,
    _step: u32,
    told: &Touched,
) -> Result<(), AllocError>
    ensures appended { OnOk result (out.new.items ≡ out.old.items ++ text to.now _step (answers.Touched told.now)) }
    ensures kept { OnErr result (out.new.items ≡ out.old.items) }
{
    match to {
        Command::Text(text) if !text.quiet => out.extend_from_slice(touched_line(*told)),
        _ => Ok(()),
    }
}

/// Appends the store's numbers.
pub fn reply_tally(
    out: &mut BytesMut,
    to: &Command<'_>,
    _step: u32,
    told: &Tally,
) -> Result<(), AllocError>
    ensures appended { OnOk result (out.new.items ≡ out.old.items ++ text to.now _step (answers.Tally told.entry.now)) }
    ensures kept { OnErr result (out.new.items ≡ out.old.items) }
{
    match to {
        Command::Text(text) if !text.quiet => append_tally(out, told),
        _ => Ok(()),
    }
}

/// Appends the reply to a step without memory, which ends its command.
pub fn reply_no_memory(out: &mut BytesMut, to: &Command<'_>) -> Result<(), AllocError>
    ensures appended { OnOk result (out.new.items ≡ out.old.items ++ text to.now 1 answers.NoMemory) }
    ensures kept { OnErr result (out.new.items ≡ out.old.items) }
{
    match to {
        Command::Text(text) if text.quiet => Ok(()),
        _ => out.extend_from_slice(NO_MEMORY),
    }
}

/// Appends the reply to `flush_all`, `verbosity`, `version` or `mn`, and nothing for any other command.
pub fn reply_plain(out: &mut BytesMut, to: &Command<'_>) -> Result<(), AllocError>
    ensures appended { OnOk result (out.new.items ≡ out.old.items ++ plain_text to.now) }
    ensures kept { OnErr result (out.new.items ≡ out.old.items) }
{
    match to {
        Command::Text(text) if !text.quiet => out.extend_from_slice(plain_line(text.verb)),
        _ => Ok(()),
    }
}

/// Appends the line of a refusal, which is always shown.
pub fn reply_refusal(out: &mut BytesMut, refusal: Refusal) -> Result<(), AllocError>
    ensures appended { OnOk result (out.new.items ≡ out.old.items ++ refusal_line refusal) }
    ensures kept { OnErr result (out.new.items ≡ out.old.items) }
{
    out.extend_from_slice(refusal_line(refusal))
}
