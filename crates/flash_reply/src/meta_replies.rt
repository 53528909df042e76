// The replies to meta commands.
ghost use Rattle.std.specs.Prelude.{◌≡◌, ◌++◌, OnOk, OnErr};
ghost use Rattle.flash_reply.specs.MetaReplies.{code_line, value_block, number_text, meta_found, meta_stored, meta_gone, meta_sum};
ghost use Rattle.flash_reply.specs.Lines.{unless_quiet};
ghost use Rattle.flash_reply.specs.Queue.{IsInFront};

use crate::facts::Facts;
use crate::given_back::push_given_back;
use crate::lines::{NO_NUMBER, NON_NUMERIC, TOO_LARGE};
use bytes::BytesMut;
use flash_entry::{Gone, LookAnswer, Stored, Sum, Summed};
use flash_meta::Meta;
use itoa::Buffer;
use std::alloc::AllocError;

/// Appends the reply to `mg`, where it isn't hidden.
pub fn append_meta_found(
    out: &mut BytesMut,
    meta: &Meta<'_>,
    answer: &LookAnswer,
) -> Result<(), AllocError>
    ensures appended { OnOk result (out.new.items ≡ out.old.items ++ meta_found meta.now answer.now) }
    ensures kept { OnErr result (out.new.items ≡ out.old.items) }
{
    match answer {
        LookAnswer::Miss => append_unless_quiet(out, b"EN", meta, &Facts::none()),
        LookAnswer::Head(head) => append_code(out, b"HD", meta, &Facts::of_head(head)),
        LookAnswer::Hit(hit) => append_value(
            out,
            u64::from(hit.head.size),
            hit.value.bytes(),
            meta,
            &Facts::of_head(&hit.head),
        ),
    }
}

/// Appends the reply to `ms`, where it isn't hidden.
pub fn append_meta_stored(
    out: &mut BytesMut,
    meta: &Meta<'_>,
    stored: Stored,
) -> Result<(), AllocError>
    ensures appended { OnOk result (out.new.items ≡ out.old.items ++ meta_stored meta.now stored) }
    ensures kept { OnErr result (out.new.items ≡ out.old.items) }
{
    match stored {
        Stored::Stored(cas) => append_unless_quiet(out, b"HD", meta, &Facts::of_stored(cas)),
        Stored::NotStored => append_code(out, b"NS", meta, &Facts::none()),
        Stored::Exists => append_code(out, b"EX", meta, &Facts::none()),
        Stored::NotFound => append_code(out, b"NF", meta, &Facts::none()),
        Stored::TooLarge => out.extend_from_slice(TOO_LARGE),
        Stored::NoNumber => out.extend_from_slice(NO_NUMBER),
    }
}

/// Appends the reply to `md`, where it isn't hidden.
pub fn append_meta_gone(out: &mut BytesMut, meta: &Meta<'_>, gone: Gone) -> Result<(), AllocError>
    ensures appended { OnOk result (out.new.items ≡ out.old.items ++ meta_gone meta.now gone) }
    ensures kept { OnErr result (out.new.items ≡ out.old.items) }
{
    match gone {
        Gone::Deleted => append_unless_quiet(out, b"HD", meta, &Facts::none()),
        Gone::NotFound => append_unless_quiet(out, b"NF", meta, &Facts::none()),
        Gone::Exists => append_code(out, b"EX", meta, &Facts::none()),
    }
}

/// Appends the reply to `ma`, where it isn't hidden.
pub fn append_meta_sum(out: &mut BytesMut, meta: &Meta<'_>, sum: Sum) -> Result<(), AllocError>
    ensures appended { OnOk result (out.new.items ≡ out.old.items ++ meta_sum meta.now sum) }
    ensures kept { OnErr result (out.new.items ≡ out.old.items) }
{
    match sum {
        Sum::Now(summed) | Sum::Created(summed) => {
            if meta.quiet {
                return Ok(());
            }
            append_number(out, meta, summed)
        }
        Sum::NotFound => append_unless_quiet(out, b"NF", meta, &Facts::none()),
        Sum::NonNumeric => out.extend_from_slice(NON_NUMERIC),
        Sum::Exists => append_code(out, b"EX", meta, &Facts::none()),
        Sum::NoNumber => out.extend_from_slice(NO_NUMBER),
    }
}

// Appends what is told of a number that was changed or created.
fn append_number(out: &mut BytesMut, meta: &Meta<'_>, summed: Summed) -> Result<(), AllocError>
    ensures appended { OnOk result (out.new.items ≡ out.old.items ++ number_text meta.now summed) }
    ensures kept { OnErr result (out.new.items ≡ out.old.items) }
{
    let facts = Facts::of_sum(summed);
    if !meta.value {
        return append_code(out, b"HD", meta, &facts);
    }
    let mut buffer = Buffer::new();
    let digits = buffer.format(summed.number).as_bytes();
    append_value(out, digits.len() as u64, digits, meta, &facts)
}

// Appends the line of a code, where the command didn't ask for quiet.
fn append_unless_quiet(
    out: &mut BytesMut,
    code: &[u8],
    meta: &Meta<'_>,
    facts: &Facts,
) -> Result<(), AllocError>
    ensures appended { OnOk result (out.new.items
        ≡ out.old.items ++ unless_quiet meta.now.quiet (code_line code.now meta.now facts.now)) }
    ensures kept { OnErr result (out.new.items ≡ out.old.items) }
{
    if meta.quiet {
        return Ok(());
    }
    append_code(out, code, meta, facts)
}

// Appends the line of a code, or nothing.
fn append_code(
    out: &mut BytesMut,
    code: &[u8],
    meta: &Meta<'_>,
    facts: &Facts,
) -> Result<(), AllocError>
    ensures appended { OnOk result (out.new.items ≡ out.old.items ++ code_line code.now meta.now facts.now) }
    ensures kept { OnErr result (out.new.items ≡ out.old.items) }
{
    let before = out.len();
    let pushed = push_code(out, code, meta, facts);
    if pushed.is_err() {
        out.truncate(before);
    }
    pushed
}

// Appends the line of a code. After want of memory a part of it may stand behind what was there before.
fn push_code(
    out: &mut BytesMut,
    code: &[u8],
    meta: &Meta<'_>,
    facts: &Facts,
) -> Result<(), AllocError>
    ensures pushed { OnOk result (out.new.items ≡ out.old.items ++ code_line code.now meta.now facts.now) }
    ensures front { OnErr result (IsInFront out.old.items out.new.items) }
{
    out.extend_from_slice(code)?;
    push_given_back(out, meta, facts)?;
    out.extend_from_slice(b"\r\n")
}

// Appends a value behind its line, or nothing.
fn append_value(
    out: &mut BytesMut,
    size: u64,
    value: &[u8],
    meta: &Meta<'_>,
    facts: &Facts,
) -> Result<(), AllocError>
    ensures appended { OnOk result (out.new.items
        ≡ out.old.items ++ value_block size value.now meta.now facts.now) }
    ensures kept { OnErr result (out.new.items ≡ out.old.items) }
{
    let before = out.len();
    let pushed = push_value(out, size, value, meta, facts);
    if pushed.is_err() {
        out.truncate(before);
    }
    pushed
}

// Appends a value behind its line. After want of memory a part of it may stand behind what was there before.
fn push_value(
    out: &mut BytesMut,
    size: u64,
    value: &[u8],
    meta: &Meta<'_>,
    facts: &Facts,
) -> Result<(), AllocError>
    ensures pushed { OnOk result (out.new.items ≡ out.old.items ++ value_block size value.now meta.now facts.now) }
    ensures front { OnErr result (IsInFront out.old.items out.new.items) }
{
    out.extend_from_slice(b"VA ")?;
    out.extend_from_slice(Buffer::new().format(size).as_bytes())?;
    push_given_back(out, meta, facts)?;
    out.extend_from_slice(b"\r\n")?;
    out.extend_from_slice(value)?;
    out.extend_from_slice(b"\r\n")
}
