// The replies to text commands.
ghost use Rattle.std.specs.Prelude.{◌≡◌, ◌++◌, ◌∷◌, ◌≤◌, ◌+◌, ◌-◌, length, drop, decimal, OnOk, OnErr};
ghost use Rattle.flash_text.specs.Words.{spaced_words};
ghost use Rattle.flash_reply.specs.Lines.{reply_line};
ghost use Rattle.flash_reply.specs.TextReplies.{shows_cas, value_line, look_text, found_text, sum_line, stat_line, tally_lines, ending};

use crate::lines::{EXISTS, NO_NUMBER, NON_NUMERIC, NOT_FOUND};
use bytes::BytesMut;
use flash_entry::{Head, Hit, LookAnswer, Sum, Tally};
use flash_text::{Text, Verb, next_word};
use itoa::Buffer;
use std::alloc::AllocError;

// The most bytes of a number.
const DIGITS: usize = 20;

// The most bytes of a block beside its key and its value, and of `END` behind it.
const BLOCK: usize = 78;

// The most bytes of the lines of the store's numbers.
const TALLY: usize = 194;

/// Appends the reply to the lookup of one key: the block of an item that was found, and `END` where the key is the last
/// of its command. After want of memory the queue is as before.
pub fn reply_look(
    out: &mut BytesMut,
    verb: Verb,
    key: &[u8],
    last: bool,
    answer: &LookAnswer,
) -> Result<(), AllocError>
    ensures appended { OnOk result (out.new.items ≡ out.old.items ++ look_text verb key.now last answer.now) }
    ensures kept { OnErr result (out.new.items ≡ out.old.items) }
{
    match answer {
        LookAnswer::Hit(hit) => append_block(out, verb, key, hit, last),
        LookAnswer::Miss | LookAnswer::Head(_) => out.extend_from_slice(ending(last)),
    }
}

// What ends a lookup behind its last key.
fn ending(last: bool) -> &'static [u8]
    ensures { result.now ≡ ending last }
{
    if last { b"END\r\n" } else { b"" }
}

// Appends the block of an item, and what ends the lookup.
fn append_block(
    out: &mut BytesMut,
    verb: Verb,
    key: &[u8],
    hit: &Hit,
    last: bool,
) -> Result<(), AllocError>
    ensures appended { OnOk result (out.new.items
        ≡ out.old.items ++ value_line verb key.now hit.now.head ++ reply_line hit.now.value ++ ending last) }
    ensures kept { OnErr result (out.new.items ≡ out.old.items) }
{
    let value = hit.value.bytes();
    reserve_block(out, key.len(), value.len())?;
    append_value_line(out, verb, key, &hit.head);
    out.extend_reserved(value);
    out.extend_reserved(b"\r\n");
    out.extend_reserved(ending(last));
    Ok(())
}

// Takes the memory for a block.
fn reserve_block(out: &mut BytesMut, key_len: usize, value_len: usize) -> Result<(), AllocError>
    ensures kept { out.new.items ≡ out.old.items }
    ensures room { OnOk result (key_len + value_len + BLOCK ≤ out.new.spare) }
{
    let Some(beside) = key_len.checked_add(BLOCK) else {
        return Err(AllocError);
    };
    let Some(room) = beside.checked_add(value_len) else {
        return Err(AllocError);
    };
    out.reserve(room)
}

// Appends the first line of a block.
fn append_value_line(out: &mut BytesMut, verb: Verb, key: &[u8], head: &Head)
    requires { length key.now + 71 ≤ out.old.spare }
    ensures appended { out.new.items ≡ out.old.items ++ value_line verb key.now head.now }
    ensures room { out.old.spare ≤ out.new.spare + (length key.now + 71) }
{
    out.extend_reserved(b"VALUE ");
    out.extend_reserved(key);
    append_number(out, u64::from(head.flags));
    append_number(out, u64::from(head.size));
    if shows_cas(verb) {
        append_number(out, head.cas);
    }
    out.extend_reserved(b"\r\n");
}

fn shows_cas(verb: Verb) -> bool
    ensures { result ≡ shows_cas verb }
{
    matches!(verb, Verb::Gets | Verb::Gats)
}

// Appends a space and a number.
fn append_number(out: &mut BytesMut, number: u64)
    requires { 21 ≤ out.old.spare }
    ensures appended { out.new.items ≡ out.old.items ++ 32 ∷ decimal number }
    ensures room { out.old.spare ≤ out.new.spare + 21 }
{
    out.extend_reserved(b" ");
    out.extend_reserved(Buffer::new().format(number).as_bytes());
}

// Appends the line of a number.
fn append_number_line(out: &mut BytesMut, number: u64) -> Result<(), AllocError>
    ensures appended { OnOk result (out.new.items ≡ out.old.items ++ reply_line (decimal number)) }
    ensures kept { OnErr result (out.new.items ≡ out.old.items) }
{
    out.reserve(DIGITS + 2)?;
    out.extend_reserved(Buffer::new().format(number).as_bytes());
    out.extend_reserved(b"\r\n");
    Ok(())
}

/// Appends the line on a number that was to be changed.
pub fn append_sum(out: &mut BytesMut, sum: Sum) -> Result<(), AllocError>
    ensures appended { OnOk result (out.new.items ≡ out.old.items ++ sum_line sum) }
    ensures kept { OnErr result (out.new.items ≡ out.old.items) }
{
    match sum {
        Sum::Now(summed) | Sum::Created(summed) => append_number_line(out, summed.number),
        Sum::NotFound => out.extend_from_slice(NOT_FOUND),
        Sum::NonNumeric => out.extend_from_slice(NON_NUMERIC),
        Sum::Exists => out.extend_from_slice(EXISTS),
        Sum::NoNumber => out.extend_from_slice(NO_NUMBER),
    }
}

/// Appends the lines of the store's numbers.
pub fn append_tally(out: &mut BytesMut, tally: &Tally) -> Result<(), AllocError>
    ensures appended { OnOk result (out.new.items ≡ out.old.items ++ tally_lines tally.entry.now) }
    ensures kept { OnErr result (out.new.items ≡ out.old.items) }
{
    out.reserve(TALLY)?;
    append_stat(out, b"curr_items", tally.items);
    append_stat(out, b"bytes", tally.load);
    append_stat(out, b"total_items", tally.last_cas);
    append_stat(out, b"time", tally.now);
    append_stat(out, b"extstore_pages_free", tally.free_pages);
    out.extend_reserved(b"END\r\n");
    Ok(())
}

fn append_stat(out: &mut BytesMut, name: &[u8], number: u64)
    requires { length name.now + 28 ≤ out.old.spare }
    ensures appended { out.new.items ≡ out.old.items ++ stat_line name.now number }
    ensures room { out.old.spare ≤ out.new.spare + (length name.now + 28) }
{
    out.extend_reserved(b"STAT ");
    out.extend_reserved(name);
    append_number(out, number);
    out.extend_reserved(b"\r\n");
}

/// Appends the reply to a lookup's step. The steps of a command are counted from 1, one for each key.
pub fn append_found(
    out: &mut BytesMut,
    text: &Text<'_>,
    step: u32,
    answer: &LookAnswer,
) -> Result<(), AllocError>
    ensures appended { OnOk result (out.new.items ≡ out.old.items ++ found_text text.now step answer.now) }
    ensures kept { OnErr result (out.new.items ≡ out.old.items) }
{
    match next_word(keys_from(text.keys, step)) {
        Some((key, rest)) => reply_look(out, text.verb, key, next_word(rest).is_none(), answer),
        None => Ok(()),
    }
}

// The keys from that of a step on.
fn keys_from(keys: &[u8], step: u32) -> &[u8]
    ensures { spaced_words result.now ≡ drop (step - 1) (spaced_words keys.now) }
{
    let mut left = keys;
    let mut before = step.saturating_sub(1);
    'keys: while before > 0 {
        match next_word(left) {
            Some((_, rest)) => left = rest,
            None => return left,
        }
        before -= 1;
    }
    left
}
