// The flags that a meta reply gives back.
ghost use Rattle.std.specs.Prelude.{◌≡◌, ◌++◌, ◌∷◌, OnOk, OnErr};
ghost use Rattle.flash_reply.specs.GivenBack.{count_of, number_flag, key_flag, flag_text, given_back};
ghost use Rattle.flash_reply.specs.Queue.{IsInFront};

use crate::facts::Facts;
use bytes::BytesMut;
use flash_meta::Meta;
use flash_text::next_word;
use itoa::Buffer;
use std::alloc::AllocError;

/// Appends all flags that are given back. After want of memory some of them may stand behind what was there before.
pub fn push_given_back(out: &mut BytesMut, meta: &Meta<'_>, facts: &Facts) -> Result<(), AllocError>
    ensures pushed { OnOk result (out.new.items ≡ out.old.items ++ given_back meta.now facts.now) }
    ensures front { OnErr result (IsInFront out.old.items out.new.items) }
{
    let mut left = meta.asked;
    'flags: while let Some((word, rest)) = next_word(left) {
        append_flag(out, meta, facts, word)?;
        left = rest;
    }
    Ok(())
}

// Appends what one flag gives back, or nothing.
fn append_flag(
    out: &mut BytesMut,
    meta: &Meta<'_>,
    facts: &Facts,
    word: &[u8],
) -> Result<(), AllocError>
    ensures appended { OnOk result (out.new.items ≡ out.old.items ++ flag_text meta.now facts.now word.now) }
    ensures kept { OnErr result (out.new.items ≡ out.old.items) }
{
    match word {
        [b'O', ..] => append_word(out, word),
        [b'k', ..] => append_key(out, meta),
        [letter, ..] => append_number(out, facts, *letter),
        [] => Ok(()),
    }
}

// Appends the key's word.
fn append_key(out: &mut BytesMut, meta: &Meta<'_>) -> Result<(), AllocError>
    ensures appended { OnOk result (out.new.items ≡ out.old.items ++ key_flag meta.now) }
    ensures kept { OnErr result (out.new.items ≡ out.old.items) }
{
    let word = meta.word;
    out.reserve(word.len() + 4)?;
    out.extend_reserved(b" k");
    out.extend_reserved(word);
    if meta.base64 {
        out.extend_reserved(b" b");
    }
    Ok(())
}

// Appends a space and a flag's word as it was sent.
fn append_word(out: &mut BytesMut, word: &[u8]) -> Result<(), AllocError>
    ensures appended { OnOk result (out.new.items ≡ out.old.items ++ 32 ∷ word.now) }
    ensures kept { OnErr result (out.new.items ≡ out.old.items) }
{
    out.reserve(word.len() + 1)?;
    out.extend_reserved(b" ");
    out.extend_reserved(word);
    Ok(())
}

// Appends a flag with its number, where it is told.
fn append_number(out: &mut BytesMut, facts: &Facts, letter: u8) -> Result<(), AllocError>
    ensures appended { OnOk result (out.new.items ≡ out.old.items ++ number_flag facts.now letter) }
    ensures kept { OnErr result (out.new.items ≡ out.old.items) }
{
    if letter == b't' {
        match facts.left {
            Some(left) => append_digits(out, letter, Buffer::new().format(left).as_bytes()),
            None => Ok(()),
        }
    } else {
        match count_of(facts, letter) {
            Some(count) => append_digits(out, letter, Buffer::new().format(count).as_bytes()),
            None => Ok(()),
        }
    }
}

// The number of a flag that has no sign, where it is told.
fn count_of(facts: &Facts, letter: u8) -> Option<u64>
    ensures { result ≡ count_of facts.now letter }
{
    match letter {
        b'c' => facts.cas,
        b'f' => facts.flags.map(u64::from),
        b's' => facts.size.map(u64::from),
        b'h' => facts.before.map(u64::from),
        b'l' => facts.idle,
        _ => None,
    }
}

// Appends a space, a letter and its digits.
fn append_digits(out: &mut BytesMut, letter: u8, digits: &[u8]) -> Result<(), AllocError>
    ensures appended { OnOk result (out.new.items ≡ out.old.items ++ 32 ∷ letter ∷ digits.now) }
    ensures kept { OnErr result (out.new.items ≡ out.old.items) }
{
    out.reserve(digits.len() + 2)?;
    out.extend_reserved(&[b' ', letter]);
    out.extend_reserved(digits);
    Ok(())
}
