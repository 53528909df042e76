ghost use Rattle.std.specs.Prelude.{◌≡◌, Some};
ghost use Rattle.flash_text.specs.Words.{spaced_words};
ghost use Rattle.flash_meta.specs.MetaLines as lines;

use crate::flag_words::read_flags;
use crate::flags::Flags;
use crate::keys::read_key;
use crate::verbs::verb_of;
use crate::{Meta, MetaLine, MetaVerb};
use flash_names::Key;
use flash_text::{Refusal, next_word, number_at_most, trimmed, without_return};
use std::marker::Model;

// The most bytes that a line may announce.
const MAX_LENGTH: u32 = 2_147_483_647;

// What is behind a command: the key as it was sent, the length where data follows, and the flags as they were sent.
#[derive(Drop)]
struct Parts<'a> {
    verb: MetaVerb,
    word: &'a [u8],
    length: Option<u32>,
    asked: &'a [u8],
}

impl<'a> Model for Parts<'a> {
    ghost use Rattle.std.specs.Prelude.{◌<◌, ◌^◌};
    ghost use Rattle.std.specs.Option.{ForSome};
    ghost use Rattle.flash_meta.specs.MetaParts.{MetaParts};

    ghost Value = { MetaParts };

    ghost view = { λ inside. record {
      verb = inside.verb;
      word = inside.word.now;
      length = inside.length;
      asked = inside.asked.now;
    } };

    ghost invariant = { λ inside. ForSome inside.length (λ n. n < 2 ^ 31) };
}

/// Reads a line of the meta protocol without its line feed (memcached's doc/protocol.txt, "Meta Commands"). One
/// carriage return at its end is taken off here. A value may have at most `item_max` bytes.
///
/// The refusal is the first that applies:
/// 1. `Unknown`: the command is none of the meta protocol;
/// 2. `BadFormat`: there is no key, or `ms` has no length that can be read;
/// 3. for the flags from left to right: `BadFlag` for a letter that the command doesn't have, or bytes behind a letter
///    that takes none; `DuplicateFlag` for a letter that was given before; `BadToken` for a token that can't be read;
/// 4. `BadFormat`: the word is no key, or with `b` isn't the padded standard base64 of one byte at least (RFC 4648);
/// 5. `TooLarge`: the length is above `item_max`.
///
/// After the last three `ms` skips its data and the two bytes behind it; else nothing is skipped.
#[tactic(auto, unfolding(crate::specs::MetaLines::meta_of))]
pub fn read_meta(line: &[u8], item_max: u32) -> MetaLine<'_>
    ensures { result ≡ lines.meta_of item_max line.now }
{
    let Some((command, rest)) = next_word(without_return(line)) else {
        return MetaLine::Bad(Refusal::Unknown, 0);
    };
    match verb_of(command) {
        None => MetaLine::Bad(Refusal::Unknown, 0),
        Some(verb) => answer_behind(verb, rest, item_max),
    }
}

#[tactic(auto, unfolding(crate::specs::MetaLines::answer_behind))]
fn answer_behind(verb: MetaVerb, rest: &[u8], item_max: u32) -> MetaLine<'_>
    ensures { result ≡ lines.answer_behind item_max verb rest.now }
{
    match parts_behind(verb, rest) {
        None => MetaLine::Bad(Refusal::BadFormat, 0),
        Some(parts) => answer_to(parts, item_max),
    }
}

// The words behind a command: a key, a length where it is `ms`, and flags.
fn parts_behind(verb: MetaVerb, rest: &[u8]) -> Option<Parts<'_>>
    ensures { result ≡ lines.parts_of verb (spaced_words rest.now) rest.now }
{
    let (word, rest) = next_word(rest)?;
    if verb != MetaVerb::Set {
        return Some(Parts {
            verb,
            word,
            length: None,
            asked: trimmed(rest),
        });
    }
    let (length, rest) = next_word(rest)?;
    Some(Parts {
        verb,
        word,
        length: Some(number_at_most(length, MAX_LENGTH)?),
        asked: trimmed(rest),
    })
}

// The answer to a line of these words: the first refusal of its flags, then of its key, then of its length.
#[tactic(auto, unfolding(crate::specs::MetaLines::answer_of))]
fn answer_to<'a>(parts: Parts<'a>, item_max: u32) -> MetaLine<'a>
    ensures { result ≡ lines.answer_of item_max parts.entry }
{
    let skip = match parts.length {
        None => 0,
        Some(length) => length + 2,
    };
    let flags = match read_flags(parts.verb, parts.asked) {
        Err(refusal) => return MetaLine::Bad(refusal, skip),
        Ok(flags) => flags,
    };
    match read_key(flags.base64, parts.word) {
        None => MetaLine::Bad(Refusal::BadFormat, skip),
        Some(key) => answer_with_key(parts, flags, key, item_max),
    }
}

fn answer_with_key<'a>(parts: Parts<'a>, flags: Flags, key: Key, item_max: u32) -> MetaLine<'a>
    ensures { result ≡ lines.answer_with_key item_max parts.entry flags (Some key) }
{
    let length = parts.length.unwrap_or(0);
    if length > item_max {
        return MetaLine::Bad(Refusal::TooLarge, length + 2);
    }
    let meta = Meta {
        verb: parts.verb,
        word: parts.word,
        key,
        length,
        asked: parts.asked,
        base64: flags.base64,
        quiet: flags.quiet,
        value: flags.value,
        exptime: flags.exptime,
        flags: flags.flags,
        compare: flags.compare,
        mode: flags.mode,
        down: flags.down,
        delta: flags.delta,
        create: flags.create,
        start: flags.start,
    };
    match parts.length {
        None => MetaLine::Command(meta),
        Some(length) => MetaLine::Data(meta, length),
    }
}
