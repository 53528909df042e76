ghost use Rattle.std.specs.Prelude.{◌≡◌};
ghost use Rattle.flash_text.specs.Reading.{said_if_read};
ghost use Rattle.flash_text.specs.Lines.{line_of, answer_of};

use crate::fields::{Fields, fields_behind};
use crate::verbs::{is_storage, takes_delta, verb_of};
use crate::words::{next_word, without_return};
use crate::{Line, Refusal, Text, Verb};

/// Reads a line of the text protocol without its line feed (memcached's doc/protocol.txt). One carriage return at its
/// end is taken off here. A value may have at most `item_max` bytes.
///
/// The refusal is the first that applies:
/// 1. `Unknown`: an unknown command, another count of words, or a word in an optional place that isn't one;
/// 2. `BadFormat`: the length of a storage line can't be read;
/// 3. `BadDelta`: a delta can't be read;
/// 4. `BadFormat`: a key or another number can't be read;
/// 5. `TooLarge`: the length is above `item_max`.
///
/// After the last two a storage line skips its data and the two bytes behind it; else nothing is skipped.
#[tactic(auto, unfolding(crate::specs::Lines::line_of))]
pub fn read_line(line: &[u8], item_max: u32) -> Line<'_>
    ensures { result ≡ line_of item_max line.now }
{
    let Some((command, rest)) = next_word(without_return(line)) else {
        return Line::Bad(Refusal::Unknown, 0);
    };
    let Some(verb) = verb_of(command) else {
        return Line::Bad(Refusal::Unknown, 0);
    };
    match fields_behind(verb, rest) {
        None => Line::Bad(Refusal::Unknown, 0),
        Some(fields) => answer_to(verb, fields, item_max),
    }
}

// The first refusal that applies, or else what the line says.
#[tactic(auto, unfolding(crate::specs::Lines::answer_of))]
fn answer_to<'a>(verb: Verb, fields: Fields<'a>, item_max: u32) -> Line<'a>
    ensures { result ≡ answer_of item_max verb fields.entry }
{
    let Some(length) = fields.length else {
        return Line::Bad(Refusal::BadFormat, 0);
    };
    if takes_delta(verb) && fields.number.is_none() {
        return Line::Bad(Refusal::BadDelta, 0);
    }
    let has_data = is_storage(verb);
    let skip = if has_data { length + 2 } else { 0 };
    let Some(text) = text_of(verb, fields) else {
        return Line::Bad(Refusal::BadFormat, skip);
    };
    if length > item_max {
        return Line::Bad(Refusal::TooLarge, skip);
    }
    if has_data {
        Line::Data(text, length)
    } else {
        Line::Command(text)
    }
}

// What a line says, where all of its fields can be read.
fn text_of<'a>(verb: Verb, fields: Fields<'a>) -> Option<Text<'a>>
    ensures { result ≡ said_if_read verb fields.entry }
{
    Some(Text {
        verb,
        keys: fields.keys?,
        flags: fields.flags?,
        exptime: fields.exptime?,
        length: fields.length?,
        number: fields.number?,
        quiet: fields.quiet,
    })
}
