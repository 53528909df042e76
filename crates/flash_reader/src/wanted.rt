// How many bytes are needed for a front, where the line at the front is there and its block isn't.
ghost use Rattle.std.specs.Prelude.{◌≡◌, ℕ, ◌-◌, ◌≤◌, ◌<◌, ◌^◌, List, take, drop, length, Some, IfSome};
ghost use Rattle.flash_text.specs.Lines.{line_of};
ghost use Rattle.flash_meta.specs.MetaLines.{meta_of};
ghost use Rattle.flash_commands.specs.declared.place.Place.TheVariants as places;
ghost use Rattle.flash_commands.specs.Meanings.{meaning_of, text_meaning, meta_meaning};
ghost use Rattle.flash_commands.specs.Commands.{cut_within};
ghost use Rattle.flash_reader.specs.Fronts.{line_cut};
ghost use Rattle.flash_reader.specs.Remembered.{IsWanted, announced, wanted_with};

use crate::front::LINE_LIMIT;
use flash_commands::{Place, a_block_is_awaited};
use flash_meta::{MetaLine, is_meta, read_meta};
use flash_text::{Line, read_line};

/// How many bytes there are at least where a front of these bytes at a place is there, or 0 where it isn't known. The
/// first line has n bytes with its line feed.
pub fn wanted_after(item_max: u32, place: Place, bytes: &[u8], n: usize) -> usize
    requires within { (1 ≤ n) × (n ≤ LINE_LIMIT) × (n ≤ length bytes.now) }
    requires cut { line_cut bytes.now (Some n) ≡ cut_within LINE_LIMIT bytes.now }
    ensures wanted { IsWanted item_max place result bytes.now }
    ensures line { place ≡ places.InLine
        → result ≡ wanted_with n (announced (meaning_of item_max (take (n - 1) bytes.now))) }
{
    // The law does nothing: the call brings it into this function's proof.
    a_block_is_awaited();
    match place {
        Place::InLine => match block_size(item_max, bytes.split_at(n - 1).0) {
            None => 0,
            Some(size) => n + size + 2,
        },
        Place::InSkip | Place::AtQuit | Place::TooLong => 0,
    }
}

// How many bytes the block has that a line announces, given without its line feed, or `None` where it announces none.
fn block_size(item_max: u32, line: &[u8]) -> Option<usize>
    ensures size { result ≡ announced (meaning_of item_max line.now) }
    ensures bound { IfSome result (λ size. size < 2 ^ 32) }
{
    if is_meta(line) {
        meta_size(item_max, line)
    } else {
        text_size(item_max, line)
    }
}

// The same for a line of the text protocol.
fn text_size(item_max: u32, line: &[u8]) -> Option<usize>
    ensures size { result ≡ announced (text_meaning (line_of item_max line.now)) }
    ensures bound { IfSome result (λ size. size < 2 ^ 32) }
{
    match read_line(line, item_max) {
        Line::Data(_, size) => Some(size as usize),
        Line::Command(_) | Line::Bad(_, _) => None,
    }
}

// The same for a line of the meta protocol.
fn meta_size(item_max: u32, line: &[u8]) -> Option<usize>
    ensures size { result ≡ announced (meta_meaning (meta_of item_max line.now)) }
    ensures bound { IfSome result (λ size. size < 2 ^ 32) }
{
    match read_meta(line, item_max) {
        MetaLine::Data(_, size) => Some(size as usize),
        MetaLine::Command(_) | MetaLine::Bad(_, _) => None,
    }
}
