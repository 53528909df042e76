ghost use Rattle.std.specs.Prelude.{◌≡◌, ℕ, ◌≤◌, ◌<◌, ◌+◌, ◌^◌, List, [], ◌∷◌, take, drop, length, nat_lt, None, Some, IfSome, IsNone, if◌then◌else◌};
ghost use Rattle.flash_text.specs.declared.text.Refusal.TheVariants.{BadChunk};
ghost use Rattle.flash_text.specs.Lines.{line_of};
ghost use Rattle.flash_meta.specs.MetaLines.{meta_of};
ghost use Rattle.flash_commands.specs.declared.place.Place.TheVariants as places;
ghost use Rattle.flash_commands.specs.Parts as parts;
ghost use Rattle.flash_commands.specs.Meanings.{meaning_of, plain_of, text_meaning, meta_meaning};
ghost use Rattle.flash_commands.specs.Commands.{cut_within, line_front, skip_front, front_of, with_meaning, with_block};
ghost use Rattle.flash_names.specs.Cut.{cut_at};
ghost use Rattle.flash_reader.specs.Fronts.{front_said, line_cut};
ghost use Rattle.flash_reader.specs.Remembered.{IsScanned};
ghost use Rattle.flash_reader.specs.declared.front.TheConstants.{LINE_LIMIT};

use flash_commands::Place;
use flash_meta::{MetaLine, is_meta, read_meta};
use flash_names::cut_at_byte;
use flash_reply::Command;
use flash_text::{Line, Refusal, Text, Verb, read_line};

/// How many bytes a line may have, with its line feed.
pub const LINE_LIMIT: usize = 65_536;

/// What is asked by a front of the bytes.
#[derive(Debug, Drop)]
pub enum Asked<'a> {
    /// A command, with the block of data that follows its line; the block is empty where none does.
    Asks(Command<'a>, &'a [u8]),
    /// A line or a block that is refused.
    Refused(Refusal),
    /// Nothing: bytes that are skipped, `quit`, or too long a line.
    Nothing,
}

/// The front of a reader's unread bytes.
#[derive(Debug, Drop)]
pub struct Front<'a> {
    /// What is asked.
    pub asked: Asked<'a>,
    /// How many bytes the front has; they may not all be there yet after a refusal.
    pub bytes: usize,
    /// The place after them.
    pub next: Place,
}

/// The front of the bytes at a place, or `None` where more bytes are needed, or none is read any more. Of the first
/// bytes so many are known to have no line feed.
pub fn read_front(item_max: u32, place: Place, bytes: &[u8], scanned: usize) -> Option<Front<'_>>
    requires { IsScanned scanned bytes.now }
    ensures { front_said result ≡ front_of item_max LINE_LIMIT place bytes.now }
{
    match place {
        Place::InLine => read_line_front(item_max, bytes, scanned),
        Place::InSkip => skip_front(bytes, scanned),
        Place::AtQuit | Place::TooLong => None,
    }
}

// The bytes in which a line has to end.
fn window(bytes: &[u8]) -> &[u8]
    ensures front { result.now ≡ take LINE_LIMIT bytes.now }
    ensures limit { length result.now ≤ LINE_LIMIT }
    ensures within { length result.now ≤ length bytes.now }
{
    if bytes.len() < LINE_LIMIT {
        bytes
    } else {
        bytes.split_at(LINE_LIMIT).0
    }
}

/// The length of the line at the front, with its line feed, where one is there. Of the first bytes so many are known to
/// have no line feed.
pub fn line_length(bytes: &[u8], scanned: usize) -> Option<usize>
    requires { IsScanned scanned bytes.now }
    ensures within { IfSome result (λ n. (1 ≤ n) × (n ≤ LINE_LIMIT) × (n ≤ length bytes.now)) }
    ensures cut { line_cut bytes.now result ≡ cut_within LINE_LIMIT bytes.now }
    ensures feedless { IsNone result → cut_at 10 (take LINE_LIMIT bytes.now) ≡ None }
{
    match cut_at_byte(b'\n', window(bytes).split_at(scanned).1) {
        None => None,
        Some((line, _)) => Some(scanned + line.len() + 1),
    }
}

// The front where a line is next.
fn read_line_front(item_max: u32, bytes: &[u8], scanned: usize) -> Option<Front<'_>>
    requires { IsScanned scanned bytes.now }
    ensures { front_said result ≡ line_front item_max LINE_LIMIT (cut_within LINE_LIMIT bytes.now) }
{
    let Some(n) = line_length(bytes, scanned) else {
        return without_feed(bytes.len());
    };
    let (line, behind) = bytes.split_at(n);
    meaning_front(item_max, line.split_at(n - 1).0, n, behind)
}

// The front where bytes are skipped up to a line feed.
fn skip_front(bytes: &[u8], scanned: usize) -> Option<Front<'_>>
    requires { IsScanned scanned bytes.now }
    ensures { (item_max : ℕ) → front_said result ≡ skip_front item_max LINE_LIMIT (cut_within LINE_LIMIT bytes.now) }
{
    match line_length(bytes, scanned) {
        None => without_feed(bytes.len()),
        Some(n) => Some(nothing(n, Place::InLine)),
    }
}

// The front of so many bytes without a line feed.
fn without_feed<'a>(count: usize) -> Option<Front<'a>>
    ensures { front_said result
        ≡ (if nat_lt count LINE_LIMIT then parts.Rest else parts.Takes [] LINE_LIMIT places.TooLong) }
{
    if count < LINE_LIMIT {
        None
    } else {
        Some(nothing(LINE_LIMIT, Place::TooLong))
    }
}

// A front that asks nothing.
fn nothing<'a>(bytes: usize, next: Place) -> Front<'a>
    ensures { front_said (Some result) ≡ parts.Takes [] bytes next }
{
    Front {
        asked: Asked::Nothing,
        bytes,
        next,
    }
}

// A line of n bytes with its line feed, which is given without it, and the bytes after it.
fn meaning_front<'a>(item_max: u32, line: &'a [u8], n: usize, behind: &'a [u8]) -> Option<Front<'a>>
    requires { n ≤ LINE_LIMIT }
    ensures { front_said result ≡ with_meaning (meaning_of item_max line.now) n behind.now }
{
    if is_meta(line) {
        meta_front(item_max, line, n, behind)
    } else {
        text_front(item_max, line, n, behind)
    }
}

// A line of the text protocol.
fn text_front<'a>(item_max: u32, line: &'a [u8], n: usize, behind: &'a [u8]) -> Option<Front<'a>>
    requires { n ≤ LINE_LIMIT }
    ensures { front_said result ≡ with_meaning (text_meaning (line_of item_max line.now)) n behind.now }
{
    match read_line(line, item_max) {
        Line::Command(text) => Some(plain_front(text, n)),
        Line::Data(text, size) => block_front(Command::Text(text), n, size as usize, behind),
        Line::Bad(refusal, skip) => Some(refused_front(refusal, n + skip as usize)),
    }
}

// A line of the meta protocol.
fn meta_front<'a>(item_max: u32, line: &'a [u8], n: usize, behind: &'a [u8]) -> Option<Front<'a>>
    requires { n ≤ LINE_LIMIT }
    ensures { front_said result ≡ with_meaning (meta_meaning (meta_of item_max line.now)) n behind.now }
{
    match read_meta(line, item_max) {
        MetaLine::Command(meta) => Some(command_front(Command::Meta(meta), n)),
        MetaLine::Data(meta, size) => block_front(Command::Meta(meta), n, size as usize, behind),
        MetaLine::Bad(refusal, skip) => Some(refused_front(refusal, n + skip as usize)),
    }
}

// A line of the text protocol without data: a command, or the end.
fn plain_front(text: Text<'_>, n: usize) -> Front<'_>
    ensures { (behind : List ℕ) → front_said (Some result)
        ≡ with_meaning (plain_of text.entry.verb text.entry) n behind }
{
    match text.verb {
        Verb::Quit => nothing(n, Place::AtQuit),
        _ => command_front(Command::Text(text), n),
    }
}

// A command without data.
fn command_front(command: Command<'_>, n: usize) -> Front<'_>
    ensures { front_said (Some result) ≡ parts.Takes (parts.Asks command.entry [] ∷ []) n places.InLine }
{
    Front {
        asked: Asked::Asks(command, &[]),
        bytes: n,
        next: Place::InLine,
    }
}

// A refusal.
fn refused_front<'a>(refusal: Refusal, bytes: usize) -> Front<'a>
    ensures { front_said (Some result) ≡ parts.Takes (parts.Refused refusal ∷ []) bytes places.InLine }
{
    Front {
        asked: Asked::Refused(refusal),
        bytes,
        next: Place::InLine,
    }
}

// A command whose line has n bytes, and the bytes after it, which begin with its block.
fn block_front<'a>(
    command: Command<'a>,
    n: usize,
    size: usize,
    behind: &'a [u8],
) -> Option<Front<'a>>
    requires line { n ≤ LINE_LIMIT }
    requires block { size < 2 ^ 32 }
    ensures { front_said result ≡ with_block command.entry n size (take size behind.now) (drop size behind.now) }
{
    if behind.len() < size {
        return None;
    }
    let (block, end) = behind.split_at(size);
    match end {
        [a, b, ..] => Some(ended_front(command, n + size, block, *a == b'\r' && *b == b'\n')),
        _ => None,
    }
}

// A block whose end is there, and is `\r\n` or isn't.
fn ended_front<'a>(command: Command<'a>, bytes: usize, block: &'a [u8], ends: bool) -> Front<'a>
    requires { bytes < 2 ^ 34 }
    ensures { front_said (Some result)
        ≡ (if ends then parts.Takes (parts.Asks command.entry block.now ∷ []) (bytes + 2) places.InLine
        else parts.Takes (parts.Refused BadChunk ∷ []) bytes places.InSkip) }
{
    if ends {
        Front {
            asked: Asked::Asks(command, block),
            bytes: bytes + 2,
            next: Place::InLine,
        }
    } else {
        Front {
            asked: Asked::Refused(Refusal::BadChunk),
            bytes,
            next: Place::InSkip,
        }
    }
}
