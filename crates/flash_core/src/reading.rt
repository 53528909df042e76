// What a lookup tells of the item that it found.
ghost use Rattle.std.specs.Prelude.{◌≡◌, ◌^◌, ◌≤◌, ◌++◌, length, false, IfOk, IsOk};
ghost use Rattle.std.specs.Option.{ForSome, option_copied};
ghost use Rattle.flash_entry.specs.Noted.{entry_if};
ghost use Rattle.flash_index.specs.Known.{known_parts, known_value};
ghost use Rattle.flash_machine.specs.Cache.{Items};
ghost use Rattle.flash_machine.specs.Looking.{head_of_item};
ghost use Rattle.flash_calls.specs.Lookups.{value_in};
ghost use Rattle.flash_core.specs.Items.{HasDeadline, IsKey, IsShown, known_live};
ghost use Rattle.flash_core.specs.Numbers.{cache_of_items};
ghost use Rattle.flash_core.specs.Reading.{found_in, bytes_at, place_live, entries_of_buffer};

use crate::look::{left_of, renewed_at};
use crate::numbers::Numbers;
use flash_blocks::Blocks;
use flash_calls::Found;
use flash_entry::{CloseNote, Head, Hit, Look, Note};
use flash_items::{Body, Parts};
use flash_names::{Blob, Id, Key, Place};
use std::alloc::{AllocError, Global};

// How many bytes of numbers are in front of a record's key.
const HEAD: usize = 28;

// How many bytes the checksum has that is behind a record's value.
const CHECKSUM: usize = 4;

// What is noted of a value that was read from a write buffer: the record's place, and how the lookup was closed.
#[derive(Drop)]
pub struct BufferNotes<'a> {
    pub from_buffer: Option<Note<'a>>,
    pub closed: Option<Note<'a>>,
}

// What is told of the live item, with a copy of its value where it is wanted and is in memory or in a write buffer.
pub fn found_at(
    alloc: Global,
    blocks: &Blocks,
    moment: u64,
    key: &Key,
    live: Option<&Parts>,
    look: Look,
) -> Result<Found, AllocError>
    requires moment { moment ≤ 2 ^ 62 }
    requires named { IsKey key.now }
    requires shown { ForSome (option_copied live) (IsShown (length key.now)) }
    ensures sure { look.value ≡ false → IsOk result }
    ensures found { IfOk result (λ found. (items : Items) (numbers : Numbers) → numbers.moment ≡ moment
        → found ≡ found_in (cache_of_items items numbers) blocks.now.buffers key.now look (option_copied live.entry)) }
{
    let Some(parts) = live else {
        return Ok(Found::Miss);
    };
    let head = head_of(moment, key, parts, look.renew);
    if !look.value {
        return Ok(Found::Head(head));
    }
    match value_at(blocks, key, parts) {
        None => Ok(Found::Away(head)),
        Some(value) => {
            let value = Blob::from_slice(alloc, value)?;
            Ok(Found::Here(Hit { head, value }))
        }
    }
}

// What is told of an item without its value: the deadline after the lookup, and the rest from before it.
fn head_of(moment: u64, key: &Key, parts: &Parts, renew: Option<i64>) -> Head
    requires moment { moment ≤ 2 ^ 62 }
    requires named { IsKey key.now }
    requires shown { IsShown (length key.now) parts.now }
    ensures { (items : Items) (numbers : Numbers) (look : Look) → numbers.moment ≡ moment → look.renew ≡ renew
        → result ≡ head_of_item (cache_of_items items numbers) look (known_parts (length key.now) parts.now) }
{
    Head {
        flags: parts.flags,
        cas: parts.cas,
        size: size_of(key, parts),
        left: left_of(renewed_at(moment, parts.deadline, renew), moment),
        before: parts.fetched,
        idle: moment.saturating_sub(parts.access),
    }
}

// How many bytes the value has, in memory or on flash.
fn size_of(key: &Key, parts: &Parts) -> u32
    requires named { IsKey key.now }
    requires shown { IsShown (length key.now) parts.now }
    ensures { result ≡ length (known_value (length key.now) parts.now.body) }
{
    match &parts.body {
        Body::Here(value) => value.bytes().len() as u32,
        Body::Away(place) => place
            .length
            .saturating_sub((HEAD + CHECKSUM + key.bytes().len()) as u32),
    }
}

// The value's bytes, where they are in memory or in a write buffer.
fn value_at<'a>(blocks: &'a Blocks, key: &Key, parts: &'a Parts) -> Option<&'a [u8]>
    requires { IsKey key.now }
    ensures { option_copied result ≡ bytes_at blocks.now.buffers (length key.now) parts.now.body }
{
    match &parts.body {
        Body::Here(value) => Some(value.bytes()),
        Body::Away(place) => match blocks.read(*place) {
            None => None,
            Some(bytes) => Some(value_in(key, bytes)),
        },
    }
}

// The value in the bytes of a record.
fn value_in<'a>(key: &Key, bytes: &'a [u8]) -> &'a [u8]
    requires { IsKey key.now }
    ensures { result.now ≡ value_in (length key.now) bytes.now }
{
    let front = HEAD + key.bytes().len();
    let back = bytes.len().saturating_sub(CHECKSUM);
    bytes.get(front..back).unwrap_or(&[])
}

// What is noted of the value, where it was read from a write buffer.
pub fn notes_of_buffer<'a>(id: Id, live: Option<&Parts>, found: &'a Found) -> BufferNotes<'a>
    ensures { entry_if result.from_buffer ++ entry_if result.closed
        ≡ entries_of_buffer id (option_copied live.entry) found.now }
{
    match (place_of(live), found) {
        (Some(place), Found::Here(hit)) => BufferNotes {
            from_buffer: Some(Note::FromBuffer(id, place)),
            closed: Some(Note::Closed(id, CloseNote::Hit(hit))),
        },
        _ => BufferNotes {
            from_buffer: None,
            closed: None,
        },
    }
}

// The place of the live item's value, where it is on flash.
fn place_of(live: Option<&Parts>) -> Option<Place>
    ensures { result ≡ place_live (option_copied live.entry) }
{
    match live {
        None => None,
        Some(parts) => match &parts.body {
            Body::Here(_) => None,
            Body::Away(place) => Some(*place),
        },
    }
}
