// What a store chooses to do with a value, before it changes anything.
ghost use Rattle.std.specs.Prelude.{◌≡◌, ℕ, ◌+◌, ◌<◌, ◌≤◌, ◌^◌, ◌++◌, List, None, false, IsNone, IfOk, length, nat_lt};
ghost use Rattle.std.specs.Option.{ForSome, option_copied};
ghost use Rattle.flash_index.specs.Known.{known_value, known_item, label_of};
ghost use Rattle.flash_index.specs.Places.{place_of};
ghost use Rattle.flash_machine.specs.Cache.{Items};
ghost use Rattle.flash_machine.specs.Moments.{deadline};
ghost use Rattle.flash_machine.specs.Storing.{can_join, mode_fails, compare_refusal, stored_value, stored_item, refusal};
ghost use Rattle.flash_core.specs.Items.{HasDeadline, known_live};
ghost use Rattle.flash_core.specs.Choice.{choice_of, parts_of_choice};
ghost use Rattle.flash_core.specs.Numbers.{cache_of_items};

use crate::numbers::Numbers;
use flash_entry::{Mode, Put, Stored};
use flash_items::{Body, Item, Parts};
use flash_names::{Blob, Geometry};
use std::alloc::{AllocError, Global};

/// The last CAS number that is given out.
pub const LAST_NUMBER: u64 = 1 << 63;

// Seconds up to which an exptime counts from now: thirty days.
const THIRTY_DAYS: u64 = 2_592_000;

// The answer, the item that is stored if one is, and the last CAS number from then on.
#[derive(Drop)]
pub struct Choice {
    pub answer: Stored,
    pub item: Option<Item>,
    pub last_cas: u64,
}

// What a store does with a value, by the live item under its key. It takes the memory of the new value.
pub fn choose(
    alloc: Global,
    geometry: &Geometry,
    numbers: &Numbers,
    put: &Put,
    live: Option<&Parts>,
) -> Result<Choice, AllocError>
    requires moment { numbers.now.moment ≤ 2 ^ 62 }
    ensures chosen { IfOk result (λ choice. (items : Items) → parts_of_choice choice
        ≡ choice_of geometry.now (cache_of_items items numbers.now) put.now
        (known_live put.now.key (option_copied live.entry))) }
    ensures deadline { HasDeadline (deadline put.now.exptime numbers.now.moment) }
    ensures key { IfOk result (λ choice. ForSome choice.item (λ item. item.key ≡ put.now.key)) }
    ensures fits { IfOk result (λ choice. ForSome choice.item (λ item.
        (length (known_value 0 item.body) ≤ geometry.now.item_max) × (place_of item.body ≡ None))) }
{
    let expires = deadline_of(put.exptime, numbers.moment);
    match refusal_of(geometry, numbers.last_cas, put, live) {
        Some(answer) => Ok(Choice {
            answer,
            item: None,
            last_cas: numbers.last_cas,
        }),
        None => {
            let cas = numbers.last_cas + 1;
            let item = new_item(alloc, numbers.moment, cas, expires, put, live)?;
            Ok(Choice {
                answer: Stored::Stored(cas),
                item: Some(item),
                last_cas: cas,
            })
        }
    }
}

// Why the value isn't stored, if it isn't.
fn refusal_of(geometry: &Geometry, last_cas: u64, put: &Put, live: Option<&Parts>) -> Option<Stored>
    ensures exact { (items : Items) (numbers : Numbers) → numbers.last_cas ≡ last_cas
        → result ≡ refusal geometry.now (cache_of_items items numbers) put.now
        (known_live put.now.key (option_copied live.entry)) }
    ensures room { IsNone result → last_cas < 2 ^ 63 }
    ensures mode { IsNone result → mode_fails put.now.mode (known_live put.now.key (option_copied live.entry)) ≡ false }
    ensures fits { IsNone result
        → length (stored_value put.now put.now.mode (known_live put.now.key (option_copied live.entry)))
        ≤ geometry.now.item_max }
{
    if mode_fails(put.mode, live) {
        return Some(Stored::NotStored);
    }
    if let Some(answer) = compare_refusal(put.compare, live) {
        return Some(answer);
    }
    if is_too_large(geometry.item_max, put, live) {
        return Some(Stored::TooLarge);
    }
    if last_cas >= LAST_NUMBER {
        return Some(Stored::NoNumber);
    }
    None
}

// Whether the mode's condition fails.
fn mode_fails(mode: Mode, live: Option<&Parts>) -> bool
    ensures { (key : List ℕ) → result ≡ mode_fails mode (known_live key (option_copied live.entry)) }
{
    match mode {
        Mode::Set => false,
        Mode::Add => live.is_some(),
        Mode::Replace => live.is_none(),
        Mode::Append | Mode::Prepend => !can_join(live),
    }
}

// Whether a value can be joined to the item: there is one, and its value is in memory.
fn can_join(live: Option<&Parts>) -> bool
    ensures { (key : List ℕ) → result ≡ can_join (known_live key (option_copied live.entry)) }
{
    match live {
        None => false,
        Some(parts) => matches!(&parts.body, Body::Here(_)),
    }
}

// The refusal by a CAS number that was given.
fn compare_refusal(compare: Option<u64>, live: Option<&Parts>) -> Option<Stored>
    ensures { (key : List ℕ) → result ≡ compare_refusal compare (known_live key (option_copied live.entry)) }
{
    match (compare, live) {
        (None, _) => None,
        (Some(_), None) => Some(Stored::NotFound),
        (Some(cas), Some(parts)) => {
            if parts.cas == cas {
                None
            } else {
                Some(Stored::Exists)
            }
        }
    }
}

// The bytes of a value that is in memory.
pub fn value_here(parts: &Parts) -> &[u8]
    ensures { label_of parts.now.body ≡ None
        → (key_length : ℕ) → result.now ≡ known_value key_length parts.now.body }
{
    match &parts.body {
        Body::Here(value) => value.bytes(),
        Body::Away(_) => &[],
    }
}

// The value that is stored, in two parts: the item's and the command's in the order of the mode, else the
// command's and nothing.
fn joined<'a>(put: &'a Put, live: Option<&'a Parts>) -> (&'a [u8], &'a [u8])
    requires { mode_fails put.now.mode (known_live put.now.key (option_copied live)) ≡ false }
    ensures { result.0.now ++ result.1.now
        ≡ stored_value put.now put.now.mode (known_live put.now.key (option_copied live.entry)) }
{
    match (put.mode, live) {
        (Mode::Append, Some(parts)) => (value_here(parts), put.value.bytes()),
        (Mode::Prepend, Some(parts)) => (put.value.bytes(), value_here(parts)),
        _ => (put.value.bytes(), &[]),
    }
}

// Whether the value that is stored is longer than it may be.
fn is_too_large(item_max: u32, put: &Put, live: Option<&Parts>) -> bool
    requires { mode_fails put.now.mode (known_live put.now.key (option_copied live)) ≡ false }
    ensures { result ≡ nat_lt item_max
        (length (stored_value put.now put.now.mode (known_live put.now.key (option_copied live.entry)))) }
{
    let (front, back) = joined(put, live);
    front.len().saturating_add(back.len()) > item_max as usize
}

// The item that is stored under this CAS number, in memory of its own. `expires` is the command's deadline.
fn new_item(
    alloc: Global,
    now: u64,
    cas: u64,
    expires: Option<u64>,
    put: &Put,
    live: Option<&Parts>,
) -> Result<Item, AllocError>
    requires mode { mode_fails put.now.mode (known_live put.now.key (option_copied live)) ≡ false }
    requires expires { expires ≡ deadline put.now.exptime now }
    ensures key { IfOk result (λ item. item.key ≡ put.now.key) }
    ensures item { IfOk result (λ item. (items : Items) (numbers : Numbers) → numbers.moment ≡ now
        → cas ≡ numbers.last_cas + 1 → known_item item ≡ stored_item (cache_of_items items numbers) put.now put.now.mode
        (known_live put.now.key (option_copied live.entry))) }
    ensures here { IfOk result (λ item. place_of item.body ≡ None) }
    ensures value { IfOk result (λ item. known_value 0 item.body
        ≡ stored_value put.now put.now.mode (known_live put.now.key (option_copied live.entry))) }
{
    let (front, back) = joined(put, live);
    let value = concatenated(alloc, front, back)?;
    let (flags, deadline) = flags_and_deadline(expires, put, live);
    Ok(Item {
        key: put.key.copy(),
        flags,
        cas,
        deadline,
        fetched: false,
        access: now,
        body: Body::Here(value),
    })
}

// The two parts in memory of their own.
fn concatenated(alloc: Global, front: &[u8], back: &[u8]) -> Result<Blob, AllocError>
    ensures { IfOk result (λ blob. blob ≡ front.now ++ back.now) }
{
    let mut bytes = Vec::with_capacity(alloc, front.len().saturating_add(back.len()))?;
    bytes.extend_from_slice(front)?;
    bytes.extend_from_slice(back)?;
    Ok(Blob::from(bytes))
}

// The flags and the deadline of the item that is stored: those of the item that a value is joined to, and
// else those of the command.
fn flags_and_deadline(expires: Option<u64>, put: &Put, live: Option<&Parts>) -> (u32, Option<u64>)
    ensures { (items : Items) (numbers : Numbers) → expires ≡ deadline put.now.exptime numbers.moment
        → let item = stored_item (cache_of_items items numbers) put.now put.now.mode
        (known_live put.now.key (option_copied live.entry)) in
        (result.0 ≡ item.flags) × (result.1 ≡ item.deadline) }
{
    match (put.mode, live) {
        (Mode::Append | Mode::Prepend, Some(parts)) => (parts.flags, parts.deadline),
        _ => (put.flags, expires),
    }
}

// The deadline of an exptime at this moment (memcached's doc/protocol.txt, "Expiration times").
pub fn deadline_of(exptime: i64, now: u64) -> Option<u64>
    requires { now ≤ 2 ^ 62 }
    ensures exact { result ≡ deadline exptime now }
    ensures below { HasDeadline result }
{
    let Ok(seconds) = u64::try_from(exptime) else {
        return Some(0);
    };
    if seconds == 0 {
        return None;
    }
    Some(if seconds <= THIRTY_DAYS {
        now + seconds
    } else {
        seconds
    })
}
