// The steps that store a value.
ghost use Rattle.std.specs.Prelude.{◌≡◌, ◌+◌, ◌<◌, ◌≤◌, ◌^◌, ◌++◌, None, Some, IsNone, IfOk, OnOk, OnErr, List, length};
ghost use Rattle.std.specs.Prelude.{nat_lt};
ghost use Rattle.std.specs.Option.{option_copied};
ghost use Rattle.flash_names.specs.declared.geometry.Geometry.{Geometry};
ghost use Rattle.flash_entry.specs.declared.entry.Entry.{Entry};
ghost use Rattle.flash_machine.specs.Cache.{Cache};
ghost use Rattle.flash_machine.specs.Item as spec;
ghost use Rattle.flash_machine.specs.Live.{live_item};
ghost use Rattle.flash_machine.specs.Storing.{can_join, mode_fails, compare_refusal, stored_value, stored_item};
ghost use Rattle.flash_machine.specs.Storing.{with_stored, refusal, store_step};
ghost use Rattle.flash_machine.specs.Same.{same_stored};
ghost use Rattle.flash_machine.specs.Followed.{FollowsCache, FollowsPages};

use crate::machine::cache_table::CacheTable;
use crate::machine::item::Item;
use crate::machine::moments::deadline_of;
use crate::machine::page_table::PageTable;
use flash_entry::{Mode, Put, Stored};
use flash_names::{Blob, Geometry, Key};
use std::alloc::{AllocError, Global};
use std::rc::Rc;

// The last CAS number that is given out.
pub const LAST_NUMBER: u64 = 1 << 63;

impl CacheTable {
    // Why the value isn't stored, if it isn't.
    fn refusal(&self, geometry: &Geometry, put: &Put, live: Option<&Item>) -> Option<Stored>
        ensures exact { (c : Cache) → FollowsCache self.now c
            → result ≡ refusal geometry.now c put.now (option_copied live.entry) }
        ensures room { IsNone result → self.now.last_cas < 2 ^ 63 }
    {
        if mode_fails(put.mode, live) {
            return Some(Stored::NotStored);
        }
        if let Some(answer) = compare_refusal(put.compare, live) {
            return Some(answer);
        }
        if is_too_large(geometry.item_max, put, live) {
            return Some(Stored::TooLarge);
        }
        if self.last_cas >= LAST_NUMBER {
            return Some(Stored::NoNumber);
        }
        None
    }

    // Whether the answer is that of the step.
    pub fn is_store_answer(
        &self,
        geometry: &Geometry,
        put: &Put,
        live: Option<&Item>,
        answer: Stored,
    ) -> bool
        ensures { (c : Cache) → FollowsCache self.now c
            → result ≡ same_stored answer (store_step geometry.now c put.now (option_copied live.entry)).0 }
    {
        match self.refusal(geometry, put, live) {
            Some(refusal) => is_same(answer, refusal),
            None => is_same(answer, Stored::Stored(self.last_cas.saturating_add(1))),
        }
    }

    // The item that is stored, in memory of its own.
    fn new_item(&self, alloc: Global, put: &Put, live: Option<&Item>) -> Result<Item, AllocError>
        ensures { IfOk result (λ item. (c : Cache) → FollowsCache self.now c
            → item ≡ stored_item c put.now put.now.mode (option_copied live.entry)) }
    {
        let (front, back) = joined(put, live);
        let value = Rc::new(alloc, concatenated(alloc, front, back)?)?;
        let (flags, deadline) = flags_and_deadline(self.moment, put, live);
        Ok(Item {
            value,
            flags,
            cas: self.last_cas.saturating_add(1),
            deadline,
            fetched: false,
            access: self.moment,
            label: None,
        })
    }

    // Puts an item with the next CAS number under the key.
    pub fn put_stored(&mut self, key: &Key, item: Item) -> Result<(), AllocError>
        ensures stored { OnOk result ((c : Cache) → FollowsCache self.old c → c.last_cas < 2 ^ 63
            → FollowsCache self.new (with_stored c key.now item)) }
        ensures refused { OnErr result ((c : Cache) → FollowsCache self.old c → FollowsCache self.new c) }
    {
        self.items.put(key, item)?;
        self.last_cas = self.last_cas.saturating_add(1);
        Ok(())
    }

    // The step.
    pub fn store(
        &mut self,
        alloc: Global,
        geometry: &Geometry,
        pages: &PageTable,
        put: &Put,
    ) -> Result<(), AllocError>
        ensures stored { OnOk result ((g : Geometry) (h : List Entry) (c : Cache) → FollowsPages pages.now g h
            → FollowsCache self.old c
            → FollowsCache self.new (store_step geometry.now c put.now (live_item h c put.now.key)).1) }
        ensures refused { OnErr result ((c : Cache) → FollowsCache self.old c → FollowsCache self.new c) }
    {
        let live = self.live(pages, &put.key);
        if self.refusal(geometry, put, live).is_some() {
            return Ok(());
        }
        let item = self.new_item(alloc, put, live)?;
        self.put_stored(&put.key, item)
    }
}

// Whether both answers are the same.
fn is_same(one: Stored, other: Stored) -> bool
    ensures { result ≡ same_stored one other }
{
    match (one, other) {
        (Stored::Stored(one), Stored::Stored(other)) => one == other,
        (Stored::NotStored, Stored::NotStored)
        | (Stored::Exists, Stored::Exists)
        | (Stored::NotFound, Stored::NotFound)
        | (Stored::TooLarge, Stored::TooLarge)
        | (Stored::NoNumber, Stored::NoNumber) => true,
        _ => false,
    }
}

// Whether a value can be joined to the item: there is one, and its value is in memory.
fn can_join(live: Option<&Item>) -> bool
    ensures { result ≡ can_join (option_copied live.entry) }
{
    match live {
        None => false,
        Some(item) => item.label.is_none(),
    }
}

// Whether the mode's condition fails.
fn mode_fails(mode: Mode, live: Option<&Item>) -> bool
    ensures { result ≡ mode_fails mode (option_copied live.entry) }
{
    match mode {
        Mode::Set => false,
        Mode::Add => live.is_some(),
        Mode::Replace => live.is_none(),
        Mode::Append | Mode::Prepend => !can_join(live),
    }
}

// The refusal by a CAS number that was given.
fn compare_refusal(compare: Option<u64>, live: Option<&Item>) -> Option<Stored>
    ensures { result ≡ compare_refusal compare (option_copied live.entry) }
{
    match (compare, live) {
        (None, _) => None,
        (Some(_), None) => Some(Stored::NotFound),
        (Some(cas), Some(item)) => {
            if item.cas() == cas {
                None
            } else {
                Some(Stored::Exists)
            }
        }
    }
}

// The value that is stored, in two parts: the item's and the command's in the order of the mode, else the
// command's and nothing.
fn joined<'a>(put: &'a Put, live: Option<&'a Item>) -> (&'a [u8], &'a [u8])
    ensures { result.0.now ++ result.1.now ≡ stored_value put.now put.now.mode (option_copied live.entry) }
{
    match (put.mode, live) {
        (Mode::Append, Some(item)) => (item.value(), put.value.bytes()),
        (Mode::Prepend, Some(item)) => (put.value.bytes(), item.value()),
        _ => (put.value.bytes(), &[]),
    }
}

// Whether the value that is stored is longer than it may be.
fn is_too_large(item_max: u32, put: &Put, live: Option<&Item>) -> bool
    ensures { result ≡ nat_lt item_max (length (stored_value put.now put.now.mode (option_copied live.entry))) }
{
    let (front, back) = joined(put, live);
    front.len().saturating_add(back.len()) > item_max as usize
}

// The two parts in memory of their own.
fn concatenated(alloc: Global, front: &[u8], back: &[u8]) -> Result<Blob, AllocError>
    ensures { IfOk result (λ blob. blob ≡ front.now ++ back.now) }
{
    let mut bytes = Vec::with_capacity(alloc, front.len().saturating_add(back.len()))?;
    bytes.extend_from_slice(front)?;
    bytes.extend_from_slice(back)?;
    Ok(Blob::from(bytes))
}

// The flags and the deadline of the item that is stored: those of the item that a value is joined to, and
// else those of the command.
fn flags_and_deadline(now: u64, put: &Put, live: Option<&Item>) -> (u32, Option<u64>)
    ensures { (c : Cache) → c.now ≡ now → now ≤ 2 ^ 62
        → let item = stored_item c put.now put.now.mode (option_copied live.entry) in
        (result.0 ≡ item.flags) × (result.1 ≡ item.deadline) }
{
    match (put.mode, live) {
        (Mode::Append | Mode::Prepend, Some(item)) => (item.flags, item.deadline),
        _ => (put.flags, deadline_of(put.exptime, now)),
    }
}
