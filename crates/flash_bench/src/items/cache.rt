ghost use Rattle.std.specs.Prelude.{◌≡◌};
ghost use Rattle.std.specs.Option.{ForSome};
ghost use Rattle.flash_items.specs.Item.{IsSmall};
ghost use Rattle.flash_items.specs.ItemsState.{HasItem};

use super::Times;
use crate::keys::{key_bytes, visited};
use crate::timing::nanos_since;
use flash_items::{Body, Item, Items};
use flash_names::{ItemId, Key, Label, Place};
use std::alloc::{AllocError, Global};
use std::io;
use std::time::Instant;

// The number of bytes of which HOT and WARM have their shares. No card moves here.
const MEMORY: u64 = 4_294_967_296;

/// What so many keys took in the items.
pub fn times(rt: &HostRuntime, keys: u64) -> io::Result<Times> {
    let mut items = Items::open(rt.alloc(), MEMORY)?;
    let insert = time_inserts(rt, &mut items, keys)?;
    let (find, found) = time_finds(rt, &items, keys)?;
    let remove = time_removes(rt, &mut items, keys)?;
    Ok(Times {
        insert,
        find,
        remove,
        found,
    })
}

/// So many items, and the nanoseconds of the slowest of their inserts.
pub fn grown(rt: &HostRuntime, keys: u64) -> io::Result<(Items, u64)> {
    let mut items = Items::open(rt.alloc(), MEMORY)?;
    let mut slowest = 0;
    for number in 0..keys {
        let start = Instant::now(rt)?;
        store(rt.alloc(), &mut items, number)?;
        slowest = nanos_since(rt, start)?.max(slowest);
    }
    Ok((items, slowest))
}

fn time_inserts(rt: &HostRuntime, items: &mut Items, keys: u64) -> io::Result<u64> {
    let start = Instant::now(rt)?;
    for number in 0..keys {
        store(rt.alloc(), items, number)?;
    }
    nanos_since(rt, start)
}

// The nanoseconds, and how many keys were found.
fn time_finds(rt: &HostRuntime, items: &Items, keys: u64) -> io::Result<(u64, u64)> {
    let start = Instant::now(rt)?;
    let mut found = 0u64;
    for turn in 0..keys {
        found = found.wrapping_add(u64::from(has(items, visited(turn, keys))));
    }
    Ok((nanos_since(rt, start)?, found))
}

fn time_removes(rt: &HostRuntime, items: &mut Items, keys: u64) -> io::Result<u64> {
    let start = Instant::now(rt)?;
    for turn in 0..keys {
        take(items, visited(turn, keys));
    }
    nanos_since(rt, start)
}

// Stores the item of a number, where it isn't there.
fn store(alloc: Global, items: &mut Items, number: u64) -> Result<(), AllocError> {
    let Some(key) = Key::from_bytes(&key_bytes(number)) else {
        return Ok(());
    };
    if items.find(&key).is_some() {
        return Ok(());
    }
    items.reserve_one(alloc)?;
    let _ = items.insert(item_of(key));
    Ok(())
}

// An item of this key with its value on flash, so that the items alone are measured.
fn item_of(key: Key) -> Item
    ensures key { result.key ≡ key }
    ensures small { IsSmall result.body }
{
    let label = Label {
        page: 0,
        version: 1,
    };
    Item {
        key,
        flags: 0,
        cas: 1,
        deadline: None,
        fetched: false,
        access: 0,
        body: Body::Away(Place {
            label,
            offset: 0,
            length: 64,
        }),
    }
}

fn has(items: &Items, number: u64) -> bool {
    match Key::from_bytes(&key_bytes(number)) {
        Some(key) => items.find(&key).is_some(),
        None => false,
    }
}

fn take(items: &mut Items, number: u64) {
    let Some(key) = Key::from_bytes(&key_bytes(number)) else {
        return;
    };
    if let Some(id) = id_of(items, &key) {
        let _ = items.remove(id);
    }
}

// The id of a key's item, which is there.
fn id_of(items: &Items, key: &Key) -> Option<ItemId>
    ensures { ForSome result (HasItem items.now) }
{
    items.is_in_step();
    items.find(key)
}
