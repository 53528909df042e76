ghost use Rattle.std.specs.Prelude.{◌≡◌, IfOk};
ghost use Rattle.flash_items.specs.declared.item.Item.{Item};
ghost use Rattle.flash_items.specs.Item.{IsSmall};
ghost use Rattle.flash_items.specs.ItemsState.{HasItem, IsAt};

use flash_items::{Body, Item, Items, Parts};
use flash_lru::Segment;
use flash_names::{Blob, ItemId, Key, Label, Place};
use std::alloc::{AllocError, Global};
use std::test::Fail;

// HOT and WARM are full with one item.
const MEMORY: u64 = 100;

// An item of this key, with the value "value".
fn item_of(alloc: Global, key: Key) -> Result<Item, AllocError>
    ensures key { IfOk result (λ item. item.key ≡ key) }
    ensures small { IfOk result (λ item. IsSmall item.body) }
{
    Ok(Item {
        key,
        flags: 5,
        cas: 1,
        deadline: None,
        fetched: false,
        access: 0,
        body: Body::Here(Blob::from_slice(alloc, b"value")?),
    })
}

// Items, and the id of one of them.
#[derive(Drop)]
struct Sample {
    items: Items,
    id: ItemId,
}

// The item of this key alone.
fn sample_of(alloc: Global, key: &Key) -> Result<Sample, AllocError>
    ensures there { IfOk result (λ sample. HasItem sample.items sample.id) }
    ensures named { IfOk result (λ sample. (was : Item) → IsAt sample.items sample.id was → was.key ≡ key.now) }
{
    let mut items = Items::open(alloc, MEMORY)?;
    items.reserve_one(alloc)?;
    let id = items.insert(item_of(alloc, key.copy())?);
    Ok(Sample { items, id })
}

// What `replace` gives back where another item takes the place of this key's.
fn replaced_parts(alloc: Global, key: &Key) -> Result<Parts, AllocError> {
    let mut sample = sample_of(alloc, key)?;
    let other = item_of(alloc, key.copy())?;
    Ok(sample.items.replace(sample.id, other))
}

#[test]
fn finds_an_item(rt: HostRuntime) -> Result<(), Fail> {
    let alloc = rt.alloc();
    let key = Key::from_bytes(b"first").ok_or("no key")?;
    let sample = sample_of(alloc, &key)?;
    assert_eq!(rt; sample.items.find(&key), Some(sample.id));
    assert_eq!(rt; sample.items.item(sample.id).parts.flags, 5);
    Ok(())
}

#[test]
fn removes_an_item(rt: HostRuntime) -> Result<(), Fail> {
    let alloc = rt.alloc();
    let key = Key::from_bytes(b"first").ok_or("no key")?;
    let mut sample = sample_of(alloc, &key)?;
    let parts = sample.items.remove(sample.id);
    assert_eq!(rt; parts.cas, 1);
    assert_eq!(rt; sample.items.find(&key), None);
    Ok(())
}

#[test]
fn counts_the_items(rt: HostRuntime) -> Result<(), Fail> {
    let alloc = rt.alloc();
    let key = Key::from_bytes(b"first").ok_or("no key")?;
    let sample = sample_of(alloc, &key)?;
    sample.items.is_in_step();
    assert_eq!(rt; sample.items.before(sample.id), None);
    assert_eq!(rt; sample.items.len(), 1);
    assert!(rt; !sample.items.is_empty());
    assert_eq!(rt; sample.items.load(), 74);
    Ok(())
}

#[test]
fn moves_a_card(rt: HostRuntime) -> Result<(), Fail> {
    let alloc = rt.alloc();
    let key = Key::from_bytes(b"first").ok_or("no key")?;
    let mut sample = sample_of(alloc, &key)?;
    sample.items.touch(sample.id);
    assert_eq!(rt; sample.items.juggle_one(), Some(sample.id));
    assert_eq!(rt; sample.items.last_of(Segment::Warm), Some(sample.id));
    assert_eq!(rt; sample.items.last_out(), Some(sample.id));
    Ok(())
}

#[test]
fn moves_a_value_away(rt: HostRuntime) -> Result<(), Fail> {
    let alloc = rt.alloc();
    let key = Key::from_bytes(b"first").ok_or("no key")?;
    let label = Label {
        page: 0,
        version: 1,
    };
    let place = Place {
        label,
        offset: 0,
        length: 64,
    };
    let mut sample = sample_of(alloc, &key)?;
    let was = sample.items.set_body(sample.id, Body::Away(place));
    assert!(rt; matches!(was, Body::Here(_)));
    assert_eq!(rt; sample.items.load(), 69);
    Ok(())
}

#[test]
fn marks_a_fetch(rt: HostRuntime) -> Result<(), Fail> {
    let alloc = rt.alloc();
    let key = Key::from_bytes(b"first").ok_or("no key")?;
    let mut sample = sample_of(alloc, &key)?;
    sample.items.set_use(sample.id, Some(9), true, 8);
    assert_eq!(rt; sample.items.len(), 1);
    Ok(())
}

#[test]
fn replaces_an_item(rt: HostRuntime) -> Result<(), Fail> {
    let key = Key::from_bytes(b"first").ok_or("no key")?;
    let parts = replaced_parts(rt.alloc(), &key)?;
    assert_eq!(rt; parts.cas, 1);
    Ok(())
}
