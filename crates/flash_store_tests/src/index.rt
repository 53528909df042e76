ghost use Rattle.std.specs.Prelude.{IfOk, IfSome};
ghost use Rattle.flash_items.specs.Item.{IsSmall};
ghost use Rattle.flash_index.specs.IndexState.{HasId};

use flash_index::{Index, MoveRule};
use flash_items::{Body, Item};
use flash_lru::Segment;
use flash_names::{Blob, ItemId, Key, Label, Place};
use std::alloc::{AllocError, Global};
use std::test::Fail;

// HOT may have 200 bytes, and WARM 400.
const MEMORY: u64 = 1000;

// What is done with a key of one byte.
#[derive(Clone, Copy)]
enum Act {
    // Puts a value of so many bytes under the key.
    Put(u8, u16),
    // Marks its item as active.
    Touch(u8),
    // Takes its item out.
    Remove(u8),
    // Makes the move that applies.
    Juggle,
}

// A value of so many bytes.
fn value_of(alloc: Global, length: u16) -> Result<Body, AllocError>
    ensures { IfOk result (λ body. IsSmall body) }
{
    let bytes = vec![in alloc; b'v'; length as usize]?;
    Ok(Body::Here(Blob::from_slice(alloc, &bytes)?))
}

// Puts an item of this body under the key.
fn put(index: &mut Index, alloc: Global, key: Key, body: Body) -> Result<(), AllocError>
    requires { IsSmall body }
{
    index.reserve_one(alloc)?;
    let id = index.find(&key);
    let item = Item {
        key,
        flags: 5,
        cas: 1,
        deadline: None,
        fetched: false,
        access: 0,
        body,
    };
    index.put(id, item);
    Ok(())
}

// The id of the key of this byte.
fn find(index: &Index, name: u8) -> Option<ItemId>
    ensures { IfSome result (λ id. HasId index.now id) }
{
    let key = Key::from_bytes(&[name])?;
    index.find(&key)
}

// Does the act, and answers whether a card moved from one list to another.
fn act_on(index: &mut Index, alloc: Global, act: Act) -> Result<bool, Fail> {
    match act {
        Act::Put(name, length) => {
            let key = Key::from_bytes(&[name]).ok_or("no key")?;
            put(index, alloc, key, value_of(alloc, length)?)?;
            Ok(false)
        }
        Act::Touch(name) => {
            index.touch(find(index, name).ok_or("no item")?);
            Ok(false)
        }
        Act::Remove(name) => {
            index.remove(find(index, name).ok_or("no item")?);
            Ok(false)
        }
        Act::Juggle => Ok(index.juggle_one()),
    }
}

// Whether the list of a segment has the keys of these bytes and no others, front first.
fn has_list(index: &Index, segment: Segment, names: &str) -> bool {
    let mut last = index.last_of(segment);
    for name in names.as_bytes().iter().rev() {
        let Some(id) = find(index, *name) else {
            return false;
        };
        if last != Some(id) {
            return false;
        }
        last = index.before(id);
    }
    last.is_none()
}

// What a row of the table says.
#[derive(Clone, Copy)]
struct Row {
    act: Act,
    moves: bool,
    hot: &'static str,
    warm: &'static str,
    cold: &'static str,
    load: u64,
}

// An act; whether a card moved; the keys of HOT, WARM and COLD after it, front first; and the load: 64 bytes for each
// item, one for its key, and those of its value.
fn expected(
    act: Act,
    moves: bool,
    hot: &'static str,
    warm: &'static str,
    cold: &'static str,
    load: u64,
) -> Row {
    Row {
        act,
        moves,
        hot,
        warm,
        cold,
        load,
    }
}

// The row of a number below 24.
fn row_at(number: u32) -> Row {
    match number {
        0 => expected(Act::Put(b'a', 35), false, "a", "", "", 100),
        1 => expected(Act::Put(b'b', 35), false, "ba", "", "", 200),
        2 => expected(Act::Juggle, false, "ba", "", "", 200),
        3 => expected(Act::Put(b'c', 0), false, "cba", "", "", 265),
        4 => expected(Act::Touch(b'a'), false, "cba", "", "", 265),
        5 => expected(Act::Juggle, true, "cb", "a", "", 265),
        6 => expected(Act::Put(b'b', 36), false, "bc", "a", "", 266),
        7 => expected(Act::Put(b'd', 0), false, "dbc", "a", "", 331),
        8 => expected(Act::Juggle, true, "db", "a", "c", 331),
        9 => expected(Act::Juggle, false, "db", "a", "c", 331),
        10 => expected(Act::Touch(b'c'), false, "db", "a", "c", 331),
        11 => expected(Act::Juggle, true, "db", "ca", "", 331),
        12 => expected(Act::Put(b'e', 270), false, "edb", "ca", "", 666),
        13 => expected(Act::Touch(b'b'), false, "edb", "ca", "", 666),
        14 => expected(Act::Juggle, true, "ed", "bca", "", 666),
        15 => expected(Act::Touch(b'd'), false, "ed", "bca", "", 666),
        16 => expected(Act::Juggle, true, "e", "dbca", "", 666),
        17 => expected(Act::Touch(b'e'), false, "e", "dbca", "", 666),
        18 => expected(Act::Juggle, true, "", "edbca", "", 666),
        19 => expected(Act::Juggle, true, "", "edbc", "a", 666),
        20 => expected(Act::Juggle, true, "", "edb", "ca", 666),
        21 => expected(Act::Juggle, true, "", "ed", "bca", 666),
        22 => expected(Act::Juggle, false, "", "ed", "bca", 666),
        _ => expected(Act::Remove(b'c'), false, "", "ed", "ba", 601),
    }
}

#[test]
fn keeps_the_lists(rt: HostRuntime) -> Result<(), Fail> {
    let mut index = Index::open(rt.alloc(), MEMORY)?;
    assert!(rt; index.is_empty());
    assert_eq!(rt; index.last_out(), None);
    for number in 0..24 {
        let row = row_at(number);
        assert_eq!(rt; act_on(&mut index, rt.alloc(), row.act)?, row.moves);
        assert!(rt; has_list(&index, Segment::Hot, row.hot));
        assert!(rt; has_list(&index, Segment::Warm, row.warm));
        assert!(rt; has_list(&index, Segment::Cold, row.cold));
        assert_eq!(rt; index.load(), row.load);
    }
    index.is_listed();
    assert_eq!(rt; index.len(), 4);
    assert_eq!(rt; index.last_out(), find(&index, b'a'));
    assert_eq!(rt; find(&index, b'c'), None);
    Ok(())
}

// A body on flash.
fn on_flash() -> Body
    ensures { IsSmall result }
{
    let label = Label {
        page: 0,
        version: 1,
    };
    Body::Away(Place {
        label,
        offset: 0,
        length: 64,
    })
}

// Whether the item of the key, fetched at moment 8 and dead from 9 on, is lent so.
fn is_lent(index: &mut Index, key: &Key) -> bool {
    match index.find(key) {
        None => return false,
        Some(id) => index.set_use(id, Some(9), true, 8),
    }
    let Some(id) = index.find(key) else {
        return false;
    };
    let view = index.item(id);
    let is_used = view.parts.deadline == Some(9) && view.parts.fetched && view.parts.access == 8;
    is_used && view.parts.flags == 5 && view.key == key.bytes()
}

// Whether an item on flash is lent under the key, and takes 64 bytes and those of its key.
fn is_light(alloc: Global, key: &Key) -> Result<bool, AllocError> {
    let mut index = Index::open(alloc, MEMORY)?;
    put(&mut index, alloc, key.copy(), on_flash())?;
    Ok(is_lent(&mut index, key) && index.load() == 67)
}

#[test]
fn lends_an_item(rt: HostRuntime) -> Result<(), Fail> {
    let key = Key::from_bytes(b"key").ok_or("no key")?;
    assert!(rt; is_light(rt.alloc(), &key)?);
    Ok(())
}

// Moves the value of the item of this id to flash, and answers whether it was in memory.
fn is_moved(index: &mut Index, id: ItemId) -> bool
    requires { HasId index.old id }
{
    let view = index.item(id);
    let Body::Here(value) = &view.parts.body else {
        return false;
    };
    let length = view
        .key
        .len()
        .saturating_add(value.bytes().len())
        .saturating_add(32);
    if length > 1000 {
        return false;
    }
    let label = Label {
        page: 0,
        version: 1,
    };
    index.move_away(
        id,
        Place {
            label,
            offset: 0,
            length: length as u32,
        },
    );
    true
}

// Whether an item of this key, of 35 value bytes, moves to flash once, and takes 64 bytes and those of its key then.
fn moves_once(alloc: Global, key: Key) -> Result<bool, AllocError> {
    let rule = MoveRule {
        moment: 0,
        flush_mark: 0,
        least: 35,
        most: 70,
    };
    let mut index = Index::open(alloc, MEMORY)?;
    put(&mut index, alloc, key, value_of(alloc, 35)?)?;
    let Some(id) = index.next_to_move(&rule) else {
        return Ok(false);
    };
    let is_moved = is_moved(&mut index, id);
    Ok(is_moved && index.next_to_move(&rule).is_none() && index.load() == 67)
}

#[test]
fn moves_an_item(rt: HostRuntime) -> Result<(), Fail> {
    let key = Key::from_bytes(b"key").ok_or("no key")?;
    assert!(rt; moves_once(rt.alloc(), key)?);
    Ok(())
}
