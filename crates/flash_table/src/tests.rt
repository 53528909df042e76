ghost use Rattle.std.specs.Prelude.{◌≤◌, length};

use super::*;
use flash_names::{ItemId, Key};
use std::alloc::{AllocError, Global};
use std::test::Fail;

// Puts the key of a number in with an item, where it isn't there, after its memory is taken.
fn put(table: &mut Table, alloc: Global, number: u32, item: u32) -> Result<(), AllocError> {
    table.reserve_one(alloc)?;
    let Some(key) = Key::from_bytes(&number.to_be_bytes()) else {
        return Ok(());
    };
    match table.find(&key) {
        Some(_) => {}
        None => {
            let item_number = item as usize;
            let _ = table.insert(&key, ItemId { key: item_number });
        }
    }
    Ok(())
}

// The item of the key of a number.
fn item_of(table: &Table, number: u32) -> Option<usize> {
    let key = Key::from_bytes(&number.to_be_bytes())?;
    table.find(&key).map(|item| item.key)
}

// Takes the key of a number away.
fn take_away(table: &mut Table, number: u32) -> Option<usize> {
    let key = Key::from_bytes(&number.to_be_bytes())?;
    table.remove(&key).map(|item| item.key)
}

// 200 keys have 15 homes, and the homes stay when 100 keys are taken away.
#[test]
fn grows_to_fifteen_homes(rt: HostRuntime) -> Result<(), Fail> {
    let mut table = Table::open(rt.alloc())?;
    for number in 0..200 {
        put(&mut table, rt.alloc(), number, number)?;
    }
    assert_eq!(rt; table.homes(), 15);
    for number in 0..200 {
        assert_eq!(rt; item_of(&table, number), Some(number as usize));
    }
    for number in 0..100 {
        assert_eq!(rt; take_away(&mut table, number), Some(number as usize));
    }
    for number in 0..200 {
        assert_eq!(rt; item_of(&table, number).is_some(), number >= 100);
    }
    assert_eq!(rt; table.homes(), 15);
    Ok(())
}

// A key's number and its item.
#[derive(Clone, Copy)]
struct Pair {
    number: u32,
    item: u32,
}

// The item of the key of a number among pairs in the order of the keys.
fn item_among(pairs: &[Pair], number: u32) -> Option<usize> {
    for pair in pairs {
        if pair.number == number {
            return Some(pair.item as usize);
        }
    }
    None
}

// Where the pair of a number stands, or would stand.
fn place_among(pairs: &[Pair], number: u32) -> usize
    ensures { result ≤ length pairs.now }
{
    pairs.iter().filter(|pair| pair.number < number).count()
}

// Puts a pair in its place, where its key isn't there.
fn put_among(pairs: &mut Vec<Pair>, pair: Pair) -> Result<(), AllocError> {
    if item_among(pairs, pair.number).is_none() {
        let place = place_among(pairs, pair.number);
        pairs.insert(place, pair)?;
    }
    Ok(())
}

// Takes the pair of a number out.
fn take_among(pairs: &mut Vec<Pair>, number: u32) -> Option<usize> {
    let item = item_among(pairs, number)?;
    let place = place_among(pairs, number);
    if place < pairs.len() {
        pairs.remove(place);
    }
    Some(item)
}

// The table finds and takes what a vector of pairs in the order of the keys does, over calls of no pattern.
#[test]
fn finds_what_a_vector_finds(rt: HostRuntime) -> Result<(), Fail> {
    let mut table = Table::open(rt.alloc())?;
    let mut pairs = Vec::new(rt.alloc());
    for step in 0..150u32 {
        let number = step.wrapping_mul(2_654_435_761) >> 26;
        if step % 3 == 2 {
            let taken = take_away(&mut table, number);
            assert_eq!(rt; taken, take_among(&mut pairs, number));
        } else {
            put(&mut table, rt.alloc(), number, step)?;
            put_among(&mut pairs, Pair { number, item: step })?;
        }
        assert_eq!(rt; item_of(&table, number), item_among(&pairs, number));
    }
    for number in 0..64 {
        assert_eq!(rt; item_of(&table, number), item_among(&pairs, number));
    }
    Ok(())
}
