use super::Times;
use crate::keys::{KEY_LEN, key_bytes, visited};
use crate::timing::nanos_since;
use std::collections::HashMap;
use std::io;
use std::time::Instant;

/// What so many keys took in a map of the standard library.
pub fn times(rt: &HostRuntime, keys: u64) -> io::Result<Times> {
    let mut map = HashMap::new(rt.alloc());
    let insert = time_inserts(rt, &mut map, keys)?;
    let (find, found) = time_finds(rt, &map, keys)?;
    let remove = time_removes(rt, &mut map, keys)?;
    Ok(Times {
        insert,
        find,
        remove,
        found,
    })
}

/// The nanoseconds of the slowest of so many inserts.
pub fn slowest_insert(rt: &HostRuntime, keys: u64) -> io::Result<u64> {
    let mut map = HashMap::new(rt.alloc());
    let mut slowest = 0;
    for number in 0..keys {
        let start = Instant::now(rt)?;
        map.insert(key_bytes(number), number)?;
        slowest = nanos_since(rt, start)?.max(slowest);
    }
    Ok(slowest)
}

fn time_inserts(
    rt: &HostRuntime,
    map: &mut HashMap<[u8; KEY_LEN], u64>,
    keys: u64,
) -> io::Result<u64> {
    let start = Instant::now(rt)?;
    for number in 0..keys {
        map.insert(key_bytes(number), number)?;
    }
    nanos_since(rt, start)
}

// The nanoseconds, and how many keys were found.
fn time_finds(
    rt: &HostRuntime,
    map: &HashMap<[u8; KEY_LEN], u64>,
    keys: u64,
) -> io::Result<(u64, u64)> {
    let start = Instant::now(rt)?;
    let mut found = 0u64;
    for turn in 0..keys {
        let is_there = map.contains_key(&key_bytes(visited(turn, keys)));
        found = found.wrapping_add(u64::from(is_there));
    }
    Ok((nanos_since(rt, start)?, found))
}

fn time_removes(
    rt: &HostRuntime,
    map: &mut HashMap<[u8; KEY_LEN], u64>,
    keys: u64,
) -> io::Result<u64> {
    let start = Instant::now(rt)?;
    for turn in 0..keys {
        let _ = map.remove(&key_bytes(visited(turn, keys)));
    }
    nanos_since(rt, start)
}
