use super::{Times, VALUE_LEN};
use crate::keys::{key_bytes, visited};
use crate::timing::nanos_since;
use std::collections::HashMap;
use std::io;
use std::time::Instant;

/// What gets and sets of so many items, each so often, took in a map of the standard library.
pub fn times(rt: &HostRuntime, items: u64, rounds: u64) -> io::Result<Times> {
    let mut map = HashMap::new(rt.alloc());
    for number in 0..items {
        set(rt, &mut map, number)?;
    }
    let calls = items.saturating_mul(rounds);
    let (get, bytes) = time_gets(rt, &map, items, calls)?;
    let set = time_sets(rt, &mut map, items, calls)?;
    Ok(Times { get, set, bytes })
}

// The nanoseconds, and how many bytes were got.
fn time_gets(
    rt: &HostRuntime,
    map: &HashMap<Vec<u8>, Vec<u8>>,
    items: u64,
    calls: u64,
) -> io::Result<(u64, u64)> {
    let start = Instant::now(rt)?;
    let mut bytes = 0u64;
    for turn in 0..calls {
        let key = key_bytes(visited(turn, items));
        if let Some(value) = map.get(key.as_slice()) {
            let copy = value.to_vec(rt.alloc())?;
            bytes = bytes.wrapping_add(copy.len() as u64);
        }
    }
    Ok((nanos_since(rt, start)?, bytes))
}

fn time_sets(
    rt: &HostRuntime,
    map: &mut HashMap<Vec<u8>, Vec<u8>>,
    items: u64,
    calls: u64,
) -> io::Result<u64> {
    let start = Instant::now(rt)?;
    for turn in 0..calls {
        set(rt, map, visited(turn, items))?;
    }
    nanos_since(rt, start)
}

fn set(rt: &HostRuntime, map: &mut HashMap<Vec<u8>, Vec<u8>>, number: u64) -> io::Result<()> {
    let key = key_bytes(number).to_vec(rt.alloc())?;
    let value = [b'v'; VALUE_LEN].to_vec(rt.alloc())?;
    let _ = map.insert(key, value)?;
    Ok(())
}
