//! The items of the cache beside a `HashMap` of the standard library with the same keys.
mod cache;
mod map;
mod memory;

use memory::resident_kilobytes;
use std::io;

// How many keys are measured, how many are stored on the way to the slowest insert, and how many a tiny run has.
const KEYS: u64 = 1_000_000;

const MOST_KEYS: u64 = 4_000_000;

const FEW_KEYS: u64 = 1000;

// What the keys took in one of the two ways, in nanoseconds for all of them, and how many were found.
#[derive(Clone, Copy)]
struct Times {
    insert: u64,
    find: u64,
    remove: u64,
    found: u64,
}

/// Whether both ways find what was stored in them. It prints no times.
pub fn try_out(rt: &HostRuntime) -> io::Result<()> {
    let ours = cache::times(rt, FEW_KEYS)?.found;
    let theirs = map::times(rt, FEW_KEYS)?.found;
    println!(rt; "items: {ours} found in the items, {theirs} in a HashMap")
}

/// Measures the slowest insert on the way to four million keys and the memory of an item then, and both ways at a million
/// keys. Growing comes first: an allocator that has freed large blocks copies others where they grow, and gives memory
/// again that was resident before.
pub fn measure(rt: &HostRuntime) -> io::Result<()> {
    print_growth(rt)?;
    print_times(rt)
}

fn print_growth(rt: &HostRuntime) -> io::Result<()> {
    let before = resident_kilobytes(rt)?;
    let (items, ours) = cache::grown(rt, MOST_KEYS)?;
    let kilobytes = resident_kilobytes(rt)?.saturating_sub(before);
    drop(items);
    print_memory(rt, kilobytes)?;
    let theirs = map::slowest_insert(rt, MOST_KEYS)?;
    let ratio = theirs / ours.max(1);
    println!(rt; "slowest insert: items {ours} ns, HashMap {theirs} ns, 1/{ratio}")
}

fn print_memory(rt: &HostRuntime, kilobytes: u64) -> io::Result<()> {
    let bytes = kilobytes.saturating_mul(1024) / MOST_KEYS;
    println!(rt; "memory: {bytes} bytes an item, 16 of them its key's")
}

fn print_times(rt: &HostRuntime) -> io::Result<()> {
    let ours = cache::times(rt, KEYS)?;
    let theirs = map::times(rt, KEYS)?;
    print_both(rt, "find", ours.find, theirs.find)?;
    print_both(rt, "insert", ours.insert, theirs.insert)?;
    print_both(rt, "remove", ours.remove, theirs.remove)
}

// The nanoseconds of one call in both ways, and their ratio.
fn print_both(rt: &HostRuntime, name: &str, ours: u64, theirs: u64) -> io::Result<()> {
    let percent = ours.saturating_mul(100) / theirs.max(1);
    let (one, other) = (ours / KEYS, theirs / KEYS);
    println!(rt; "{name}: items {one} ns, HashMap {other} ns, {percent} %")
}
