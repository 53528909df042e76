//! The store beside a `HashMap` of the standard library from boxed keys to boxed values, with values of 100 bytes.
mod cache;
mod map;

use std::io;

/// The bytes of a value.
pub const VALUE_LEN: usize = 100;

// How many items are measured, and how many a tiny run has.
const MANY: u64 = 1_000_000;

const SOME: u64 = 10_000;

const FEW: u64 = 1000;

// How often each of `SOME` items is got and set, so that a part takes long enough to be measured.
const ROUNDS: u64 = 50;

// What the gets and the sets took in one of the two ways, in nanoseconds for all of them, and how many bytes were got.
#[derive(Clone, Copy)]
struct Times {
    get: u64,
    set: u64,
    bytes: u64,
}

/// Whether both ways get what was set in them. It prints no times.
pub fn try_out(rt: &HostRuntime) -> io::Result<()> {
    let ours = cache::times(rt, FEW, 1)?.bytes;
    let theirs = map::times(rt, FEW, 1)?.bytes;
    println!(rt; "store: {ours} bytes got from the store, {theirs} from a HashMap")
}

/// Measures gets of a copied value and sets of items that are there, both ways, at a million items and at ten thousand.
pub fn measure(rt: &HostRuntime) -> io::Result<()> {
    print_both(rt, MANY, 1)?;
    print_both(rt, SOME, ROUNDS)
}

fn print_both(rt: &HostRuntime, items: u64, rounds: u64) -> io::Result<()> {
    let ours = cache::times(rt, items, rounds)?;
    let theirs = map::times(rt, items, rounds)?;
    let calls = items.saturating_mul(rounds).max(1);
    print_ratio(rt, "get", items, ours.get / calls, theirs.get / calls)?;
    print_ratio(rt, "set", items, ours.set / calls, theirs.set / calls)
}

// The nanoseconds of one call in both ways, and their ratio.
fn print_ratio(rt: &HostRuntime, name: &str, items: u64, ours: u64, theirs: u64) -> io::Result<()> {
    let percent = ours.saturating_mul(100) / theirs.max(1);
    println!(rt; "{name} at {items} items: store {ours} ns, HashMap {theirs} ns, {percent} %")
}
