//! A session beside a copy of the same bytes and a search for the same line ends: a pipeline of gets and sets of values
//! of 100 bytes, from the bytes that come in to those that go out. Each step is answered at once, from memory.
mod copy;
mod talk;

use crate::keys::key_bytes;
use std::alloc::{AllocError, Global};
use std::io;

// The bytes of a value.
const VALUE_LEN: usize = 100;

// How many bytes come in at a time, as from a socket.
const PIECE_LEN: usize = 16_384;

// How many pairs of a set and a get are measured, how many where they come byte by byte, and how many a tiny run has.
const MANY: u64 = 500_000;

const SOME: u64 = 50_000;

const FEW: u64 = 100;

// How many rounds are measured, of which the fastest counts.
const ROUNDS: u32 = 7;

/// Whether the session replies as many bytes as the commands ask for. It prints no times.
pub fn try_out(rt: &HostRuntime) -> io::Result<()> {
    let bytes = pipeline(rt.alloc(), FEW)?;
    let replies = talk::replies_to(rt.alloc(), &bytes)?;
    println!(rt;
        "session: {} bytes in, {} bytes out",
        bytes.len(),
        replies.len()
    )
}

/// Measures both ways in turn, and prints the fastest round of each: of bytes that come in 16 KiB at a time, and of those
/// that come one by one.
pub fn measure(rt: &HostRuntime) -> io::Result<()> {
    let bytes = pipeline(rt.alloc(), MANY)?;
    let replies = talk::replies_to(rt.alloc(), &bytes)?;
    let mut ours = u64::MAX;
    let mut theirs = u64::MAX;
    for _ in 0..ROUNDS {
        ours = ours.min(talk::time(rt, &bytes, PIECE_LEN)?);
        theirs = theirs.min(copy::time(rt, &bytes, &replies)?);
    }
    let single = talk::time(rt, &pipeline(rt.alloc(), SOME)?, 1)?;
    let each = ours / (MANY * 2);
    print_ratio(rt, "16 KiB at a time", each, theirs / (MANY * 2))?;
    print_ratio(rt, "byte by byte", single / (SOME * 2), each)
}

// The nanoseconds of one command in two ways, and their ratio.
fn print_ratio(rt: &HostRuntime, name: &str, one: u64, other: u64) -> io::Result<()> {
    let percent = one.saturating_mul(100) / other.max(1);
    println!(rt; "session, {name}: {one} ns a command, beside {other} ns, {percent} %")
}

// So many sets, each with a get of its key after it.
fn pipeline(alloc: Global, pairs: u64) -> Result<Vec<u8>, AllocError> {
    let mut bytes = Vec::new(alloc);
    for number in 0..pairs {
        let key = key_bytes(number);
        bytes.extend_from_slice(b"set ")?;
        bytes.extend_from_slice(&key)?;
        bytes.extend_from_slice(b" 0 0 100\r\n")?;
        bytes.extend_from_slice(&[b'v'; VALUE_LEN])?;
        bytes.extend_from_slice(b"\r\nget ")?;
        bytes.extend_from_slice(&key)?;
        bytes.extend_from_slice(b"\r\n")?;
    }
    Ok(bytes)
}
