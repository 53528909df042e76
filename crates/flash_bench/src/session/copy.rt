use super::PIECE_LEN;
use crate::timing::nanos_since;
use memchr::memchr_iter;
use std::io;
use std::time::Instant;

/// The nanoseconds that it takes to copy these bytes in pieces, to find their line ends, and to copy the replies.
pub fn time(rt: &HostRuntime, bytes: &[u8], replies: &[u8]) -> io::Result<u64> {
    let mut held = Vec::with_capacity(rt.alloc(), PIECE_LEN)?;
    let mut sent = Vec::with_capacity(rt.alloc(), replies.len())?;
    let start = Instant::now(rt)?;
    let mut lines = 0u64;
    for piece in bytes.chunks(PIECE_LEN) {
        held.clear();
        held.extend_from_slice(piece)?;
        lines = lines.wrapping_add(memchr_iter(b'\n', &held).count() as u64);
    }
    for piece in replies.chunks(PIECE_LEN) {
        sent.extend_from_slice(piece)?;
    }
    let nanos = nanos_since(rt, start)?;
    // The count and the copy are used, so that they are made.
    let used = lines.wrapping_add(sent.len() as u64) & 1;
    Ok(nanos.saturating_add(used))
}
