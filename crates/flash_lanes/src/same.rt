ghost use Rattle.std.specs.Prelude.{◌≡◌, ◌↔◌, IsTrue, length};

use std::simd::prelude::*;

/// Whether the two are equal: as long, and with the same bytes in the same order.
pub fn same_bytes(a: &[u8], b: &[u8]) -> bool
    ensures { IsTrue result ↔ (a.now ≡ b.now) }
{
    a.len() == b.len() && same_in_lanes(a, b)
}

// Whether two that are as long are equal, sixteen bytes at a time.
fn same_in_lanes(a: &[u8], b: &[u8]) -> bool
    requires { length a.now ≡ length b.now }
    ensures { IsTrue result ↔ (a.now ≡ b.now) }
{
    let mut at = 0;
    'halves: while a.len() - at >= 16 {
        if !same_block(&a[at..at + 16], &b[at..at + 16]) {
            return false;
        }
        at += 16;
    }
    same_rest(&a[at..], &b[at..])
}

// Whether two blocks of sixteen bytes are equal.
fn same_block(a: &[u8], b: &[u8]) -> bool
    requires a_block { length a.now ≡ 16 }
    requires b_block { length b.now ≡ 16 }
    ensures { IsTrue result ↔ (a.now ≡ b.now) }
{
    u8x16::from_slice(a)
        .simd_ne(u8x16::from_slice(b))
        .to_bitmask()
        == 0
}

// Whether the two are equal, byte by byte.
fn same_rest(a: &[u8], b: &[u8]) -> bool
    ensures { IsTrue result ↔ (a.now ≡ b.now) }
{
    a == b
}
