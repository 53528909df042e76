ghost use Rattle.std.specs.Prelude.{◌≡◌, ◌+◌, ◌*◌, ◌≤◌, take, drop, bit_xor};
ghost use Rattle.flash_crc.specs.Crc32c.{after_bits, remainder};
ghost use Rattle.std.specs.Int.{w64, from_le_bytes};

use crate::tables::remainder_of;

/// The remainder after these sixteen bytes: one look into each of the sixteen tables.
#[inline(always)]
pub fn after_block(start: u32, block: &[u8; 16]) -> u32
    ensures { result ≡ remainder start block.now }
{
    let first = word(block, 0) ^ u64::from(start);
    let second = word(block, 8);
    remainder_of_word(second, 0) ^ remainder_of_word(first, 8)
}

/// The remainder after one byte more.
#[inline(always)]
pub fn after_byte(start: u32, byte: u8) -> u32
    ensures { result ≡ after_bits 8 (bit_xor start byte) }
{
    (start >> 8) ^ remainder_of((start & 0xff) as u8 ^ byte, 0)
}

// The eight bytes at a place as a number, the lowest byte first.
#[inline(always)]
fn word(block: &[u8; 16], at: usize) -> u64
    requires { at + 8 ≤ 16 }
    ensures { result ≡ from_le_bytes w64 (take 8 (drop at block.now)) }
{
    u64::from_le_bytes([
        block[at],
        block[at + 1],
        block[at + 2],
        block[at + 3],
        block[at + 4],
        block[at + 5],
        block[at + 6],
        block[at + 7],
    ])
}

// The remainder of the eight bytes of this number, the lowest first, with so many zero bytes after them.
#[inline(always)]
fn remainder_of_word(word: u64, zeros: usize) -> u32
    requires { zeros + 8 ≤ 16 }
    ensures { result ≡ after_bits (8 * zeros + 64) word }
{
    let [a, b, c, d, e, f, g, h] = word.to_le_bytes();
    let front = (remainder_of(a, zeros + 7) ^ remainder_of(b, zeros + 6))
        ^ (remainder_of(c, zeros + 5) ^ remainder_of(d, zeros + 4));
    let back = (remainder_of(e, zeros + 3) ^ remainder_of(f, zeros + 2))
        ^ (remainder_of(g, zeros + 1) ^ remainder_of(h, zeros));
    front ^ back
}
