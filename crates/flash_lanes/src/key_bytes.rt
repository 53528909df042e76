ghost use Rattle.std.specs.Prelude.{◌≡◌, length};
ghost use Rattle.std.specs.List.{list_all};
ghost use Rattle.flash_lanes.specs.KeyBytes.{is_key_byte};

use std::simd::prelude::*;

/// Whether each of these bytes is above 0x20 and isn't 0x7f, as a key of memcached's text protocol asks
/// (doc/protocol.txt: no control character and no space).
pub fn all_key_bytes(bytes: &[u8]) -> bool
    ensures { result ≡ list_all is_key_byte bytes.now }
{
    let mut at = 0;
    'whole: while bytes.len() - at >= 16 {
        if !block_of_key_bytes(&bytes[at..at + 16]) {
            return false;
        }
        at += 16;
    }
    each_key_byte(&bytes[at..])
}

// Whether each of sixteen bytes is one of a key.
fn block_of_key_bytes(block: &[u8]) -> bool
    requires { length block.now ≡ 16 }
    ensures { result ≡ list_all is_key_byte block.now }
{
    let lanes = u8x16::from_slice(block);
    let low = lanes.simd_le(u8x16::splat(0x20)).to_bitmask();
    let delete = lanes.simd_eq(u8x16::splat(0x7f)).to_bitmask();
    low == 0 && delete == 0
}

// Whether each byte is one of a key, one by one.
fn each_key_byte(bytes: &[u8]) -> bool
    ensures { result ≡ list_all is_key_byte bytes.now }
{
    bytes.iter().all(|byte| *byte > 0x20 && *byte != 0x7f)
}
