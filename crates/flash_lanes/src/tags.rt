ghost use Rattle.std.specs.Prelude.{◌≡◌, ℕ, ◌<◌};
ghost use Rattle.std.specs.Int.{bit_at};
ghost use Rattle.flash_lanes.specs.Tags.{mask_of_tag, has_tag};

use std::simd::prelude::*;

/// A mask of sixteen bits: bit i is set exactly where tag i is equal to this one.
pub fn tags_equal(tags: &[u8; 16], tag: u8) -> u16
    ensures mask { result ≡ mask_of_tag tags.now tag }
    ensures bits { (i : ℕ) → i < 16 → bit_at result i ≡ has_tag tags.now tag i }
{
    let lanes = u8x16::from_array(*tags);
    lanes.simd_eq(u8x16::splat(tag)).to_bitmask() as u16
}
