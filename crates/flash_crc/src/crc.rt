ghost use Rattle.std.specs.Prelude.{◌≡◌, ℕ, List, [], ◌∷◌, ◌++◌, bit_xor};
ghost use Rattle.flash_crc.specs.Crc32c.{all_ones, remainder, crc32c as checksum_of};

use crate::block::{after_block, after_byte};
use std::marker::Model;

/// The CRC-32C of these bytes.
#[tactic(auto, unfolding(crate::specs::Crc32c::crc32c))]
pub fn crc32c(bytes: &[u8]) -> u32
    ensures { result ≡ checksum_of bytes.now }
{
    let mut crc = Crc::new();
    crc.feed(bytes);
    crc.value()
}

/// A CRC-32C whose bytes come in pieces. It is seen as the remainder of those that were fed, and has the
/// same value however they were cut.
#[derive(Clone, Copy, Debug)]
pub struct Crc {
    remainder: u32,
}

impl Model for Crc {
    ghost Value = { ℕ };

    ghost view = { λ c. c.remainder };

    ghost inverse = { λ r. record { remainder = r } };
}

impl Crc {
    /// The checksum before any byte.
    pub fn new() -> Crc
        ensures { result ≡ all_ones }
    {
        Crc {
            remainder: u32::MAX,
        }
    }

    /// Takes these bytes after those that were fed before.
    pub fn feed(&mut self, bytes: &[u8])
        ensures exact { self.new ≡ remainder self.old bytes.now }
        ensures behind { (fed : List ℕ) → self.old ≡ remainder all_ones fed
            → self.new ≡ remainder all_ones (fed ++ bytes.now) }
    {
        self.remainder = after_bytes(self.remainder, bytes);
    }

    /// The CRC-32C of all bytes that were fed.
    #[tactic(auto, unfolding(crate::specs::Crc32c::crc32c))]
    pub fn value(&self) -> u32
        ensures exact { result ≡ bit_xor self.now all_ones }
        ensures checksum { (fed : List ℕ) → self.now ≡ remainder all_ones fed → result ≡ checksum_of fed }
    {
        self.remainder ^ u32::MAX
    }
}

// The remainder after these bytes, sixteen at a time and then one at a time.
fn after_bytes(start: u32, bytes: &[u8]) -> u32
    ensures { result ≡ remainder start bytes.now }
{
    let (blocks, rest) = bytes.as_chunks::<16>();
    let mut remainder = start;
    'whole: for block in blocks {
        remainder = after_block(remainder, block);
    }
    after_each(remainder, rest)
}

// The remainder after these bytes, one at a time.
fn after_each(start: u32, bytes: &[u8]) -> u32
    ensures { result ≡ remainder start bytes.now }
{
    let mut remainder = start;
    'bytes: for byte in bytes {
        remainder = after_byte(remainder, *byte);
    }
    remainder
}
