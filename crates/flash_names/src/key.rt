ghost use Rattle.std.specs.Prelude.{◌≡◌, ℕ, ◌≤◌, ◌↔◌, List, length, IsSome, IfSome};

use arrayvec::ArrayVec;
use std::marker::Model;

/// The most bytes that a key has (memcached's doc/protocol.txt).
pub const MAX_KEY_LEN: usize = 250;

/// A key: 1 to 250 bytes of any value, held in line.
#[derive(Debug, Drop)]
pub struct Key {
    bytes: ArrayVec<u8, MAX_KEY_LEN>,
}

impl Model for Key {
    ghost Value = { List ℕ };

    ghost view = { λ k. k.bytes.items };

    ghost invariant = { λ k. (1 ≤ length k.bytes.items) × (length k.bytes.items ≤ 250) };
}

impl Key {
    /// The key of these bytes, or `None` where there are none or more than 250 of them.
    pub fn from_bytes(bytes: &[u8]) -> Option<Key>
        ensures fits { IsSome result ↔ ((1 ≤ length bytes.now) × (length bytes.now ≤ 250)) }
        ensures same { IfSome result (λ key. key ≡ bytes.now) }
    {
        if bytes.is_empty() {
            return None;
        }
        let mut inline = ArrayVec::new();
        inline.try_extend_from_slice(bytes).ok()?;
        Some(Key { bytes: inline })
    }

    /// The key's bytes.
    pub fn bytes(&self) -> &[u8]
        ensures same { result.now ≡ self.now }
        ensures some { 1 ≤ length self.now }
        ensures fits { length self.now ≤ 250 }
    {
        self.bytes.as_slice()
    }

    /// A second key of the same bytes. It takes no memory.
    pub fn copy(&self) -> Key
        ensures { result ≡ self.now }
    {
        let mut inline = ArrayVec::new();
        let _ = inline.try_extend_from_slice(self.bytes.as_slice());
        Key { bytes: inline }
    }
}
