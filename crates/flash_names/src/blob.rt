ghost use Rattle.std.specs.Prelude.{◌≡◌, ℕ, ◌+◌, ◌≤◌, List, length as count, take, drop, IfOk};
ghost use Rattle.std.specs.Borrow.{sem};
ghost use Rattle.flash_names.specs.Lending.{LendsBytes};

use std::alloc::{AllocError, Global};
use std::marker::Model;

/// A block of bytes on the heap, as a value of the cache or what a device reads and writes.
#[derive(Debug, Drop)]
pub struct Blob {
    bytes: Vec<u8>,
}

impl Model for Blob {
    ghost use Rattle.std.specs.Prelude.{ℕ, List};

    ghost Value = { List ℕ };

    ghost view = { λ b. b.bytes.items };
}

impl Blob {
    /// A copy of these bytes, or an error where memory runs out.
    pub fn from_slice(alloc: Global, bytes: &[u8]) -> Result<Blob, AllocError>
        ensures { IfOk result (λ blob. blob ≡ bytes.now) }
    {
        Ok(Blob {
            bytes: bytes.to_vec(alloc)?,
        })
    }

    /// The bytes, for reading.
    pub fn bytes(&self) -> &[u8]
        ensures { result.now ≡ self.now }
    {
        &self.bytes
    }

    /// The bytes, for writing. Their number stays.
    pub fn bytes_mut(&mut self) -> &mut [u8]
        ensures* writes_back { sem 𝓛 (LendsBytes self.entry result) }
        ensures now { result.now ≡ self.old }
    {
        &mut self.bytes
    }

    /// The blob of `length` bytes from the byte `start` on, in the same memory. The range has to lie within
    /// the blob: `start + length` is at most the number of its bytes.
    pub fn cut(self, start: usize, length: usize) -> Blob
        requires { start + length ≤ count self }
        ensures { result ≡ take length (drop start self) }
    {
        let mut bytes = self.bytes;
        bytes.truncate(start + length);
        bytes.drain(..start);
        Blob { bytes }
    }
}

impl From<Vec<u8>> for Blob {
    ghost from_gives = { λ bytes blob. blob ≡ bytes.items };

    fn from(bytes: Vec<u8>) -> Blob {
        Blob { bytes }
    }
}
