ghost use Rattle.std.specs.Prelude.{◌≡◌, ℕ, ◌≤◌, List, length, take};

use std::marker::Model;

/// The bytes of a key, at most N, held in line. It is seen as the list of the bytes.
#[derive(Drop)]
pub struct Cell<const N: usize> {
    len: u8,
    bytes: [u8; N],
}

impl<const N: usize> Model for Cell<N> {
    ghost Value = { List ℕ };

    ghost view = { λ c. take c.len c.bytes };

    ghost invariant = { λ c. c.len ≤ N };
}

impl<const N: usize> Cell<N> {
    /// A cell with the bytes of a key.
    pub fn of(key: &[u8]) -> Cell<N>
        requires fits { length key.now ≤ N }
        requires small { N ≤ 255 }
        ensures { result ≡ key.now }
    {
        let mut bytes = [0; N];
        let (front, _) = bytes.split_at_mut(key.len());
        front.copy_from_slice(key);
        Cell {
            len: key.len() as u8,
            bytes,
        }
    }

    /// The key's bytes.
    pub fn bytes(&self) -> &[u8]
        ensures { result.now ≡ self.now }
    {
        &self.bytes[..self.len as usize]
    }
}
