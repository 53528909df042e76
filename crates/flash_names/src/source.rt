ghost use Rattle.std.specs.Prelude.{◌≡◌, ℕ, ◌<◌, ◌≤◌, List, length, take, Option, IfOk, OnErr};
ghost use Rattle.flash_names.specs.Told.{with_front};
ghost use Rattle.flash_names.specs.Faults.{Counts};
ghost use Rattle.flash_names.specs.Source.{IsAtEnd};

use thiserror::Error;

/// A read that failed.
#[derive(Clone, Copy, Debug, PartialEq, Eq, Error)]
#[error("a read failed")]
pub struct SourceFault;

/// Bytes that come from outside, as those of a file, a socket or a slice.
pub trait Source {
    /// The bytes that are left, where the source tells them.
    ghost left: { Self → Option (List ℕ) };

    /// How often a read has failed. It never falls.
    ghost faults: { Self → ℕ };

    /// Reads the next bytes into the front of `into`, and answers how many they are. `Ok(0)` into a piece
    /// that isn't empty is the end. No call changes whether the source tells.
    fn read(&mut self, into: &mut [u8]) -> Result<usize, SourceFault>
        ensures bound { IfOk result (λ n. n ≤ length into.old) }
        ensures taken { IfOk result (λ n. left self.old ≡ with_front (take n into.new) (left self.new)) }
        ensures end { IfOk result (λ n. n ≡ 0 → 0 < length into.old → IsAtEnd (left self.old)) }
        ensures failed { OnErr result (left self.new ≡ left self.old) }
        ensures counts { Counts (faults self.old) (faults self.new) result };
}
