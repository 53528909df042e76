ghost use Rattle.std.specs.Prelude.{◌≡◌, ℕ, ◌<◌, ◌≤◌, List, length, take, Option, IfOk, OnErr};
ghost use Rattle.flash_names.specs.Told.{with_more};
ghost use Rattle.flash_names.specs.Faults.{Counts};

use thiserror::Error;

/// A write that failed.
#[derive(Clone, Copy, Debug, PartialEq, Eq, Error)]
#[error("a write failed")]
pub struct SinkFault;

/// What bytes go to outside of the program, as a file, a socket or a vector.
pub trait Sink {
    /// The bytes that it holds, where the sink tells them.
    ghost held: { Self → Option (List ℕ) };

    /// How often a write has failed. It never falls.
    ghost faults: { Self → ℕ };

    /// Writes the first of these bytes, and answers how many it took: at least one of a piece that isn't
    /// empty. No call changes whether the sink tells.
    fn write(&mut self, bytes: &[u8]) -> Result<usize, SinkFault>
        ensures bound { IfOk result (λ n. n ≤ length bytes.now) }
        ensures progress { IfOk result (λ n. 0 < length bytes.now → 0 < n) }
        ensures appended { IfOk result (λ n. held self.new ≡ with_more (take n bytes.now) (held self.old)) }
        ensures failed { OnErr result (held self.new ≡ held self.old) }
        ensures counts { Counts (faults self.old) (faults self.new) result };
}
