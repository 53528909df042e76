// The journals that a server may have.
ghost use Rattle.std.specs.Prelude.{◌≡◌};
ghost use Rattle.std.specs.Option.{option_map};

use flash_entry::{Counted, Entry, Journal, Kept};

/// A journal that a server may have.
pub trait Recorded: Journal {
    /// The entries, where the journal keeps them.
    fn entries_kept(&self) -> Option<&[Entry]>
        ensures { option_map (λ entries. entries.now) result ≡ Self.told self.now };
}

impl Recorded for Kept {
    fn entries_kept(&self) -> Option<&[Entry]> {
        Some(self.entries())
    }
}

impl Recorded for Counted {
    fn entries_kept(&self) -> Option<&[Entry]> {
        None
    }
}
