ghost use Rattle.std.specs.Prelude.{◌≡◌};
ghost use Rattle.flash_entry.specs.declared.entry_fault.EntryFault.TheVariants.{NoMemory};

use std::alloc::AllocError;
use thiserror::Error;

/// Why a line of the journal isn't read. Places count the line's words from 1.
#[derive(Clone, Copy, Debug, PartialEq, Eq, Error)]
pub enum EntryFault {
    /// The word at this place breaks the line's form, and no decimal number may stand there.
    #[error("word {0} is unknown, or there is a word too many")]
    BadWord(usize),
    /// A decimal number may stand at this place, and the word there is none of its field's type, nor another word that
    /// may stand there.
    #[error("word {0} is no number, or too large for its field")]
    BadNumber(usize),
    /// No word breaks the line's form, and words are missing.
    #[error("words are missing")]
    Short,
    /// Memory ran out.
    #[error("out of memory")]
    NoMemory,
}

impl From<AllocError> for EntryFault {
    ghost from_gives = { λ _ fault. fault ≡ NoMemory };

    fn from(_: AllocError) -> EntryFault {
        EntryFault::NoMemory
    }
}
