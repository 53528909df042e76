// Laws of a device that returns what was written. Each function has no body: its contract is the law.
ghost use Rattle.flash_machine.specs.HonestLaws.{HonestBySplits, HonestGoesOn, OnlyReadBytesAreAsked};
ghost use Rattle.flash_machine.specs.HonestLaws.{EachFrontIsHonest, AReadGivesWhatWasWritten};

/// A journal is honest exactly where at each split of it at a good end of a read the bytes agree with what was known
/// when the read began, of all bytes over which no write began since.
pub fn honest_by_splits()
    ensures { HonestBySplits }
{}

/// An honest journal goes on honestly by an entry that is honest after it, and each entry is that doesn't end a read
/// with bytes.
pub fn honest_goes_on()
    ensures by_an_honest_entry { HonestGoesOn }
    ensures only_bytes_are_asked { OnlyReadBytesAreAsked }
{}

/// Each front of an honest journal is honest: nothing that comes after a journal that isn't honest makes it honest.
pub fn each_front_is_honest()
    ensures { EachFrontIsHonest }
{}

/// In an orderly and honest journal a read gives exactly the bytes that were known to be at its place when it began,
/// where no write over the place began before its end.
pub fn a_read_gives_what_was_written()
    ensures { AReadGivesWhatWasWritten }
{}
