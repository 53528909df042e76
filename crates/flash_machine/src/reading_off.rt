// Laws of what is read off a journal. Each function has no body: its contract is the law.
ghost use Rattle.flash_machine.specs.ReadingOffLaws.{EachEntryMakesItsStep, EachEntryIsReadOff};

/// Whatever is read off as a state of this type: an entry more makes exactly its step.
pub fn each_entry_makes_its_step<State>()
    ensures { EachEntryMakesItsStep State }
{}

/// An entry more makes of the bytes on flash, the open write, the labels of pages, the last version, the labels that
/// have ended, the reads and the lookups exactly what its kind says.
pub fn each_entry_is_read_off()
    ensures { EachEntryIsReadOff }
{}
