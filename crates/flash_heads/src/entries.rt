// Laws of entries. Each function has no body: its contract is the law.
ghost use Rattle.flash_heads.specs.EntryLaws.{EachEntryIsThatOfTheHeads, EachEntryLeavesItsHeads};
ghost use Rattle.flash_heads.specs.EntryLaws.{EachRunIsThatOfTheHeads, EachRunLeavesItsHeads};

/// An entry that moves no value makes of the heads the heads of what it makes.
pub fn each_entry_is_that_of_the_heads()
    ensures { EachEntryIsThatOfTheHeads }
{}

/// An entry that moves no value into memory makes of the heads what has the heads of what it makes.
pub fn each_entry_leaves_its_heads()
    ensures { EachEntryLeavesItsHeads }
{}

/// Entries that move no value make of the heads the heads of what they make.
pub fn each_run_is_that_of_the_heads()
    ensures { EachRunIsThatOfTheHeads }
{}

/// Entries that move no value into memory make of the heads what has the heads of what they make.
pub fn each_run_leaves_its_heads()
    ensures { EachRunLeavesItsHeads }
{}
