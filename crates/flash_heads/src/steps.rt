// Laws of the steps. Each function has no body: its contract is the law.
ghost use Rattle.flash_heads.specs.StepLaws.{EachStoreIsThatOfTheHeads, EachLookupIsThatOfTheHeads};
ghost use Rattle.flash_heads.specs.StepLaws.{EachDropIsThatOfTheHeads, EachDeleteIsThatOfTheHeads};
ghost use Rattle.flash_heads.specs.StepLaws.{EachHeadHasItsNumber, EachSumIsThatOfTheHeads, EachTouchIsThatOfTheHeads};
ghost use Rattle.flash_heads.specs.StepLaws.{EachFlushIsThatOfTheHeads, EachClockIsThatOfTheHeads};
ghost use Rattle.flash_heads.specs.StepLaws.{NoValueOnFlashIsJoined, NoValueOnFlashIsANumber};
ghost use Rattle.flash_heads.specs.StepLaws.{EachTallyIsThatOfTheHeads};

/// A store is refused over the heads for the cause for which it is refused, and else stores the same item.
pub fn each_store_is_that_of_the_heads()
    ensures { EachStoreIsThatOfTheHeads }
{}

/// `Append` and `Prepend` refuse an item whose value is on flash.
pub fn no_value_on_flash_is_joined()
    ensures { NoValueOnFlashIsJoined }
{}

/// A lookup finds over the heads what it finds, and tells the same of it but for the value.
pub fn each_lookup_is_that_of_the_heads()
    ensures { EachLookupIsThatOfTheHeads }
{}

/// An item that is dropped is dropped from the heads.
pub fn each_drop_is_that_of_the_heads()
    ensures { EachDropIsThatOfTheHeads }
{}

/// A delete answers over the heads what it answers.
pub fn each_delete_is_that_of_the_heads()
    ensures { EachDeleteIsThatOfTheHeads }
{}

/// An item's head has the item's number.
pub fn each_head_has_its_number()
    ensures { EachHeadHasItsNumber }
{}

/// A value on flash is no number.
pub fn no_value_on_flash_is_a_number()
    ensures { NoValueOnFlashIsANumber }
{}

/// Arithmetic answers over the heads what it answers.
pub fn each_sum_is_that_of_the_heads()
    ensures { EachSumIsThatOfTheHeads }
{}

/// A touch answers over the heads what it answers.
pub fn each_touch_is_that_of_the_heads()
    ensures { EachTouchIsThatOfTheHeads }
{}

/// A flush leaves of the heads the heads of what it leaves.
pub fn each_flush_is_that_of_the_heads()
    ensures { EachFlushIsThatOfTheHeads }
{}

/// A reading of the clock leaves of the heads the heads of what it leaves.
pub fn each_clock_is_that_of_the_heads()
    ensures { EachClockIsThatOfTheHeads }
{}

/// The numbers that a store tells of itself are the same over the heads.
pub fn each_tally_is_that_of_the_heads()
    ensures { EachTallyIsThatOfTheHeads }
{}
