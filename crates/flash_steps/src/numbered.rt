// The law of CAS numbers.
ghost use Rattle.flash_steps.specs.Numbered.{AStoredItemHasTheNextNumber};

/// A stored item has the CAS number after the last one, at most 2^63.
pub fn a_stored_item_has_the_next_number()
    ensures { AStoredItemHasTheNextNumber }
{}
