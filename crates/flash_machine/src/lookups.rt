// Laws of the lookups of items on flash. Each function has no body: its contract is the law.
ghost use Rattle.flash_machine.specs.LookupLaws.{ALookupIsClosedOnce, ANewStepHasNoLookup};

/// No run closes the lookup of a step twice.
pub fn a_lookup_is_closed_once()
    ensures { ALookupIsClosedOnce }
{}

/// A step that is new to a run has no open lookup, no read and no value from a buffer in it.
pub fn a_new_step_has_no_lookup()
    ensures { ANewStepHasNoLookup }
{}
