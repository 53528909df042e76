// Refused steps change nothing.
ghost use Rattle.flash_steps.specs.Refused.{ARefusedStoreChangesNothing, ARefusedDeleteChangesNothing, RefusedArithmeticChangesNothing, ARefusedTouchChangesNothing};

/// A refused store leaves the cache.
pub fn a_refused_store_changes_nothing()
    ensures { ARefusedStoreChangesNothing }
{}

/// A refused delete leaves the cache.
pub fn a_refused_delete_changes_nothing()
    ensures { ARefusedDeleteChangesNothing }
{}

/// Refused arithmetic leaves the cache.
pub fn refused_arithmetic_changes_nothing()
    ensures { RefusedArithmeticChangesNothing }
{}

/// A refused touch leaves the cache.
pub fn a_refused_touch_changes_nothing()
    ensures { ARefusedTouchChangesNothing }
{}
