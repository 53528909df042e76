// Laws of a delete.
ghost use Rattle.flash_steps.specs.Deleted.{ADeletedKeyHasNoItem, AKeyIsDeletedByItsNumber};

/// A deleted key has no item, and each other key has what it had.
pub fn a_deleted_key_has_no_item()
    ensures { ADeletedKeyHasNoItem }
{}

/// A key with a live item is deleted where no CAS number is given, or the item's, and else it isn't.
pub fn a_key_is_deleted_by_its_number()
    ensures { AKeyIsDeletedByItsNumber }
{}
