// Laws of a flush.
ghost use Rattle.flash_steps.specs.Flushed.{AFlushEndsEachOlderItem, AFlushSparesEachLaterItem, ADelayedFlushWaits};

/// After a flush without delay, each item is dead that was stored before it, the newest one too.
pub fn a_flush_ends_each_older_item()
    ensures { AFlushEndsEachOlderItem }
{}

/// No item that is stored after a flush is dead by it.
pub fn a_flush_spares_each_later_item()
    ensures { AFlushSparesEachLaterItem }
{}

/// A delayed flush changes no item before its moment, and ends each item that is there when a reading reaches it.
pub fn a_delayed_flush_waits()
    ensures { ADelayedFlushWaits }
{}
