// Laws of the counters. The function has no body: its contract is the law.
ghost use Rattle.flash_counters.specs.CountersGoOn.{CountersGoOn};

/// The counters of entries and more entries are the sums of both, each up to 2^64 - 1.
pub fn counters_go_on()
    ensures { CountersGoOn }
{}
