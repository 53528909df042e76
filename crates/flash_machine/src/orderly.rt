// Laws of the rules of pages, reads and writes. Each function has no body: its contract is the law.
ghost use Rattle.flash_machine.specs.OrderlyLaws.{
  EveryRunIsOrderly,
  OrderlyGoesOn,
  OrderlyGoesOnBy,
  EachFrontIsOrderly,
};

/// Each run of the one-thread cache is orderly.
pub fn every_run_is_orderly()
    ensures { EveryRunIsOrderly }
{}

/// A journal is orderly where its front is and its last entry keeps the rules over that front.
pub fn orderly_goes_on()
    ensures { OrderlyGoesOn }
{}

/// An orderly journal goes on by any entries that keep the rules, one after the other.
pub fn orderly_goes_on_by()
    ensures { OrderlyGoesOnBy }
{}

/// Each front of an orderly journal is orderly, and the entry after it keeps the rules over it.
pub fn each_front_is_orderly()
    ensures { EachFrontIsOrderly }
{}
