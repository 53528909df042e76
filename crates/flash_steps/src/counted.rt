// Laws of arithmetic.
ghost use Rattle.flash_steps.specs.Counted.{ANumberIsCountedOn, ANumberIsCreatedAsAsked};

/// Arithmetic gives the sum modulo 2^64, or the difference and 0 at least, and the item holds it in decimal digits.
pub fn a_number_is_counted_on()
    ensures { ANumberIsCountedOn }
{}

/// Where the key has no item, the number is stored that was given for that.
pub fn a_number_is_created_as_asked()
    ensures { ANumberIsCreatedAsAsked }
{}
