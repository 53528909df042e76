ghost use Rattle.std.specs.Prelude.{◌≡◌};
ghost use Rattle.flash_turn.specs.Passes.{number_of};

use crate::View;
use crate::rule::Slot;
use atomic_table::Seat;

/// The right to take the value in turn, under a number of its own, with the memory of what it saw.
#[derive(Drop)]
pub struct Pass<T> {
    pub(crate) seat: Seat<Slot<T>, View<T>>,
    pub(crate) number: u32,
}

impl<T> Pass<T> {
    /// Its number, from 1 up to below 2^32 - 1. No two passes of one lock have the same.
    pub fn number(&self) -> u32
        ensures { result ≡ number_of self.now }
    {
        self.number
    }
}
