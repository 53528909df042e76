ghost use Rattle.std.specs.Prelude.{◌≡◌, []};
ghost use mir.Syntax.{named};
ghost use types.Logic.{sem};
ghost use denote.Follow.{follows};
ghost use Rattle.std.specs.contracts.boxed.Box as boxes;
ghost use Rattle.flash_turn.specs.contracts.held.HeldIn.{the_row};
ghost use Rattle.flash_turn.specs.HeldValues.{value_of};
ghost use Rattle.flash_turn.specs.Lending.{held_with};

use crate::Shared;
use crate::held::HeldIn;
use std::alloc::Allocator;

impl<T: Shared, A: Allocator> HeldIn<'_, T, Box<T, A>> {
    /// The value.
    pub fn state(&mut self) -> &mut T
        ensures* writes_back { sem 𝓛 (follows
            (the_row (record { mir = named 1; lft = [] }) T.row
            (boxes.the_row T.row A.row A.Allocator) T.Shared) T.row self.entry.ghost_name result.ghost_name
            (held_with self.old)) }
        ensures value { result.now ≡ value_of self.old }
    {
        &mut self.value
    }
}
