ghost use Rattle.std.specs.Prelude.{◌≡◌, Some, Box};
ghost use Rattle.flash_names.specs.Shared.{Begins, own_of, without};
ghost use Rattle.flash_turn.specs.Passes.{number_of, seen, took_story, took_face, left_face, left_own, IsPassOf};
ghost use Rattle.flash_turn.specs.HeldValues.{value_of, taken_of, turn_of, pass_of, IsHeld};

use crate::rule::Serve;
use crate::{Pass, Shared, Turn};
use std::snapshot::Snapshot;

/// The value out of its lock, which `Turn::enter` gives and `leave` takes back. It can't be dropped.
pub type Held<'a, T> = HeldIn<'a, T, Box<T>>;

/// `Held` with the type of the box as a parameter, since the type that is handed out has to name what owns the value.
pub struct HeldIn<'a, T: Shared, B> {
    pub(crate) pass: &'a mut Pass<T>,
    pub(crate) turn: &'a Turn<T>,
    pub(crate) value: B,
    pub(crate) taken: Snapshot<T>,
}

impl<'a, T: Shared> HeldIn<'a, T, Box<T>> {
    /// Gives the value back, and serves the next ticket. Since it was taken, the story has only grown, and neither
    /// the things of other numbers nor the fixed part have changed. Afterwards the pass has seen the whole story, and
    /// keeps the story and the face that it took and the face that it left.
    pub fn leave(self)
        requires held { IsHeld T.fixed self }
        requires story { Begins (T.story (taken_of self)) (T.story (value_of self)) }
        requires own { without (number_of (pass_of self)) (T.own (value_of self))
            ≡ without (number_of (pass_of self)) (T.own (taken_of self)) }
        requires fixed { T.fixed (value_of self) ≡ T.fixed (taken_of self) }
        ensures pass { IsPassOf T.fixed (turn_of self.entry) self.exit.0.now }
        ensures number { number_of self.exit.0.now ≡ number_of (pass_of self.entry) }
        ensures seen { seen T.story self.exit.0.now ≡ T.story (value_of self.entry) }
        ensures own { left_own T.own self.exit.0.now
            ≡ own_of (number_of (pass_of self.entry)) (T.own (value_of self.entry)) }
        ensures took_story { took_story T.story self.exit.0.now ≡ T.story (taken_of self.entry) }
        ensures took_face { took_face T.face self.exit.0.now ≡ Some (T.face (taken_of self.entry)) }
        ensures left_face { left_face T.face self.exit.0.now ≡ Some (T.face (value_of self.entry)) }
    {
        let HeldIn {
            pass,
            turn,
            value,
            taken: _,
        } = self;
        let shared = &turn.table.shared;
        let none = shared.exchange(&mut pass.seat, 0, Some(value));
        let None = none else { unreachable!() };
        shared.fetch_add::<Serve>(&mut pass.seat, 1, 1);
        turn.sleepers.wake_one();
    }
}
