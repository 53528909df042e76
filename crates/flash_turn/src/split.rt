ghost use Rattle.std.specs.Global.{Global};
ghost use Rattle.flash_turn.specs.Passes.{IsPassOf};
ghost use Rattle.flash_turn.specs.Splitting.{drawn_number, HasDrawn, SplitsOff};

use crate::rule::{Number, Part, PutBack};
use crate::{Pass, Shared, Turn};

// No pass has this number or a greater one.
const LIMIT: u64 = 4_294_967_295;

/// What splitting a pass answers.
#[derive(Drop)]
pub enum Split<T> {
    /// A pass of its own, for another thread.
    Pass(Pass<T>),
    /// The numbers of passes are used up: the one that was drawn is at or above 2^32 - 1.
    Used(u64),
}

impl<T: Shared> Pass<T> {
    /// Splits off a pass under a number that was never given before: it is above every number that this pass knows to be
    /// given. The new pass has seen what this one saw, and has left nothing yet. `Used` comes exactly where the number
    /// that was drawn from the lock is at or above 2^32 - 1. This pass is as before, but for the number that it has drawn.
    pub fn split(&mut self, turn: &Turn<T>) -> Split<T>
        requires { IsPassOf T.fixed turn.now self.old }
        ensures pass { IsPassOf T.fixed turn.now self.new }
        ensures drawn { HasDrawn self.old self.new (drawn_number result) }
        ensures split { SplitsOff T.story T.own T.face T.fixed Global turn.now self.old result }
    {
        let shared = &turn.table.shared;
        let drawn = shared.fetch_add::<Number<T>>(&mut self.seat, 2, 1);
        if drawn >= LIMIT {
            shared.fetch_sub::<PutBack>(&mut self.seat, 2, 1);
            return Split::Used(drawn);
        }
        let seat = shared.split_seat::<Part>(&mut self.seat);
        Split::Pass(Pass {
            seat,
            number: drawn as u32,
        })
    }
}
