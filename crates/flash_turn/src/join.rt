ghost use Rattle.flash_turn.specs.Passes.{IsPassOf};
ghost use Rattle.flash_turn.specs.Joining.{Joined};

use crate::rule::{Both, Compare};
use crate::{Pass, Shared, Turn};

impl<T: Shared> Pass<T> {
    /// Takes in another pass of this lock: this one has then seen the longer of both stories, which begins with
    /// either. It keeps its number and what it left. The two numbers were different, and the other's isn't given
    /// again.
    pub fn join(&mut self, turn: &Turn<T>, other: Pass<T>)
        requires own { IsPassOf T.fixed turn.now self.old }
        requires other { IsPassOf T.fixed turn.now other }
        ensures pass { IsPassOf T.fixed turn.now self.new }
        ensures joined { Joined T.story self.old other self.new }
    {
        let Pass { seat, number: _ } = other;
        let shared = &turn.table.shared;
        shared.join_seat::<Both>(&mut self.seat, seat);
        shared.load::<Compare<T>>(&mut self.seat, 0);
    }
}
