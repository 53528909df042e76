ghost use Rattle.flash_turn.specs.Passes.{IsPassOf};
ghost use Rattle.flash_turn.specs.Closing.{Closes};

use crate::rule::Slot;
use crate::{Pass, Shared, Turn};
use atomic_table::Closed;
use std::alloc::Global;
use std::snapshot::Snapshot;

/// What closing a lock answers.
#[derive(Drop)]
pub enum Closing<T> {
    /// The value.
    Value(T),
    /// A pass still held a ticket. The value isn't handed back; what the lock's words were at its end is kept for
    /// contracts alone.
    Out(Snapshot<Closed<Slot<T>, Global>>),
}

impl<T: Shared + Drop> Turn<T> {
    /// Ends the lock. `Value` is the value as the pass would find it; `Out` comes exactly where the lock's table, closed,
    /// has different words for the tickets drawn and the tickets served, and then no value is handed back.
    pub fn close(self, pass: Pass<T>) -> Closing<T>
        requires { IsPassOf T.fixed self pass }
        ensures { Closes T.story T.own T.fixed self pass result }
    {
        let Turn {
            table,
            sleepers: _,
            batches: _,
        } = self;
        let Pass { seat, number: _ } = pass;
        let mut closed = table.close_with(seat);
        let at_end = Snapshot::of(&closed);
        let tickets = closed.word(0);
        let served = closed.word(1);
        let slot = closed.take(0);
        closed.free();
        if tickets != served {
            return Closing::Out(at_end);
        }
        Closing::Value(Box::into_inner(slot.unwrap()))
    }
}
