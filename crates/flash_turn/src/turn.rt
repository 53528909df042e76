ghost use Rattle.std.specs.Prelude.{◌≡◌, [], ◌∷◌, Some, None, Box, IfOk, IfErr};

use crate::batches::Batches;
use crate::held::{Held, HeldIn};
use crate::rule::{Look, Rule, Slot};
use crate::sleepers::Sleepers;
use crate::{Pass, Shared, View};
use atomic_table::{Refused, Table};
use std::alloc::{AllocFailed, Global};
use std::snapshot::Snapshot;
use std::sync::Wait;
use std::thread::yield_now;

/// A lock round one boxed value, which threads change in turn. Those that wait come in no order, and nothing is said
/// of how long they wait.
#[derive(Drop)]
pub struct Turn<T: Shared> {
    pub(crate) table: Table<Slot<T>, View<T>, Snapshot<T>, Rule<T>, Global>,
    pub(crate) sleepers: Sleepers,
    pub(crate) batches: Batches,
    ghost sized: { (table.shared.table_id.words ≡ 3) × (table.shared.table_id.slots ≡ 1) },
}

impl<T: Shared> Turn<T> {
    ghost use Rattle.flash_turn.specs.Passes.{view_of, number_of, seen, took_face, left_face, left_own, fixed_of, IsPassOf, FitsPass};
    ghost use Rattle.flash_turn.specs.HeldValues.{value_of, taken_of, turn_of, pass_of, IsHolding, IsHeld};

    /// The lock of this value, and its first pass, which has the number 1 and has seen the whole story. The value
    /// has to own nothing for any number. Where there is no memory, the value comes back.
    pub fn new(alloc: Global, value: T) -> Result<(Turn<T>, Pass<T>), T>
        requires { T.own value ≡ [] }
        ensures made { IfOk result (λ made. IsPassOf T.fixed made.0 made.1 × (number_of made.1 ≡ 1)
            × (seen T.story made.1 ≡ T.story value) × (left_own T.own made.1 ≡ []) × (took_face T.face made.1 ≡ None)
            × (left_face T.face made.1 ≡ None) × (fixed_of T.fixed made.0 ≡ T.fixed value)) }
        ensures refused { IfErr result (λ back. back ≡ value) }
    {
        let start = Snapshot::of(&value);
        let boxed = match Box::new(alloc, value) {
            Ok(boxed) => boxed,
            Err(AllocFailed { value }) => return Err(value),
        };
        let mut slots = match Vec::with_capacity(alloc, 1) {
            Ok(slots) => slots,
            Err(_) => return Err(Box::into_inner(boxed)),
        };
        slots.push_reserved(Some(boxed));
        match Table::new(alloc, &[0, 0, 2], slots, &start) {
            Ok((table, seat)) => {
                let turn = Turn {
                    table,
                    sleepers: Sleepers::new(),
                    batches: Batches::new(),
                };
                Ok((turn, Pass { seat, number: 1 }))
            }
            Err(Refused { slots }) => Err(emptied(slots)),
        }
    }

    /// Waits for its turn, and takes the value: its story begins with all that the pass has seen, the things of the
    /// pass's number are as it left them, and the fixed part is that of the value that the lock was made of.
    pub fn enter<'a, R: Wait>(&'a self, rt: &R, pass: &'a mut Pass<T>) -> Held<'a, T>
        requires { IsPassOf T.fixed self.now pass.old }
        ensures same_pass { result.pass.ghost_name ≡ pass.entry.ghost_name }
        ensures same_turn { turn_of result ≡ self.now }
        ensures held { IsHeld T.fixed result }
        ensures number { number_of (pass_of result) ≡ number_of pass.old }
        ensures value { value_of result ≡ taken_of result }
        ensures told { FitsPass T.story T.own T.fixed self.now pass.old (taken_of result) }
    {
        let value = self.take(rt, pass);
        let taken = Snapshot::of(&*value);
        HeldIn {
            pass,
            turn: self,
            value,
            taken,
        }
    }

    // Draws a ticket, and takes the value once it is served.
    fn take<R: Wait>(&self, rt: &R, pass: &mut Pass<T>) -> Box<T>
        requires { IsPassOf T.fixed self.now pass.old }
        ensures table { pass.new.seat.table_id ≡ pass.old.seat.table_id }
        ensures slot { pass.new.seat.me.1 ≡ (0, None) ∷ [] }
        ensures number { number_of pass.new ≡ number_of pass.old }
        ensures holding { IsHolding (number_of pass.new) (view_of pass.new) }
        ensures took { (view_of pass.new).took ≡ Some result.value }
        ensures told { FitsPass T.story T.own T.fixed self.now pass.old result.value }
    {
        let shared = &self.table.shared;
        let ticket = self.draw(rt, pass);
        for _ in rt.forever() {
            if shared.load::<Look<T>>(&mut pass.seat, 1) == ticket {
                return shared.exchange(&mut pass.seat, 0, None).unwrap();
            }
            yield_now();
        }
        unreachable!()
    }
}

// The value out of the slot that has it.
fn emptied<T>(mut slots: Vec<Slot<T>>) -> T
    requires { (boxed : Box T _) × (slots.items ≡ Some boxed ∷ []) }
    ensures { (boxed : Box T _) → slots.items ≡ Some boxed ∷ [] → result ≡ boxed.value }
{
    let boxed = slots.pop().unwrap().unwrap();
    slots.destroy_empty();
    Box::into_inner(boxed)
}
