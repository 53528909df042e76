ghost use Rattle.std.specs.Prelude.{◌≡◌, None};

use crate::rule::Draw;
use crate::{Pass, Shared, Turn};
use std::hint::spin_loop;
use std::sync::Wait;

// How often a thread looks at a lock that isn't free before it sleeps.
const SPINS: u32 = 100;

impl<T: Shared> Turn<T> {
    ghost use Rattle.flash_turn.specs.Passes.{view_of, number_of};
    ghost use Rattle.flash_turn.specs.Steps.{Draws, MayDraw};

    /// Waits until the lock is free, and draws a ticket, which is then the served one. A thread that waits has no
    /// ticket, so none waits after one that doesn't run, and they get their turns in no order.
    pub(crate) fn draw<R: Wait>(&self, rt: &R, pass: &mut Pass<T>) -> u64
        requires table { pass.old.seat.table_id ≡ self.now.table.shared.table_id }
        requires ticket { (view_of pass.old).ticket ≡ None }
        ensures table { pass.new.seat.table_id ≡ pass.old.seat.table_id }
        ensures number { number_of pass.new ≡ number_of pass.old }
        ensures drawn { Draws pass.old.seat.me result pass.new.seat.me }
    {
        if let Some(ticket) = self.draw_awake(pass) {
            return ticket;
        }
        for _ in rt.forever() {
            let marked = self.sleepers.mark();
            if let Some(ticket) = self.try_draw(pass) {
                return ticket;
            }
            self.sleepers.sleep(rt, marked);
            // Free or not, the mark is set again and a ticket tried.
            self.spin_until_free();
        }
        unreachable!()
    }

    // Draws a ticket, if the lock is free now or soon.
    fn draw_awake(&self, pass: &mut Pass<T>) -> Option<u64>
        requires table { pass.old.seat.table_id ≡ self.now.table.shared.table_id }
        requires ticket { (view_of pass.old).ticket ≡ None }
        ensures table { pass.new.seat.table_id ≡ pass.old.seat.table_id }
        ensures number { number_of pass.new ≡ number_of pass.old }
        ensures drawn { MayDraw pass.old.seat.me result pass.new.seat.me }
    {
        let first = self.try_draw(pass);
        if first.is_none() && self.spin_until_free() {
            return self.try_draw(pass);
        }
        first
    }

    // Draws a ticket, if all that were drawn are served.
    fn try_draw(&self, pass: &mut Pass<T>) -> Option<u64>
        requires table { pass.old.seat.table_id ≡ self.now.table.shared.table_id }
        requires ticket { (view_of pass.old).ticket ≡ None }
        ensures table { pass.new.seat.table_id ≡ pass.old.seat.table_id }
        ensures number { number_of pass.new ≡ number_of pass.old }
        ensures drawn { MayDraw pass.old.seat.me result pass.new.seat.me }
    {
        let shared = &self.table.shared;
        let served = shared.peek(1);
        let next = served.wrapping_add(1);
        let found = shared.compare_exchange::<Draw>(&mut pass.seat, 0, served, next);
        if found == served { Some(found) } else { None }
    }

    // Looks until the lock is free, but not for long. It answers whether it is.
    fn spin_until_free(&self) -> bool {
        for _ in 0..SPINS {
            if self.is_free() {
                return true;
            }
            spin_loop();
        }
        false
    }

    fn is_free(&self) -> bool {
        let shared = &self.table.shared;
        shared.peek(0) == shared.peek(1)
    }
}
