ghost use Rattle.std.specs.Prelude.{◌≡◌, false, None, Some, IsSome, IfSome, IfNone, IsSomeAnd, is_some, IsTrue};
ghost use Rattle.slab.specs.Slab.{HasRoomFor, get, Updates};
ghost use Rattle.flash_io.specs.declared.job.Ticket.{Ticket};
ghost use Rattle.flash_io.specs.States.{is_queued, is_over};
ghost use Rattle.flash_io.specs.Row.{in_flight, closed, without_spare};
ghost use Rattle.flash_io.specs.Slots.{Changes, ended, dropped, has_spare, is_over_row, if_flying};
ghost use Rattle.flash_io.specs.Answers.{answer_of, IsAskedOf, IsCopyOf, IsJob};

use crate::row::TicketRow;
use crate::{Asked, Collected, ReadJob, State, Ticket};
use flash_names::{Blob, Id};
use slab::Slab;

/// Puts a row into a free slot. There has to be room for it.
pub fn add(rows: &mut Slab<TicketRow>, row: TicketRow) -> usize
    requires { HasRoomFor rows.old 1 }
    ensures free { get rows.old result ≡ None }
    ensures after { Updates rows.old rows.new result (Some row) }
{
    rows.insert_reserved(row)
}

/// The job of a queued ticket, which a reader takes.
pub fn fly(rows: &mut Slab<TicketRow>, slot: usize, reader: u32) -> ReadJob
    requires { IsSomeAnd (get rows.old slot) (λ row. IsTrue (is_queued row.state)) }
    ensures slot { result.slot ≡ slot }
    ensures job { IsSomeAnd (get rows.old slot) (IsJob result) }
    ensures after { Changes (λ row. Some (in_flight reader row)) slot rows.old rows.new }
{
    let row = &mut rows[slot];
    let id = row.id();
    let place = row.place();
    let bytes = row.fly(reader);
    ReadJob {
        slot,
        id,
        place,
        bytes,
    }
}

/// The read of the ticket has ended in this state.
pub fn end(rows: &mut Slab<TicketRow>, slot: usize, state: State)
    requires there { IsSome (get rows.old slot) }
    requires state { is_queued state ≡ false }
    ensures { Changes (λ row. Some (closed state row)) slot rows.old rows.new }
{
    let row = &mut rows[slot];
    row.end(state);
}

/// The job of the ticket has ended in this state. Where the ticket was forgotten, the slot is free.
pub fn land(rows: &mut Slab<TicketRow>, slot: usize, state: State)
    requires there { IsSome (get rows.old slot) }
    requires state { is_queued state ≡ false }
    ensures { Changes (ended state) slot rows.old rows.new }
{
    let row = &mut rows[slot];
    if row.is_forgotten() {
        rows.remove(slot);
    } else {
        row.end(state);
    }
}

/// The ticket is forgotten: the slot is free, unless a reader has its job.
pub fn forget(rows: &mut Slab<TicketRow>, slot: usize)
    requires { IsSome (get rows.old slot) }
    ensures { Changes dropped slot rows.old rows.new }
{
    let row = &mut rows[slot];
    if row.is_flying() {
        row.forget();
    } else {
        rows.remove(slot);
    }
}

/// The memory for the second copy of the value, where the ticket is flying and it is still there.
pub fn take_spare(rows: &mut Slab<TicketRow>, slot: usize) -> Option<Blob>
    ensures there { is_some result ≡ has_spare (get rows.old slot) }
    ensures whole { IfSome result (IsCopyOf (get rows.old slot)) }
    ensures taken { IsSome result → Changes (λ row. Some (without_spare row)) slot rows.old rows.new }
    ensures none { IfNone result (rows.new ≡ rows.old) }
{
    if !holds_spare(rows, slot) {
        return None;
    }
    let row = &mut rows[slot];
    row.take_spare()
}

/// What the ticket's owner is told. Where its read has ended, the slot is free.
pub fn collect(rows: &mut Slab<TicketRow>, ticket: Ticket) -> Collected
    requires { IsSome (get rows.old ticket.slot) }
    ensures told { IsSomeAnd (get rows.old ticket.slot) (λ row. result ≡ answer_of ticket row.state) }
    ensures over { IsTrue (is_over_row (get rows.old ticket.slot)) → Updates rows.old rows.new ticket.slot None }
    ensures other { is_over_row (get rows.old ticket.slot) ≡ false → rows.new ≡ rows.old }
{
    let slot = ticket.slot;
    let row = &rows[slot];
    if row.is_queued() {
        return Collected::Queued(ticket);
    }
    if row.is_flying() {
        return Collected::Flying(ticket);
    }
    let Ticket { slot: _, id: _ } = ticket;
    told(rows.remove(slot).into_state())
}

/// What was submitted for the ticket in the slot, where there is one.
pub fn asked(rows: &Slab<TicketRow>, slot: usize) -> Option<Asked<'_>>
    ensures { IsAskedOf (get rows.now slot) result }
{
    let row = rows.get(slot)?;
    Some(row.asked())
}

/// What was submitted for the ticket in the slot, where it is flying and has the id.
pub fn asked_flying(rows: &Slab<TicketRow>, slot: usize, id: Id) -> Option<Asked<'_>>
    ensures { IsAskedOf (if_flying id (get rows.now slot)) result }
{
    let row = rows.get(slot)?;
    if row.is_flying() && row.has_id(id) {
        Some(row.asked())
    } else {
        None
    }
}

// Whether the ticket in the slot is flying and the memory for its second copy is still there.
fn holds_spare(rows: &Slab<TicketRow>, slot: usize) -> bool
    ensures { result ≡ has_spare (get rows.now slot) }
{
    match rows.get(slot) {
        None => false,
        Some(row) => row.has_spare(),
    }
}

// The answer for a ticket whose read has ended.
fn told(state: State) -> Collected
    requires { IsTrue (is_over state) }
    ensures { (ticket : Ticket) → result ≡ answer_of ticket state }
{
    match state {
        State::Queued | State::Flying { .. } => unreachable!(),
        State::Done(how) => Collected::Done(how),
        State::GivenUp => Collected::NoMemory,
    }
}
