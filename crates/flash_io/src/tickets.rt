ghost use Rattle.std.specs.Prelude.{◌≡◌, ◌<◌, ◌↔◌, [], false, length, None, Some, IfNone, IfOk, IfSome, OnErr, IsSome, IsSomeAnd, IsTrue, is_some, option_map, slice_get};
ghost use Rattle.flash_names.specs.declared.place.Id.{Id};
ghost use Rattle.flash_io.specs.declared.job.ReadJob.{ReadJob};
ghost use Rattle.flash_io.specs.States.{is_over};
ghost use Rattle.flash_io.specs.Row.{first_row};
ghost use Rattle.flash_io.specs.Slots.{has_spare};
ghost use Rattle.flash_io.specs.TicketTable.{no_tickets, row_of, next_id, queued_with, asked_row};
ghost use Rattle.flash_io.specs.Sound.{IsSound, HasOpen, HasNoOpen, KeepsOpen, OpensNone, OpensOnly, KeepsOthers, IsOut};
ghost use Rattle.flash_io.specs.Answers.{answer_of, IsAskedOf, IsCopyOf, IsJob};

use crate::row::TicketRow;
use crate::{Asked, Collected, ReadJob, State, Ticket, queue, slots};
use flash_entry::{Cause, Closed, Head};
use flash_names::{Blob, Id, Key, Place};
use slab::Slab;
use std::alloc::{AllocError, Global};
use std::collections::VecDeque;
use std::marker::Model;

/// All tickets, and the queue of those that no reader has taken.
#[derive(Debug, Drop)]
pub struct Tickets {
    rows: Slab<TicketRow>,
    queue: VecDeque<usize>,
}

impl Model for Tickets {
    ghost use Rattle.flash_io.specs.TicketTable.{TicketTable, table_code, table_of};
    ghost use Rattle.flash_io.specs.Sound.{IsSound};

    ghost Value = { TicketTable };

    ghost coded = { table_code };

    ghost view = { λ t. table_of t.rows t.queue.items };

    ghost invariant = { λ t. IsSound (table_of t.rows t.queue.items) };
}

impl Tickets {
    ghost use Rattle.flash_io.specs.Calls.{after, submits, flies, loses, ends, takes_spare, collects, forgets, IsOpenTicket};

    /// No tickets.
    pub fn new(alloc: Global) -> Tickets
        ensures empty { result ≡ no_tickets }
        ensures fresh { (id : Id) → HasNoOpen result id }
    {
        Tickets {
            rows: Slab::new(alloc),
            queue: VecDeque::new(alloc),
        }
    }

    /// What is so of all tickets at any time: each queued one is in the queue once and nothing else is, and no two
    /// open ones have one id.
    pub fn keep_the_law(&self)
        ensures { IsSound self.now }
    {
        let _queue = &self.queue;
    }

    /// Whether no ticket is kept: none is open, and no reader has the job of a forgotten one.
    pub fn is_empty(&self) -> bool
        ensures { IsTrue result ↔ (self.now ≡ no_tickets) }
    {
        self.rows.is_empty()
    }

    /// A ticket at the queue's end, for the read of this record for the step of this id; or out of memory. It takes
    /// the memory for the record and, where it is to be recached, for a second copy of its value. No open ticket may
    /// have the id.
    pub fn submit(
        &mut self,
        alloc: Global,
        id: Id,
        key: &Key,
        place: Place,
        head: Head,
        recache: bool,
    ) -> Result<Ticket, AllocError>
        requires { HasNoOpen self.old id }
        ensures id { IfOk result (λ ticket. ticket.id ≡ id) }
        ensures free { IfOk result (λ ticket. row_of self.old ticket.slot ≡ None) }
        ensures after { let row = first_row id key.now place head recache in
            IfOk result (λ ticket. self.new ≡ after (submits ticket.slot row) self.old) }
        ensures opened { IfOk result (λ ticket. IsOpenTicket self.new ticket) }
        ensures keeps { KeepsOpen self.old self.new }
        ensures opens { OpensOnly id self.old self.new }
        ensures refused { OnErr result (self.new ≡ self.old) }
    {
        let row = TicketRow::new(alloc, id, key, place, head, recache)?;
        self.queue.reserve(1)?;
        self.rows.reserve(1)?;
        let slot = slots::add(&mut self.rows, row);
        self.queue.push_back_reserved(slot);
        Ok(Ticket { slot, id })
    }

    /// The id of the queue's first ticket, `None` where the queue is empty.
    pub fn next(&self) -> Option<Id>
        ensures exact { result ≡ next_id self.now }
        ensures none { (result ≡ None) ↔ (self.now.queue ≡ []) }
    {
        let slot = queue::first(&self.queue)?;
        let row = &self.rows[slot];
        Some(row.id())
    }

    /// A reader of this number takes the queue's first ticket, which is flying from then on. The queue may not be
    /// empty.
    pub fn fly(&mut self, reader: u32) -> ReadJob
        requires { 0 < length self.old.queue }
        ensures first { slice_get self.old.queue 0 ≡ Some result.slot }
        ensures job { IsSomeAnd (row_of self.old result.slot) (IsJob result) }
        ensures after { self.new ≡ after (flies result.slot reader) self.old }
        ensures out { IsOut self.new result }
        ensures keeps { KeepsOpen self.old self.new }
        ensures opens { OpensNone self.old self.new }
    {
        let Some(slot) = self.queue.pop_front() else {
            unreachable!()
        };
        slots::fly(&mut self.rows, slot, reader)
    }

    /// A reader of this number takes the queued ticket of the id, `None` where no queued ticket has it. The order of
    /// the others stays.
    pub fn fly_of(&mut self, id: Id, reader: u32) -> Option<ReadJob>
        ensures slot { option_map (λ job. job.slot) result ≡ queued_with self.old id }
        ensures job { IfSome result (λ job. IsSomeAnd (row_of self.old job.slot) (IsJob job)) }
        ensures after { IfSome result (λ job. self.new ≡ after (flies job.slot reader) self.old) }
        ensures out { IfSome result (IsOut self.new) }
        ensures keeps { KeepsOpen self.old self.new }
        ensures opens { OpensNone self.old self.new }
        ensures none { IfNone result (self.new ≡ self.old) }
    {
        match queue::take_id(&mut self.queue, &self.rows, id) {
            None => None,
            Some(slot) => Some(slots::fly(&mut self.rows, slot, reader)),
        }
    }

    /// The read of the job has ended, and its ticket is closed so. The ticket in the job's slot has to be flying and
    /// to have the job's id and place.
    pub fn finish(&mut self, job: ReadJob, closed: Closed)
        requires { IsOut self.old job }
        ensures after { self.new ≡ after (ends job.slot (State.Done closed)) self.old }
        ensures keeps { KeepsOpen self.old self.new }
        ensures opens { OpensNone self.old self.new }
    {
        self.land(job, State::Done(closed));
    }

    /// The read of the job is given up, and its ticket answers that memory ran out. The ticket in the job's slot has
    /// to be flying and to have the job's id and place.
    pub fn give_up(&mut self, job: ReadJob)
        requires { IsOut self.old job }
        ensures after { self.new ≡ after (ends job.slot State.GivenUp) self.old }
        ensures keeps { KeepsOpen self.old self.new }
        ensures opens { OpensNone self.old self.new }
    {
        self.land(job, State::GivenUp);
    }

    /// The queued ticket of the id is closed as lost, since its page has ended. There has to be one.
    pub fn lose(&mut self, id: Id)
        requires { IsSome (queued_with self.old id) }
        ensures after { IfSome (queued_with self.old id) (λ slot. self.new ≡ after (loses slot) self.old) }
        ensures keeps { KeepsOpen self.old self.new }
        ensures opens { OpensNone self.old self.new }
    {
        let Some(slot) = queue::take_id(&mut self.queue, &self.rows, id) else {
            unreachable!()
        };
        slots::end(
            &mut self.rows,
            slot,
            State::Done(Closed::Lost(Cause::Ended)),
        );
    }

    /// What was submitted for the queued ticket of the id or, with a slot, for the flying one of that id in it;
    /// `None` where there is no such ticket.
    pub fn asked(&self, id: Id, slot: Option<usize>) -> Option<Asked<'_>>
        ensures { IsAskedOf (asked_row self.now id slot) result }
    {
        match slot {
            Some(slot) => slots::asked_flying(&self.rows, slot, id),
            None => match queue::find_id(&self.queue, &self.rows, id) {
                None => None,
                Some(slot) => slots::asked(&self.rows, slot),
            },
        }
    }

    /// The memory for the second copy, of the value's length, where the ticket in the slot is flying, was submitted
    /// for recaching, and it wasn't taken yet.
    pub fn take_spare(&mut self, slot: usize) -> Option<Blob>
        ensures there { is_some result ≡ has_spare (row_of self.old slot) }
        ensures whole { IfSome result (IsCopyOf (row_of self.old slot)) }
        ensures after { self.new ≡ after (takes_spare slot) self.old }
        ensures keeps { KeepsOpen self.old self.new }
        ensures opens { OpensNone self.old self.new }
        ensures out { (job : ReadJob) → IsOut self.old job → IsOut self.new job }
    {
        slots::take_spare(&mut self.rows, slot)
    }

    /// What the owner of the ticket is told. A ticket whose read has ended is spent. The ticket has to be open.
    pub fn collect(&mut self, ticket: Ticket) -> Collected
        requires { IsOpenTicket self.old ticket }
        ensures told { IsSomeAnd (row_of self.old ticket.slot) (λ row. result ≡ answer_of ticket row.state) }
        ensures after { self.new ≡ after (collects ticket.slot) self.old }
        ensures others { KeepsOthers ticket.id self.old self.new }
        ensures opens { OpensNone self.old self.new }
    {
        slots::collect(&mut self.rows, ticket)
    }

    /// The owner gives the ticket up. Its slot is free, or will be when its job has ended. The ticket has to be open.
    pub fn forget(&mut self, ticket: Ticket)
        requires { IsOpenTicket self.old ticket }
        ensures after { self.new ≡ after (forgets ticket.slot) self.old }
        ensures others { KeepsOthers ticket.id self.old self.new }
        ensures opens { OpensNone self.old self.new }
        ensures out { (job : ReadJob) → IsOut self.old job → IsOut self.new job }
    {
        let Ticket { slot, id: _ } = ticket;
        let row = &self.rows[slot];
        let queued = row.is_queued();
        queue::take_if(&mut self.queue, slot, queued);
        slots::forget(&mut self.rows, slot);
    }

    // The read of the job has ended, and leaves its ticket in this state.
    fn land(&mut self, job: ReadJob, state: State)
        requires out { IsOut self.old job }
        requires over { IsTrue (is_over state) }
        ensures after { self.new ≡ after (ends job.slot state) self.old }
        ensures keeps { KeepsOpen self.old self.new }
        ensures opens { OpensNone self.old self.new }
    {
        let ReadJob {
            slot,
            id: _,
            place: _,
            bytes: _,
        } = job;
        slots::land(&mut self.rows, slot, state);
    }
}
