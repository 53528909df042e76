ghost use Rattle.std.specs.Prelude.{◌≡◌, false, ◌&&◌, is_some, length, IfOk, IfSome, IsTrue};
ghost use Rattle.flash_io.specs.States.{is_queued, is_flying, is_forgotten, same_id};

use crate::Asked;
use flash_entry::{Closed, Head};
use flash_names::{Blob, Id, Key, Place};
use std::alloc::{AllocError, Global};
use std::marker::Model;

/// Where the read of a ticket is.
#[derive(Debug, Drop)]
pub enum State {
    /// It waits in the queue.
    Queued,
    /// A reader has its job.
    Flying {
        /// The reader's number.
        reader: u32,
        /// Whether the ticket wasn't forgotten.
        awaited: bool,
    },
    /// It was closed so.
    Done(Closed),
    /// Its read was given up, since memory ran out.
    GivenUp,
}

/// What is kept of a ticket.
#[derive(Debug, Drop)]
pub struct TicketRow {
    id: Id,
    key: Key,
    place: Place,
    head: Head,
    recache: bool,
    bytes: Option<Blob>,
    spare: Option<Blob>,
    state: State,
}

impl Model for TicketRow {
    ghost use Rattle.std.specs.Prelude.{◌≡◌, is_some, length};
    ghost use Rattle.std.specs.Option.{ForSome};
    ghost use Rattle.flash_io.specs.Row.{Row, HasBytes};

    ghost Value = { Row };

    ghost view = { λ r. record {
      id = r.id;
      key = r.key;
      place = r.place;
      head = r.head;
      recache = r.recache;
      spare = is_some r.spare;
      state = r.state;
    } };

    ghost invariant = { λ r. HasBytes r.place.length r.bytes r.state
        × ForSome r.spare (λ bytes. length bytes ≡ r.head.size) };
}

impl TicketRow {
    ghost use Rattle.flash_io.specs.Row.{first_row, in_flight, closed, forgotten, without_spare};
    ghost use Rattle.flash_io.specs.Answers.{IsAsked};

    /// The row of a queued ticket, with the memory for its record and, where it is to be recached, for a second copy
    /// of its value.
    pub fn new(
        alloc: Global,
        id: Id,
        key: &Key,
        place: Place,
        head: Head,
        recache: bool,
    ) -> Result<TicketRow, AllocError>
        ensures { IfOk result (λ row. row ≡ first_row id key.now place head recache) }
    {
        let bytes = zeros(alloc, place.length)?;
        let spare = zeros_if(alloc, recache, head.size)?;
        Ok(TicketRow {
            id,
            key: key.copy(),
            place,
            head,
            recache,
            bytes: Some(bytes),
            spare,
            state: State::Queued,
        })
    }

    /// The step that submitted it.
    pub fn id(&self) -> Id
        ensures { result ≡ self.now.id }
    {
        self.id
    }

    /// Whether that step submitted it.
    pub fn has_id(&self, id: Id) -> bool
        ensures { result ≡ same_id self.now.id id }
    {
        self.id.pass == id.pass && self.id.seq == id.seq
    }

    /// The record's place.
    pub fn place(&self) -> Place
        ensures { result ≡ self.now.place }
    {
        self.place
    }

    /// What it was submitted with.
    pub fn asked(&self) -> Asked<'_>
        ensures { IsAsked result self.now }
    {
        Asked {
            key: &self.key,
            place: self.place,
            head: self.head,
            recache: self.recache,
        }
    }

    /// Whether it waits in the queue.
    pub fn is_queued(&self) -> bool
        ensures { result ≡ is_queued self.now.state }
    {
        matches!(self.state, State::Queued)
    }

    /// Whether a reader has its job.
    pub fn is_flying(&self) -> bool
        ensures { result ≡ is_flying self.now.state }
    {
        matches!(self.state, State::Flying { .. })
    }

    /// Whether a reader has its job and the ticket was forgotten.
    pub fn is_forgotten(&self) -> bool
        ensures { result ≡ is_forgotten self.now.state }
    {
        match self.state {
            State::Flying { awaited, .. } => !awaited,
            _ => false,
        }
    }

    /// Whether a reader has its job and the memory for the second copy is still there.
    pub fn has_spare(&self) -> bool
        ensures { result ≡ (is_flying self.now.state && self.now.spare) }
    {
        matches!(self.state, State::Flying { .. }) && self.spare.is_some()
    }

    /// A reader takes its job: the memory for the record, of the place's length. It has to be queued.
    pub fn fly(&mut self, reader: u32) -> Blob
        requires { IsTrue (is_queued self.old.state) }
        ensures bytes { length result ≡ self.old.place.length }
        ensures after { self.new ≡ in_flight reader self.old }
    {
        let Some(bytes) = self.bytes.take() else {
            unreachable!()
        };
        self.state = State::Flying {
            reader,
            awaited: true,
        };
        bytes
    }

    /// Its read has ended in this state, and its memory is let go.
    pub fn end(&mut self, state: State)
        requires { is_queued state ≡ false }
        ensures { self.new ≡ closed state self.old }
    {
        self.bytes = None;
        self.spare = None;
        self.state = state;
    }

    /// Its ticket is forgotten while a reader has its job.
    pub fn forget(&mut self)
        requires { IsTrue (is_flying self.old.state) }
        ensures { self.new ≡ forgotten self.old }
    {
        if let State::Flying { reader, .. } = self.state {
            self.state = State::Flying {
                reader,
                awaited: false,
            };
        }
    }

    /// The memory for the second copy, of the value's length, where it is still there.
    pub fn take_spare(&mut self) -> Option<Blob>
        ensures there { is_some result ≡ self.old.spare }
        ensures whole { IfSome result (λ bytes. length bytes ≡ self.old.head.size) }
        ensures after { self.new ≡ without_spare self.old }
    {
        self.spare.take()
    }

    /// Its state. The rest is let go.
    pub fn into_state(self) -> State
        ensures { result ≡ self.state }
    {
        let TicketRow { state, .. } = self;
        state
    }
}

// So many zero bytes.
fn zeros(alloc: Global, count: u32) -> Result<Blob, AllocError>
    ensures { IfOk result (λ bytes. length bytes ≡ count) }
{
    Ok(Blob::from(vec![in alloc; 0u8; count as usize]?))
}

// So many zero bytes, where they are wanted.
fn zeros_if(alloc: Global, wanted: bool, count: u32) -> Result<Option<Blob>, AllocError>
    ensures there { IfOk result (λ bytes. is_some bytes ≡ wanted) }
    ensures whole { IfOk result (λ bytes. IfSome bytes (λ some. length some ≡ count)) }
{
    if wanted {
        Ok(Some(zeros(alloc, count)?))
    } else {
        Ok(None)
    }
}
