use flash_entry::{Closed, Head};
use flash_names::{Blob, Id, Key, Place};

/// A read that was submitted. It can't be dropped: `collect` or `forget` takes it.
#[derive(Debug)]
pub struct Ticket {
    /// The slot that keeps it. Once the ticket was collected or forgotten, the slot may be that of another.
    pub slot: usize,
    /// The step that submitted it.
    pub id: Id,
}

/// A read that a reader has taken out of the queue. It can't be dropped: `finish` or `give_up` takes it.
#[derive(Debug)]
pub struct ReadJob {
    /// Its ticket's slot.
    pub slot: usize,
    /// The step that submitted the ticket.
    pub id: Id,
    /// The record's place.
    pub place: Place,
    /// The memory to read the record into: as many bytes as the place has, of any value before the read.
    pub bytes: Blob,
}

/// What a ticket was submitted with.
#[derive(Debug, Drop)]
pub struct Asked<'a> {
    /// The item's key.
    pub key: &'a Key,
    /// The record's place.
    pub place: Place,
    /// What the item is without its value.
    pub head: Head,
    /// Whether the value is to be brought back to memory.
    pub recache: bool,
}

/// What a ticket's owner is told.
#[derive(Debug)]
pub enum Collected {
    /// No reader has taken it yet.
    Queued(Ticket),
    /// A reader reads its record.
    Flying(Ticket),
    /// It was closed so.
    Done(Closed),
    /// Its read was given up, since memory ran out.
    NoMemory,
}
