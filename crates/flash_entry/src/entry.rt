use crate::{Arith, Cause, Gone, Look, Put, Stored, Sum, Tally, Touched};
use flash_names::{Blob, Id, Key, Label, Place};

/// A command's step that was done, with its answer.
#[derive(Debug, Drop)]
pub enum Done {
    /// A value was stored, or refused.
    Store(Put, Stored),
    /// A key was deleted or wasn't, with the CAS number that its item had to have, if one was given.
    Delete(Key, Option<u64>, Gone),
    /// A stored number was changed or wasn't.
    Sum(Arith, Sum),
    /// A key's item was given this exptime, as `Put::exptime`, or there is none.
    Touch(Key, i64, Touched),
    /// All items that were there are dropped after this delay, an exptime that isn't negative.
    Flush(i64),
    /// The store's numbers were asked for.
    Stats(Tally),
}

/// Where a lookup found the value.
#[derive(Clone, Copy, Debug, PartialEq, Eq)]
pub enum Residence {
    /// No live item.
    Nothing,
    /// An item of this CAS number with its value in memory.
    Here(u64),
    /// An item of this CAS number with its value on a page.
    Away(u64, Label),
}

/// How a lookup of an item on a page was closed.
#[derive(Debug, Drop)]
pub enum Close {
    /// Answered with these flags, CAS number and value.
    Hit(u32, u64, Blob),
    /// Not answered, for this cause.
    Lost(Cause),
}

/// Why an item was dropped.
#[derive(Clone, Copy, Debug, PartialEq, Eq)]
pub enum DropCause {
    /// Its deadline was reached, or it was flushed.
    Dead,
    /// The load exceeded the memory.
    Evict,
    /// Its page had ended.
    Ended,
    /// The bytes on its page are no record of it.
    Damaged,
}

/// Why a page was ended.
#[derive(Clone, Copy, Debug, PartialEq, Eq)]
pub enum EndCause {
    /// Its live records were moved elsewhere.
    Compacted,
    /// It had the lowest version where pages ran short.
    Evict,
    /// A write of it failed.
    Fault,
}

/// An entry of the journal: one thing that happened to the store.
#[derive(Debug, Drop)]
pub enum Entry {
    /// The moment rose to this number of Unix seconds.
    Clock(u64),
    /// A command's step was done.
    Did(Id, Done),
    /// A key was looked up.
    Looked(Id, Key, Look, Residence),
    /// A lookup's value was read from a write buffer.
    FromBuffer(Id, Place),
    /// A read of the device began, made by the pass of this number.
    ReadBegan(Id, Place, u32),
    /// A read of the device ended, with its bytes or failed.
    ReadEnded(Id, Option<Blob>),
    /// A lookup of an item on a page was closed.
    Closed(Id, Close),
    /// The item of this CAS number was moved to a page.
    Moved(Key, u64, Label),
    /// The item of this CAS number was brought back to memory.
    Recached(Key, u64),
    /// The key's item was dropped.
    Dropped(Key, DropCause),
    /// A write of the device began.
    WriteBegan(Place),
    /// A write of the device ended, with its bytes or failed.
    WriteEnded(Place, Option<Blob>),
    /// A page was opened.
    Opened(Label),
    /// A page was ended: nothing of it is answered from then on.
    Ended(Label, EndCause),
    /// An ended page was freed.
    Freed(Label),
}
