use crate::{
    Arith, Cause, DropCause, EndCause, Gone, Hit, Look, Put, Residence, Stored, Sum, Tally, Touched,
};
use flash_names::{Id, Key, Label, Place};

/// A command's step that was done, borrowed: the `Done` of the same name.
#[derive(Clone, Copy)]
pub enum DoneNote<'a> {
    /// `Done::Store`.
    Store(&'a Put, Stored),
    /// `Done::Delete`, with the CAS number that the item had to have, if one was given.
    Delete(&'a Key, Option<u64>, Gone),
    /// `Done::Sum`.
    Sum(&'a Arith, Sum),
    /// `Done::Touch`, with the new exptime.
    Touch(&'a Key, i64, Touched),
    /// `Done::Flush`, with the delay.
    Flush(i64),
    /// `Done::Stats`.
    Stats(Tally),
}

/// How a lookup of an item on a page was closed, borrowed: the `Close` of the same name.
#[derive(Clone, Copy)]
pub enum CloseNote<'a> {
    /// `Close::Hit`: answered with the flags, CAS number and value of this item.
    Hit(&'a Hit),
    /// `Close::Lost`: not answered, for this cause.
    Lost(Cause),
}

/// An entry to be noted, borrowed: the `Entry` of the same name. Each kind holds at most one reference.
#[derive(Clone, Copy)]
pub enum Note<'a> {
    /// `Entry::Clock`, with the moment in Unix seconds.
    Clock(u64),
    /// `Entry::Did`, with the step and its answer.
    Did(Id, DoneNote<'a>),
    /// `Entry::Looked`, with what was asked and where the value was found.
    Looked(Id, &'a Key, Look, Residence),
    /// `Entry::FromBuffer`, with the value's place.
    FromBuffer(Id, Place),
    /// `Entry::ReadBegan`, with the place and the number of the pass that reads.
    ReadBegan(Id, Place, u32),
    /// `Entry::ReadEnded`, with the bytes, or none where the read failed.
    ReadEnded(Id, Option<&'a [u8]>),
    /// `Entry::Closed`, with how it was closed.
    Closed(Id, CloseNote<'a>),
    /// `Entry::Moved`, with the item's CAS number and the page.
    Moved(&'a Key, u64, Label),
    /// `Entry::Recached`, with the item's CAS number.
    Recached(&'a Key, u64),
    /// `Entry::Dropped`, with the cause.
    Dropped(&'a Key, DropCause),
    /// `Entry::WriteBegan`, with the place.
    WriteBegan(Place),
    /// `Entry::WriteEnded`, with the place and the bytes, or none where the write failed.
    WriteEnded(Place, Option<&'a [u8]>),
    /// `Entry::Opened`, with the page and its new version.
    Opened(Label),
    /// `Entry::Ended`, with the page and the cause.
    Ended(Label, EndCause),
    /// `Entry::Freed`, with the page.
    Freed(Label),
}
