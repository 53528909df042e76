use crate::{Gone, Stored, Sum, Tally, Touched};
use flash_names::Blob;

/// What an item is without its value, as the flags of a meta get ask for it (memcached's doc/protocol.txt,
/// "Meta Get").
#[derive(Clone, Copy, Debug, PartialEq, Eq)]
pub struct Head {
    /// The client's own number that was stored with the value (flag `f`).
    pub flags: u32,
    /// The item's CAS number, above 0 (flag `c`).
    pub cas: u64,
    /// The number of the value's bytes (flag `s`).
    pub size: u32,
    /// The whole seconds that are left to its deadline, -1 where it has none (flag `t`).
    pub left: i64,
    /// Whether it was fetched before (flag `h`).
    pub before: bool,
    /// The whole seconds since its last access (flag `l`).
    pub idle: u64,
}

/// An item with its value.
#[derive(Debug, Drop)]
pub struct Hit {
    /// What it is without its value.
    pub head: Head,
    /// The value's bytes.
    pub value: Blob,
}

/// Why an item that was found could not be answered.
#[derive(Clone, Copy, Debug, PartialEq, Eq)]
pub enum Cause {
    /// Its page had ended before it was read.
    Ended,
    /// The device failed to read it.
    Fault,
    /// The bytes that were read are no record of it.
    Damaged,
}

/// How a lookup of an item on flash was closed.
#[derive(Debug, Drop)]
pub enum Closed {
    /// The item is answered.
    Hit(Hit),
    /// Nothing is answered, for this cause.
    Lost(Cause),
}

/// How a device's read or write ended.
#[derive(Clone, Copy, Debug, PartialEq, Eq)]
pub enum Outcome {
    /// All its bytes were read or written.
    Good,
    /// The device failed it.
    Failed,
}

/// What a lookup found, as a session is told it.
#[derive(Debug, Drop)]
pub enum LookAnswer {
    /// No live item is under the key.
    Miss,
    /// An item, where the head alone was wanted.
    Head(Head),
    /// An item, where its value was wanted.
    Hit(Hit),
}

/// What a session is told of a step.
#[derive(Debug, Drop)]
pub enum Told {
    /// What a lookup found.
    Found(LookAnswer),
    /// The answer to a `Put`.
    Stored(Stored),
    /// The answer to a delete.
    Gone(Gone),
    /// The answer to arithmetic.
    Sum(Sum),
    /// The answer to a touch.
    Touched(Touched),
    /// A flush was done; it has no other answer.
    Flushed,
    /// The store's numbers.
    Tally(Tally),
    /// Memory ran out, and the step did nothing.
    NoMemory,
}
