/// The answer to a `Put`.
#[derive(Clone, Copy, Debug, PartialEq, Eq)]
pub enum Stored {
    /// It is stored under this CAS number.
    Stored(u64),
    /// The mode's condition failed.
    NotStored,
    /// The item has another CAS number than the one given.
    Exists,
    /// A CAS number was given and there is no item.
    NotFound,
    /// The value has more bytes than an item may have.
    TooLarge,
    /// The last CAS number was given out.
    NoNumber,
}

/// The answer to a delete (memcached's doc/protocol.txt, "Deletion").
#[derive(Clone, Copy, Debug, PartialEq, Eq)]
pub enum Gone {
    /// The item was there, and is gone.
    Deleted,
    /// There is no item under the key.
    NotFound,
    /// The item has another CAS number than the one given.
    Exists,
}

/// The number that arithmetic left.
#[derive(Clone, Copy, Debug, PartialEq, Eq)]
pub struct Summed {
    /// The number that the item holds now.
    pub number: u64,
    /// The item's new CAS number.
    pub cas: u64,
    /// The whole seconds that are left to its deadline, -1 where it has none.
    pub left: i64,
}

/// The answer to arithmetic (memcached's doc/protocol.txt, "Increment/Decrement").
#[derive(Clone, Copy, Debug, PartialEq, Eq)]
pub enum Sum {
    /// The number that was under the key was changed to this one.
    Now(Summed),
    /// No item was under the key, and this number was stored, as `Arith::create` asks.
    Created(Summed),
    /// No item is under the key, and nothing was to be stored in its place.
    NotFound,
    /// The value is no decimal number below 2^64.
    NonNumeric,
    /// The item has another CAS number than the one given.
    Exists,
    /// The last CAS number was given out.
    NoNumber,
}

/// The answer to a touch (memcached's doc/protocol.txt, "Touch").
#[derive(Clone, Copy, Debug, PartialEq, Eq)]
pub enum Touched {
    /// The item has the new deadline.
    Touched,
    /// There is no item under the key.
    NotFound,
}

/// The store's numbers.
#[derive(Clone, Copy, Debug, PartialEq, Eq)]
pub struct Tally {
    /// The number of items, dead ones that were not dropped yet included.
    pub items: u64,
    /// The load in bytes: what `Geometry::memory` bounds.
    pub load: u64,
    /// The last CAS number that was given out, 0 before the first.
    pub last_cas: u64,
    /// The store's moment, in Unix seconds.
    pub now: u64,
    /// The number of pages of the flash file that are free.
    pub free_pages: u64,
}
