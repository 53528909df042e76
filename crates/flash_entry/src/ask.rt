use flash_names::{Blob, Key};

/// How a value is stored (memcached's doc/protocol.txt, "Storage commands").
#[derive(Clone, Copy, Debug, PartialEq, Eq)]
pub enum Mode {
    /// Under the key, whatever is there.
    Set,
    /// Only where nothing is there.
    Add,
    /// Only where something is there.
    Replace,
    /// After the value that is there, whose flags and deadline stay.
    Append,
    /// Before the value that is there, whose flags and deadline stay.
    Prepend,
}

/// A value to be stored, as a storage command gives it (memcached's doc/protocol.txt, "Storage commands").
#[derive(Debug, Drop)]
pub struct Put {
    /// The key that it is stored under.
    pub key: Key,
    /// Where and how it is stored.
    pub mode: Mode,
    /// The client's own number, given back with the value.
    pub flags: u32,
    /// When the item is dead (protocol.txt, "Expiration times"): 0 is never, 1 to 2,592,000 are seconds from now,
    /// a greater number is a Unix second, and a negative one is at once.
    pub exptime: i64,
    /// The CAS number that the item must have, if one was given.
    pub compare: Option<u64>,
    /// The value, or what is joined to the one that is there.
    pub value: Blob,
}

/// What arithmetic stores where nothing is under the key.
#[derive(Clone, Copy, Debug, PartialEq, Eq)]
pub struct Create {
    /// The exptime of the new item, as `Put::exptime`.
    pub exptime: i64,
    /// The number that it starts with.
    pub start: u64,
}

/// Arithmetic on a stored decimal number (memcached's doc/protocol.txt, "Increment/Decrement").
#[derive(Debug, Drop)]
pub struct Arith {
    /// The key of the number.
    pub key: Key,
    /// Whether the delta is taken away, and not added.
    pub down: bool,
    /// How much is added or taken away.
    pub delta: u64,
    /// The CAS number that the item must have, if one was given.
    pub compare: Option<u64>,
    /// The item's new exptime, if one was given, as `Put::exptime`.
    pub renew: Option<i64>,
    /// What to store where the key has no item, if anything.
    pub create: Option<Create>,
}

/// How a key is looked up (memcached's doc/protocol.txt, "Retrieval command" and "Meta Get").
#[derive(Clone, Copy, Debug, PartialEq, Eq)]
pub struct Look {
    /// Whether the value is wanted, and not the head alone.
    pub value: bool,
    /// The item's new exptime, if one was given, as `Put::exptime`.
    pub renew: Option<i64>,
}

/// One step of a command, as a session asks it of the store.
#[derive(Debug, Drop)]
pub enum Ask {
    /// Looks the key up.
    Look(Key, Look),
    /// Stores a value.
    Store(Put),
    /// Deletes the key's item, with the CAS number that it must have, if one was given.
    Delete(Key, Option<u64>),
    /// Changes a stored number.
    Sum(Arith),
    /// Gives the key's item a new exptime, as `Put::exptime`.
    Touch(Key, i64),
    /// Drops all items that are there, with the delay: an exptime that isn't negative.
    Flush(i64),
    /// Asks for the store's numbers.
    Stats,
}
