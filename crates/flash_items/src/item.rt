ghost use Rattle.std.specs.Prelude.{◌≡◌, ◌≤◌, length};
ghost use Rattle.flash_items.specs.Item.{size_of, IsSmall, parts_of as the_parts};

use flash_keys::KeyId;
use flash_names::{Blob, Key, Place};

/// Where an item's value is.
#[derive(Debug, Drop)]
pub enum Body {
    /// In memory.
    Here(Blob),
    /// On flash, in the record of this place.
    Away(Place),
}

/// An item of the cache.
#[derive(Debug, Drop)]
pub struct Item {
    /// Its key.
    pub key: Key,
    /// The flags that it was stored with.
    pub flags: u32,
    /// Its CAS number.
    pub cas: u64,
    /// The moment from which on it is dead, in seconds; `None` where it never is.
    pub deadline: Option<u64>,
    /// Whether it was fetched since it was stored.
    pub fetched: bool,
    /// The moment of its last use, in seconds.
    pub access: u64,
    /// Its value.
    pub body: Body,
}

/// What an item has beside its key.
#[derive(Debug, Drop)]
pub struct Parts {
    /// The flags that it was stored with.
    pub flags: u32,
    /// Whether it was fetched since it was stored.
    pub fetched: bool,
    /// Its CAS number.
    pub cas: u64,
    /// The moment from which on it is dead, in seconds; `None` where it never is.
    pub deadline: Option<u64>,
    /// The moment of its last use, in seconds.
    pub access: u64,
    /// Its value.
    pub body: Body,
}

/// An item, lent for reading.
#[derive(Debug, Drop)]
pub struct ItemView<'a> {
    /// Its key's bytes.
    pub key: &'a [u8],
    /// What it has beside its key.
    pub parts: &'a Parts,
}

/// What is kept of an item: its key by the name of the bytes.
#[derive(Debug, Drop)]
pub struct Entry {
    /// The name of its key's bytes.
    pub key: KeyId,
    /// The rest.
    pub parts: Parts,
}

/// The size in bytes of an item whose key has so many bytes.
pub fn size_of(key_length: usize, body: &Body) -> u32
    requires key { key_length ≤ 250 }
    requires value { IsSmall body.now }
    ensures { result ≡ size_of key_length body.now }
{
    let value = match body {
        Body::Here(value) => value.bytes().len(),
        Body::Away(_) => 0,
    };
    (64 + key_length + value) as u32
}

/// What an item has beside its key.
pub fn parts_of(item: Item) -> Parts
    ensures { result ≡ the_parts item }
{
    Parts {
        flags: item.flags,
        fetched: item.fetched,
        cas: item.cas,
        deadline: item.deadline,
        access: item.access,
        body: item.body,
    }
}
