ghost use Rattle.std.specs.Prelude.{◌≡◌};
ghost use Rattle.flash_table.specs.Entries.{vacant as the_vacant};

use flash_keys::KeyId;

/// What a slot of a group has: tag 0 where it is empty, and else the tag of a key from 1 to 255, the id of
/// the key's bytes and the number of its item.
#[derive(Clone, Copy, Drop)]
pub struct Entry {
    pub tag: u8,
    pub id: KeyId,
    pub item: u32,
}

// What an empty slot has.
pub fn vacant() -> Entry
    ensures { result ≡ the_vacant }
{
    Entry {
        tag: 0,
        id: KeyId { number: 0 },
        item: 0,
    }
}
