ghost use Rattle.std.specs.Prelude.{◌≡◌, ◌≢◌, ◌<◌, ◌≤◌, ℕ, List, length, slice_set};
ghost use Rattle.flash_table.specs.Entries.{entry_at, vacants};

use crate::entry::Entry;
use flash_keys::KeyId;
use flash_lanes::tags_equal;
use std::marker::Model;

/// A group of sixteen slots in 144 bytes. It is seen as the list of their entries.
#[derive(Drop)]
pub struct Group {
    tags: [u8; 16],
    ids: [KeyId; 16],
    items: [u32; 16],
}

impl Model for Group {
    ghost use Rattle.std.specs.Prelude.{◌≡◌, List, length};
    ghost use Rattle.flash_table.specs.declared.entry.Entry.{Entry};
    ghost use Rattle.flash_table.specs.Entries.{joined};

    ghost Value = { List Entry };

    ghost view = { λ g. joined g.tags g.ids g.items };

    ghost invariant = { λ g. (length g.tags ≡ 16) × (length g.ids ≡ 16) × (length g.items ≡ 16) };
}

impl Group {
    // A group whose slots are empty.
    pub fn empty() -> Group
        ensures { result ≡ vacants 16 }
    {
        Group {
            tags: [0; 16],
            ids: [KeyId { number: 0 }; 16],
            items: [0; 16],
        }
    }

    // What a slot has.
    pub fn at(&self, slot: usize) -> Entry
        requires { slot < 16 }
        ensures same { result ≡ entry_at self.now slot }
        ensures whole { length self.now ≡ 16 }
    {
        Entry {
            tag: self.tags[slot],
            id: self.ids[slot],
            item: self.items[slot],
        }
    }

    // Writes a slot.
    pub fn put(&mut self, slot: usize, entry: Entry)
        requires { slot < 16 }
        ensures written { self.new ≡ slice_set self.old slot entry }
        ensures whole { length self.old ≡ 16 }
    {
        self.tags[slot] = entry.tag;
        self.ids[slot] = entry.id;
        self.items[slot] = entry.item;
    }

    // The first slot with this tag, or 16 where there is none.
    pub fn first_tagged(&self, tag: u8) -> usize
        ensures inside { result ≤ 16 }
        ensures before { (i : ℕ) → i < result → (entry_at self.now i).tag ≢ tag }
        ensures found { result < 16 → (entry_at self.now result).tag ≡ tag }
        ensures whole { length self.now ≡ 16 }
    {
        tags_equal(&self.tags, tag).trailing_zeros() as usize
    }
}
