ghost use Rattle.std.specs.Prelude.{◌≡◌, ◌≢◌, ◌<◌, ◌*◌, ◌^◌, ◌++◌, ℕ, [], length, slice_set, OnOk, OnErr, IfSome, IfNone};
ghost use Rattle.flash_table.specs.Chains.{IsFound, IsNotFound};
ghost use Rattle.flash_table.specs.Entries.{entry_at, vacants};

use crate::entry::Entry;
use crate::group::Group;
use crate::search::slot_in_group;
use flash_keys::KeyStore;
use std::alloc::{AllocError, Global};
use std::marker::Model;

/// The groups of a home behind its first. It is seen as the list of the entries of their slots.
#[derive(Drop)]
pub struct Overflow {
    groups: Vec<Group>,
}

impl Model for Overflow {
    ghost use Rattle.std.specs.Prelude.{List};
    ghost use Rattle.flash_table.specs.declared.entry.Entry.{Entry};
    ghost use Rattle.flash_table.specs.Flat.{flat, AreWhole};

    ghost Value = { List Entry };

    ghost view = { λ c. flat c.groups.items };

    ghost invariant = { λ c. AreWhole c.groups.items };
}

impl Overflow {
    // No group.
    pub fn new(alloc: Global) -> Overflow
        ensures { result ≡ [] }
    {
        Overflow {
            groups: Vec::new(alloc),
        }
    }

    // Adds an empty group at the end, or answers that there is no memory for it, and then nothing changes. It takes
    // memory for this group alone: most homes have none or one behind the first.
    pub fn add_group(&mut self) -> Result<(), AllocError>
        ensures added { OnOk result (self.new ≡ self.old ++ vacants 16) }
        ensures refused { OnErr result (self.new ≡ self.old) }
    {
        self.groups.reserve_exact(1)?;
        self.groups.push_reserved(Group::empty());
        Ok(())
    }

    // The number of slots.
    pub fn len(&self) -> usize
        ensures same { result ≡ length self.now }
        ensures few { length self.now < 2 ^ 63 }
    {
        slots_of(&self.groups)
    }

    // What a slot has.
    pub fn at(&self, slot: usize) -> Entry
        requires { slot < length self.now }
        ensures { result ≡ entry_at self.now slot }
    {
        let group = &self.groups[slot / 16];
        group.at(slot % 16)
    }

    // Writes a slot.
    pub fn put(&mut self, slot: usize, entry: Entry)
        requires { slot < length self.old }
        ensures { self.new ≡ slice_set self.old slot entry }
    {
        let group = &mut self.groups[slot / 16];
        group.put(slot % 16, entry);
    }

    // The first empty slot, where there is one.
    pub fn first_empty(&self) -> Option<usize>
        ensures found { IfSome result (λ i. (i < length self.now) × ((entry_at self.now i).tag ≡ 0)) }
        ensures first { IfSome result (λ i. (j : ℕ) → j < i → (entry_at self.now j).tag ≢ 0) }
        ensures none { IfNone result ((j : ℕ) → j < length self.now → (entry_at self.now j).tag ≢ 0) }
        ensures few { length self.now < 2 ^ 63 }
    {
        'groups: for (number, group) in self.groups.iter().enumerate() {
            let slot = group.first_tagged(0);
            if slot < 16 {
                return Some(number * 16 + slot);
            }
        }
        None
    }

    // The first slot with this tag whose id names this key, where there is one.
    pub fn slot_of(&self, keys: &KeyStore, tag: u8, key: &[u8]) -> Option<usize>
        ensures found { IfSome result (IsFound keys.now self.now tag key.now) }
        ensures none { IfNone result (IsNotFound keys.now self.now tag key.now) }
        ensures few { length self.now < 2 ^ 63 }
    {
        'chain: for (number, group) in self.groups.iter().enumerate() {
            if let Some(slot) = slot_in_group(group, keys, tag, key) {
                return Some(number * 16 + slot);
            }
        }
        None
    }
}

// The number of slots of so many groups.
fn slots_of(groups: &[Group]) -> usize
    ensures same { result ≡ length groups.now * 16 }
    ensures few { length groups.now * 16 < 2 ^ 63 }
{
    groups.len() * 16
}
