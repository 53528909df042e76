ghost use Rattle.std.specs.Prelude.{◌≡◌, ◌≢◌, ◌<◌, ◌++◌, ℕ, length, slice_set, OnOk, OnErr, IfSome, IfNone};
ghost use Rattle.flash_table.specs.Chains.{IsFound, IsNotFound};
ghost use Rattle.flash_table.specs.Entries.{entry_at, vacants};

use crate::entry::Entry;
use crate::group::Group;
use crate::overflow::Overflow;
use crate::search::slot_in_group;
use flash_keys::KeyStore;
use std::alloc::{AllocError, Global};
use std::marker::Model;

/// The groups of one home: the first in line, so that it is found with the home, and the others on the heap. It is seen
/// as the list of the entries of their slots.
#[derive(Drop)]
pub struct Chain {
    first: Group,
    overflow: Overflow,
}

impl Model for Chain {
    ghost use Rattle.std.specs.Prelude.{◌≡◌, ◌++◌, List, length};
    ghost use Rattle.flash_table.specs.declared.entry.Entry.{Entry};

    ghost Value = { List Entry };

    ghost view = { λ c. c.first ++ c.overflow };

    ghost invariant = { λ c. length c.first ≡ 16 };
}

impl Chain {
    // A chain of one empty group.
    pub fn new(alloc: Global) -> Chain
        ensures { result ≡ vacants 16 }
    {
        Chain {
            first: Group::empty(),
            overflow: Overflow::new(alloc),
        }
    }

    // Adds an empty group at the end, or answers that there is no memory for it, and then nothing changes.
    pub fn add_group(&mut self) -> Result<(), AllocError>
        ensures added { OnOk result (self.new ≡ self.old ++ vacants 16) }
        ensures refused { OnErr result (self.new ≡ self.old) }
    {
        self.overflow.add_group()
    }

    // The number of slots.
    pub fn len(&self) -> usize
        ensures { result ≡ length self.now }
    {
        16 + self.overflow.len()
    }

    // What a slot has.
    pub fn at(&self, slot: usize) -> Entry
        requires { slot < length self.now }
        ensures { result ≡ entry_at self.now slot }
    {
        if slot < 16 {
            self.first.at(slot)
        } else {
            self.overflow.at(slot - 16)
        }
    }

    // Writes a slot.
    pub fn put(&mut self, slot: usize, entry: Entry)
        requires { slot < length self.old }
        ensures { self.new ≡ slice_set self.old slot entry }
    {
        if slot < 16 {
            self.first.put(slot, entry);
        } else {
            self.overflow.put(slot - 16, entry);
        }
    }

    // The first empty slot, where there is one.
    pub fn first_empty(&self) -> Option<usize>
        ensures found { IfSome result (λ i. (i < length self.now) × ((entry_at self.now i).tag ≡ 0)) }
        ensures first { IfSome result (λ i. (j : ℕ) → j < i → (entry_at self.now j).tag ≢ 0) }
        ensures none { IfNone result ((j : ℕ) → j < length self.now → (entry_at self.now j).tag ≢ 0) }
    {
        let slot = self.first.first_tagged(0);
        if slot < 16 {
            return Some(slot);
        }
        match self.overflow.first_empty() {
            Some(behind) => Some(16 + behind),
            None => None,
        }
    }

    // The first slot with this tag whose id names this key, where there is one.
    pub fn slot_of(&self, keys: &KeyStore, tag: u8, key: &[u8]) -> Option<usize>
        ensures found { IfSome result (IsFound keys.now self.now tag key.now) }
        ensures none { IfNone result (IsNotFound keys.now self.now tag key.now) }
    {
        if let Some(slot) = slot_in_group(&self.first, keys, tag, key) {
            return Some(slot);
        }
        match self.overflow.slot_of(keys, tag, key) {
            Some(behind) => Some(16 + behind),
            None => None,
        }
    }
}
