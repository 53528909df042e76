ghost use Rattle.std.specs.Prelude.{◌≡◌, ◌+◌, ◌<◌, ◌≤◌, ◌^◌, ℕ, OnOk, OnErr, IfOk, IsOk, Some, None, IsSome, IfSome, IfNone, List};
ghost use Rattle.std.specs.Option.{option_map};
ghost use Rattle.std.specs.FinMap as finite;
ghost use Rattle.flash_table.specs.AtHome.{HasKeysAtHome, SameSlots, DividesOne};
ghost use Rattle.flash_table.specs.Slots.{FillsFirst, Empties};
ghost use Rattle.flash_table.specs.Table.{TableState, Forgets, Takes, HasOneId, IdsHaveKeys, homes_after, home_in};

use crate::chain::Chain;
use crate::chains::{
    entry_in, first_empty_in, leaving_from, make_room, put_in, slot_of_id, slot_of_key, take_out,
};
use crate::entry::Entry;
use crate::growth::{divide, empty_chain};
use crate::home::{home_of, power_after, tag_of};
use flash_keys::{KeyId, KeyStore};
use flash_names::{ItemId, Key, key_hash};
use std::alloc::{AllocError, Global};
use std::marker::Model;

/// A hash table from keys to items, which owns the bytes of its keys.
#[derive(Drop)]
pub struct Table {
    keys: KeyStore,
    chains: Vec<Chain>,
    power: u64,
    last: usize,
    spare: u32,
    count: u64,
}

impl Model for Table {
    ghost use Rattle.flash_table.specs.Table.{TableState, state_code, state_of, IsTable};

    ghost Value = { TableState };

    ghost coded = { state_code };

    ghost view = { λ t. state_of t.keys t.chains.items t.spare };

    ghost invariant = { λ t. IsTable t.keys t.chains.items t.power t.last t.spare t.count };
}

impl Table {
    /// A table with no key and one home, or out of memory.
    pub fn open(alloc: Global) -> Result<Table, AllocError>
        ensures map { IfOk result (λ table. table.map ≡ finite.empty) }
        ensures keys { IfOk result (λ table. table.keys ≡ finite.empty) }
        ensures spare { IfOk result (λ table. table.spare ≡ 0) }
        ensures homes { IfOk result (λ table. table.homes ≡ 1) }
    {
        let mut chains = Vec::new(alloc);
        chains.push(Chain::new(alloc))?;
        Ok(Table {
            keys: KeyStore::open(alloc),
            chains,
            power: 1,
            last: 0,
            spare: 0,
            count: 0,
        })
    }

    /// The item of a key, where the table has the key.
    pub fn find(&self, key: &Key) -> Option<ItemId>
        ensures { option_map (λ item. item.key) result ≡ finite.get self.now.map key.now }
    {
        match slot_of_key(&self.keys, &self.chains, self.power, key.bytes()) {
            Some((home, slot)) => {
                let entry = entry_in(&self.chains, home, slot);
                Some(ItemId {
                    key: entry.item as usize,
                })
            }
            None => None,
        }
    }

    /// Takes the memory for one key more of any length, and adds a home where the keys are at least 14 times
    /// the homes, up to 2^32 - 1 homes. Only keys of the home that is divided move to it. Where it is out of memory,
    /// the keys, the homes and the slots are as before. Where there is room already and no home is due, it is `Ok`.
    pub fn reserve_one(&mut self, alloc: Global) -> Result<(), AllocError>
        ensures spare { OnOk result (self.new.spare ≡ 1) }
        ensures homes { OnOk result (self.new.homes ≡ homes_after self.old) }
        ensures has_room { 1 ≤ self.old.spare → homes_after self.old ≡ self.old.homes → IsOk result }
        ensures refused { OnErr result (self.new.homes ≡ self.old.homes) }
        ensures slots { DividesOne self.old self.new }
        ensures kept_spare { self.old.spare ≤ self.new.spare }
        ensures map { self.new.map ≡ self.old.map }
        ensures keys { self.new.keys ≡ self.old.keys }
    {
        self.make_ready()?;
        self.grow_where_full(alloc)
    }

    // Takes the memory for one key more.
    fn make_ready(&mut self) -> Result<(), AllocError>
        ensures spare { OnOk result (self.new.spare ≡ 1) }
        ensures has_room { 1 ≤ self.old.spare → IsOk result }
        ensures kept_spare { self.old.spare ≤ self.new.spare }
        ensures slots { SameSlots self.old self.new }
        ensures homes { self.new.homes ≡ self.old.homes }
        ensures map { self.new.map ≡ self.old.map }
        ensures keys { self.new.keys ≡ self.old.keys }
    {
        if self.spare != 0 {
            return Ok(());
        }
        if self.count == u64::MAX {
            return Err(AllocError);
        }
        make_room(&mut self.chains, self.last)?;
        self.keys.reserve_one()?;
        self.spare = 1;
        Ok(())
    }

    // Adds a home where the keys are at least 14 times the homes.
    fn grow_where_full(&mut self, alloc: Global) -> Result<(), AllocError>
        requires { 1 ≤ self.old.spare }
        ensures homes { OnOk result (self.new.homes ≡ homes_after self.old) }
        ensures has_room { homes_after self.old ≡ self.old.homes → IsOk result }
        ensures refused { OnErr result (self.new.homes ≡ self.old.homes) }
        ensures slots { DividesOne self.old self.new }
        ensures spare { self.new.spare ≡ self.old.spare }
        ensures map { self.new.map ≡ self.old.map }
        ensures keys { self.new.keys ≡ self.old.keys }
    {
        let homes = self.chains.len() as u64;
        if self.count < 14 * homes || homes >= 0xffff_ffff {
            return Ok(());
        }
        self.grow(alloc)
    }

    // Adds a home, and divides the keys of another between the two.
    fn grow(&mut self, alloc: Global) -> Result<(), AllocError>
        requires spare { 1 ≤ self.old.spare }
        requires few { self.old.homes < 4294967295 }
        ensures homes { OnOk result (self.new.homes ≡ self.old.homes + 1) }
        ensures refused { OnErr result (self.new.homes ≡ self.old.homes) }
        ensures slots { DividesOne self.old self.new }
        ensures spare { self.new.spare ≡ self.old.spare }
        ensures map { self.new.map ≡ self.old.map }
        ensures keys { self.new.keys ≡ self.old.keys }
    {
        let homes = self.chains.len();
        let from = homes - self.power as usize;
        let power = power_after(homes as u64, self.power);
        let leaving = leaving_from(alloc, &self.keys, &self.chains, power, from)?;
        let fresh = empty_chain(alloc, leaving.count / 16)?;
        self.chains.push(fresh)?;
        divide(&self.keys, &mut self.chains, &leaving.slots, from, homes);
        self.power = power;
        Ok(())
    }

    /// Puts a key that isn't in the table, with its item, into the first empty slot of the chain of its home, where
    /// `reserve_one` took the memory. The id that it answers names the key until the key is taken away, and named
    /// nothing before.
    pub fn insert(&mut self, key: &Key, item: ItemId) -> KeyId
        requires spare { 1 ≤ self.old.spare }
        requires absent { finite.get self.old.map key.now ≡ None }
        requires item { item.key < 2 ^ 32 }
        ensures map { self.new.map ≡ finite.insert self.old.map key.now item.key }
        ensures slot { FillsFirst self.old.chains self.new.chains (home_in self.old key.now) key.now item.key }
        ensures keys { self.new.keys ≡ finite.insert self.old.keys result.number key.now }
        ensures fresh { finite.get self.old.keys result.number ≡ None }
        ensures spare { self.new.spare + 1 ≡ self.old.spare }
        ensures homes { self.new.homes ≡ self.old.homes }
    {
        let hash = key_hash(key);
        let home = home_of(hash, self.chains.len() as u64, self.power) as usize;
        let slot = first_empty_in(&self.chains, home);
        let id = self.keys.keep(key.bytes());
        let entry = Entry {
            tag: tag_of(hash),
            id,
            item: item.key as u32,
        };
        put_in(&mut self.chains, home, slot, entry);
        self.count += 1;
        self.last = home;
        self.spare -= 1;
        id
    }

    /// Takes a key away, and answers its item where the table had the key.
    pub fn remove(&mut self, key: &Key) -> Option<ItemId>
        ensures item { option_map (λ item. item.key) result ≡ finite.get self.old.map key.now }
        ensures map { self.new.map ≡ finite.remove self.old.map key.now }
        ensures keys { IfSome result (λ _. Forgets self.old.keys self.new.keys key.now) }
        ensures slot { IfSome result (λ item.
            Empties self.old.chains self.new.chains (home_in self.old key.now) key.now item.key) }
        ensures absent { IfNone result (self.new ≡ self.old) }
        ensures spare { self.new.spare ≡ self.old.spare }
        ensures homes { self.new.homes ≡ self.old.homes }
    {
        match slot_of_key(&self.keys, &self.chains, self.power, key.bytes()) {
            Some((home, slot)) => {
                let item = take_out(&mut self.keys, &mut self.chains, home, slot);
                self.count -= 1;
                Some(ItemId { key: item as usize })
            }
            None => None,
        }
    }

    /// Takes away the key that an id names, and answers its item.
    pub fn take(&mut self, id: KeyId) -> ItemId
        requires id { IsSome (finite.get self.old.keys id.number) }
        ensures taken { Takes self.old self.new id.number result.key }
        ensures keys { self.new.keys ≡ finite.remove self.old.keys id.number }
        ensures spare { self.new.spare ≡ self.old.spare }
        ensures homes { self.new.homes ≡ self.old.homes }
    {
        let (home, slot) = slot_of_id(&self.keys, &self.chains, self.power, id);
        let item = take_out(&mut self.keys, &mut self.chains, home, slot);
        self.count -= 1;
        ItemId { key: item as usize }
    }

    /// The bytes of the key that an id names.
    pub fn key(&self, id: KeyId) -> &[u8]
        requires id { IsSome (finite.get self.now.keys id.number) }
        ensures { finite.get self.now.keys id.number ≡ Some result.now }
    {
        match self.keys.bytes(id) {
            Some(bytes) => bytes,
            None => unreachable!(),
        }
    }

    /// The key of each id is in the table, and each key of the table has exactly one id. It does nothing.
    pub fn ids_match(&self)
        ensures each { IdsHaveKeys self.now }
        ensures one { (key : List ℕ) (item : ℕ) → finite.get self.now.map key ≡ Some item → HasOneId self.now.keys key }
    {
        let _ = &self.power;
    }

    /// Each key is in one slot, in the chain of its home, with its item. It does nothing.
    pub fn keys_are_at_home(&self)
        ensures { HasKeysAtHome self.now }
    {
        let _ = &self.power;
    }

    /// The number of homes.
    pub fn homes(&self) -> u32
        ensures { result ≡ self.now.homes }
    {
        self.chains.len() as u32
    }
}
