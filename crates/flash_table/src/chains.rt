ghost use Rattle.std.specs.Prelude.{◌≡◌, ◌≢◌, ◌<◌, ◌+◌, ◌^◌, ℕ, List, length, IfSome, IfNone, IsSome, Some, None, OnOk, OnErr, IfOk, true, false};
ghost use Rattle.flash_keys.specs.Names.{NamesOnly};
ghost use Rattle.flash_keys.specs.Room.{HasRoom};
ghost use Rattle.std.specs.FinMap as finite;
ghost use Rattle.flash_table.specs.Chains.{chain_of, with_entry, HasEmpty, AreChains, IsSlotOf, IsSlotOfId, RoomMade, with_group};
ghost use Rattle.flash_table.specs.Entries.{entry_at, vacant as the_vacant};
ghost use Rattle.flash_table.specs.Flat.{flat};
ghost use Rattle.flash_table.specs.Growth.{leaving, leaving_of};
ghost use Rattle.flash_table.specs.Home.{power as the_power};
ghost use Rattle.flash_table.specs.Maps.{items_in, keys_in};

use crate::chain::Chain;
use crate::entry::{Entry, vacant};
use crate::growth::{Going, going_in};
use crate::home::{home_of, tag_of};
use flash_keys::{KeyId, KeyStore};
use flash_names::hash_of;
use std::alloc::{AllocError, Global};

// The home and the slot of a key, where it is in the chains.
pub fn slot_of_key(
    keys: &KeyStore,
    chains: &Vec<Chain>,
    power: u64,
    key: &[u8],
) -> Option<(usize, usize)>
    requires chained { AreChains keys.now chains.now.items }
    requires power { power ≡ the_power (length chains.now.items) }
    ensures found { IfSome result (λ at. IsSlotOf keys.now chains.now.items key.now at.0 at.1) }
    ensures none { IfNone result (finite.get (items_in keys.now (flat chains.now.items)) key.now ≡ None) }
{
    let hash = hash_of(key);
    let home = home_of(hash, chains.len() as u64, power) as usize;
    let chain = &chains[home];
    match chain.slot_of(keys, tag_of(hash), key) {
        Some(slot) => Some((home, slot)),
        None => None,
    }
}

// What a slot of a home has.
pub fn entry_in(chains: &Vec<Chain>, home: usize, slot: usize) -> Entry
    requires home { home < length chains.now.items }
    requires slot { slot < length (chain_of chains.now.items home) }
    ensures { result ≡ entry_at (chain_of chains.now.items home) slot }
{
    let chain = &chains[home];
    chain.at(slot)
}

// Writes a slot of a home.
pub fn put_in(chains: &mut Vec<Chain>, home: usize, slot: usize, entry: Entry)
    requires home { home < length chains.old.items }
    requires slot { slot < length (chain_of chains.old.items home) }
    ensures { chains.new.items ≡ with_entry chains.old.items home slot entry }
{
    let chain = &mut chains[home];
    chain.put(slot, entry);
}

// The first empty slot of a home that has one.
pub fn first_empty_in(chains: &Vec<Chain>, home: usize) -> usize
    requires home { home < length chains.now.items }
    requires empty { HasEmpty (chain_of chains.now.items home) }
    ensures inside { result < length (chain_of chains.now.items home) }
    ensures empty { (entry_at (chain_of chains.now.items home) result).tag ≡ 0 }
    ensures first { (j : ℕ) → j < result → (entry_at (chain_of chains.now.items home) j).tag ≢ 0 }
{
    let chain = &chains[home];
    match chain.first_empty() {
        Some(slot) => slot,
        None => unreachable!(),
    }
}

// Empties a slot, gives back its key's bytes, and answers the item's number.
pub fn take_out(keys: &mut KeyStore, chains: &mut Vec<Chain>, home: usize, slot: usize) -> u32
    requires home { home < length chains.old.items }
    requires slot { slot < length (chain_of chains.old.items home) }
    ensures item { result ≡ (entry_at (chain_of chains.old.items home) slot).item }
    ensures chains { chains.new.items ≡ with_entry chains.old.items home slot the_vacant }
    ensures names { NamesOnly keys.old keys.new (entry_at (chain_of chains.old.items home) slot).id.number None }
    ensures room { HasRoom keys.old → HasRoom keys.new }
{
    let entry = entry_in(chains, home, slot);
    put_in(chains, home, slot, vacant());
    keys.give_back(entry.id);
    entry.item
}

// The home and the slot of the key that an id names.
pub fn slot_of_id(keys: &KeyStore, chains: &Vec<Chain>, power: u64, id: KeyId) -> (usize, usize)
    requires chained { AreChains keys.now chains.now.items }
    requires power { power ≡ the_power (length chains.now.items) }
    requires id { IsSome (finite.get (keys_in keys.now (flat chains.now.items)) id.number) }
    ensures { IsSlotOfId keys.now chains.now.items id.number result.0 result.1 }
{
    let Some(key) = keys.bytes(id) else {
        unreachable!();
    };
    match slot_of_key(keys, chains, power, key) {
        Some(at) => at,
        None => unreachable!(),
    }
}

// Gives the chain of a home an empty slot, where it has none, or answers that there is no memory for it.
pub fn make_room(chains: &mut Vec<Chain>, home: usize) -> Result<(), AllocError>
    requires { home < length chains.old.items }
    ensures made { OnOk result (RoomMade chains.old.items chains.new.items home) }
    ensures refused { OnErr result (chains.new.items ≡ chains.old.items) }
{
    if has_empty(chains, home) {
        return Ok(());
    }
    add_group_in(chains, home)
}

// Whether the chain of a home has an empty slot.
fn has_empty(chains: &Vec<Chain>, home: usize) -> bool
    requires { home < length chains.now.items }
    ensures { result ≡ true → HasEmpty (chain_of chains.now.items home) }
{
    let chain = &chains[home];
    match chain.first_empty() {
        Some(_) => true,
        None => false,
    }
}

// Adds an empty group to the chain of a home.
fn add_group_in(chains: &mut Vec<Chain>, home: usize) -> Result<(), AllocError>
    requires { home < length chains.old.items }
    ensures added { OnOk result (chains.new.items ≡ with_group chains.old.items home) }
    ensures refused { OnErr result (chains.new.items ≡ chains.old.items) }
{
    let chain = &mut chains[home];
    chain.add_group()
}

// Which slots of a home have a key that has the last home among the homes with one more, or out of memory.
pub fn leaving_from(
    alloc: Global,
    keys: &KeyStore,
    chains: &Vec<Chain>,
    power: u64,
    from: usize,
) -> Result<Going, AllocError>
    requires from { from < length chains.now.items }
    requires few { length chains.now.items + 1 < 2 ^ 32 }
    requires power { power ≡ the_power (length chains.now.items + 1) }
    ensures slots { IfOk result (λ found. found.slots.items ≡ leaving_of keys.now chains.now.items from) }
    ensures count { IfOk result (λ found. found.count ≡ leaving keys.now chains.now.items from) }
{
    let homes = chains.len() as u64;
    let chain = &chains[from];
    going_in(alloc, keys, chain, homes + 1, power, homes)
}
