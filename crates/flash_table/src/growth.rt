ghost use Rattle.std.specs.Prelude.{◌≡◌, ◌+◌, ◌*◌, ◌<◌, ◌^◌, ℕ, length, IfOk};
ghost use Rattle.flash_table.specs.Chains.{chain_of};
ghost use Rattle.flash_table.specs.Entries.{entry_at, vacant as the_vacant};
ghost use Rattle.flash_table.specs.Growth.{goes, going, going_of, IsToDivide, IsDivided};
ghost use Rattle.flash_table.specs.Home.{power as the_power};

use crate::chain::Chain;
use crate::chains::{entry_in, put_in};
use crate::entry::{Entry, vacant};
use crate::home::home_of;
use flash_keys::KeyStore;
use flash_names::hash_of;
use std::alloc::{AllocError, Global};

// A chain of an empty group and so many more behind it, or out of memory.
pub fn empty_chain(alloc: Global, groups: usize) -> Result<Chain, AllocError>
    ensures long { IfOk result (λ chain. length chain ≡ groups * 16 + 16) }
    ensures free { IfOk result (λ chain. (i : ℕ) → entry_at chain i ≡ the_vacant) }
{
    let mut chain = Chain::new(alloc);
    'groups: for group in 0..groups {
        prove!(group < groups);
        chain.add_group()?;
    }
    Ok(chain)
}

// Whether the key of an entry has this home among the homes.
pub fn goes_to(keys: &KeyStore, entry: &Entry, homes: u64, power: u64, home: u64) -> bool
    requires some { 0 < homes }
    requires few { homes < 2 ^ 32 }
    requires power { power ≡ the_power homes }
    ensures { result ≡ goes keys.now homes home entry.now }
{
    if entry.tag == 0 {
        return false;
    }
    match keys.bytes(entry.id) {
        Some(key) => home_of(hash_of(key), homes, power) == home,
        None => false,
    }
}

// Which slots of a chain have a key of one home, and how many they are.
#[derive(Drop)]
pub struct Going {
    pub slots: Vec<bool>,
    pub count: usize,
}

// Which slots of a chain have a key of this home among the homes, or out of memory. The hash of each key is computed once.
pub fn going_in(
    alloc: Global,
    keys: &KeyStore,
    chain: &Chain,
    homes: u64,
    power: u64,
    home: u64,
) -> Result<Going, AllocError>
    requires some { 0 < homes }
    requires few { homes < 2 ^ 32 }
    requires power { power ≡ the_power homes }
    ensures slots { IfOk result (λ found. found.slots.items ≡ going_of keys.now homes home chain.now) }
    ensures count { IfOk result (λ found. found.count ≡ going keys.now homes home chain.now) }
{
    let mut slots = Vec::with_capacity(alloc, chain.len())?;
    let mut count = 0;
    'going: for slot in 0..chain.len() {
        let goes = goes_to(keys, &chain.at(slot), homes, power, home);
        if goes {
            count += 1;
        }
        slots.push(goes)?;
    }
    Ok(Going { slots, count })
}

// Moves the keys of a home that now have the last home there, in the order in which they were: those of the slots that
// are marked.
pub fn divide(keys: &KeyStore, chains: &mut Vec<Chain>, marked: &[bool], from: usize, last: usize)
    requires divide { IsToDivide keys.now chains.old.items last from }
    requires marked { marked.now ≡ going_of keys.now (last + 1) last (chain_of chains.old.items from) }
    ensures { IsDivided keys.now chains.old.items chains.new.items last from }
{
    let slots = marked.len();
    let mut next = 0;
    'slots: for slot in 0..slots {
        if marked[slot] {
            let entry = entry_in(chains, from, slot);
            put_in(chains, from, slot, vacant());
            put_in(chains, last, next, entry);
            next += 1;
        }
    }
}
