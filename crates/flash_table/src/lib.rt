//! A hash table from keys to item numbers, which owns the bytes of its keys.
//!
//! It has n homes, one at opening. Each home has a chain of groups of sixteen slots: a slot is empty with
//! tag 0, or has the tag of a key, the id of the key's bytes and the number of its item. The tag of a key is
//! `1 + hash mod 255`. With `q = hash / 256` and b the greatest power of two that is at most n, its home is
//! `q mod 2b` where that is below n, else `q mod b`.
//!
//! `reserve_one` takes the memory for one key more; `insert` then takes none. A home is added where the keys
//! are at least 14 times the homes, and only one other home is divided for it: nothing is rehashed as a whole.
//!
//! Proved: each call leaves exactly the stated finite maps of keys and of ids, growth included. Each key is in one
//! slot, in the chain of its home; `insert` uses the first empty slot there, and growth moves keys of one home only.
#![tactic(auto)]

mod chain;
mod chains;
mod entry;
mod group;
mod growth;
mod home;
mod overflow;
mod search;
mod table;

pub use table::Table;

#[cfg(test)]
mod tests;
