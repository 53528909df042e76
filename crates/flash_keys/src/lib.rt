//! The bytes of keys, each key once in memory and named by a number of 32 bits.
//!
//! A `KeyStore` has eight size classes, each a slab of cells of one size, so a key takes one cell and no
//! allocation of its own. `reserve_one` takes the memory for one key more of any length; `keep` then takes
//! none, and answers a `KeyId`, which names the bytes until `give_back`. `bytes` lends them.
//!
//! Proved: a new id named nothing before and names exactly the key's bytes, and no call changes what
//! another id names.
#![tactic(auto)]

mod cell;
mod class;
mod key_id;
mod key_store;

pub use key_id::KeyId;
pub use key_store::KeyStore;

#[cfg(test)]
mod tests;
