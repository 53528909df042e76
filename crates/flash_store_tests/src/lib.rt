//! Tests of the store's crates over their public calls: entries, items and their index, tickets, pages, buffers, blocks, the store and its answers.
#![tactic(auto)]

#[cfg(test)]
mod answers;
#[cfg(test)]
mod blocks;
#[cfg(test)]
mod buffers;
#[cfg(test)]
mod entry;
#[cfg(test)]
mod entry_read;
#[cfg(test)]
mod index;
#[cfg(test)]
mod items;
#[cfg(test)]
mod lru;
#[cfg(test)]
mod pages;
#[cfg(test)]
mod store;
#[cfg(test)]
mod tickets;
