//! What a store did, counted as its journal is written.
//!
//! - `Counters` are the numbers: values moved to pages, reads of the device that ended, hits and misses.
//! - `Counting` is a journal around another one. It passes each note on and counts the entries that were taken.
//!
//! `specs/Counters.antt` says what is counted, as a function of the journal's entries alone. It is proved that the
//! counters of a journal that tells its entries are those of its entries after every call, that a note that is refused
//! is not counted, and that the counters of a longer journal are sums.
#![tactic(auto)]

mod counters;
mod counting;
mod laws;

pub use counters::Counters;
pub use counting::Counting;
pub use laws::counters_go_on;

#[cfg(test)]
mod tests;
