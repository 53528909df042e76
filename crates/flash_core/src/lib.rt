//! The store over its flash: a cache whose every call notes what it did in a journal.
//!
//! `Core::open` makes an empty one over a journal. `store`, `look`, `delete`, `arith`, `touch`, `flush` and `tally` are the
//! steps of commands, `clock` sets the moment, `make_room`, `reap_one` and `juggle_one` keep the store within its memory,
//! `seal` ends a bucket's open block, `journal` lends the journal. A step has an `Id` of a pass and a number, which has to
//! be new.
//!
//! The crate `flash_calls` says what each call notes, answers and leaves, from the heads of the cache and the desk before
//! it. It is proved that each call does exactly that; that the journal is a run of the one-thread cache, where it tells
//! its entries, and the store has the heads of the cache that it makes; and that a call for which there is no memory
//! changes nothing.
#![tactic(auto)]

mod arith;
mod choice;
mod clock;
mod delete;
mod dropping;
mod flush;
mod look;
mod noting;
mod numbers;
mod reading;
mod room;
mod seal;
mod shared;
mod sought;
mod state;
mod store;
mod tally;
mod touch;

pub use state::{Core, OpenError, OpenWhy};
