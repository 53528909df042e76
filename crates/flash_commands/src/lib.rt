//! The commands of a session's bytes: a definition by cases on their front, and its laws.
//!
//! `specs/Commands.antt` says what is asked by bytes: a line by either protocol, its block of data where it has one, what
//! is skipped after a refusal, and the two ends, `quit` and too long a line. `specs/Laws.antt` says that the commands of
//! bytes are the same however they are cut, how a reader that keeps its unread bytes comes by them, and how few bytes
//! there are where it needs more. The contract of each function of `laws.rt` is a law, and its body does nothing.
//!
//! `specs/Asks.antt` says what a command asks of the store, step by step. `key_ask`, `whole_ask` and `meta_ask` give
//! exactly that.
#![tactic(auto)]

mod asks;
mod laws;
mod place;

pub use asks::{key_ask, meta_ask, whole_ask};
pub use laws::{
    a_block_is_awaited, a_lookup_asks_at_each_key, a_one_key_command_asks_once, a_reader_is_fed,
    a_reader_skips, a_reader_takes_its_front, a_rest_is_all, a_rest_is_short, an_end_stays,
    blocks_are_within, cuts_dont_matter, each_front_has_a_byte, more_bytes_go_on,
};
pub use place::Place;
