//! One line of memcached's meta protocol (doc/protocol.txt, "Meta Commands"): the command that it asks for, or the
//! first refusal that applies.
//!
//! - `is_meta` says whether a line is of the meta protocol. `read_meta` reads one. `MetaLine` is its answer: a command
//!   (`Meta`), one whose data follows, or a `Refusal` with how many bytes are to be skipped.
//!
//! Each function gives exactly the value of its definition in `specs/`. Nothing is allocated: words are lent by the
//! line, and the key is held in line.
#![tactic(auto)]

mod flag_words;
mod flags;
mod keys;
mod laws;
mod line;
mod meta;
mod verbs;

pub use laws::{
    data_is_within, each_key_is_that_of_its_word, each_line_gives_its_words_back,
    no_letter_is_given_twice, numbers_are_in_range, refusals_come_in_order,
};
pub use line::read_meta;
pub use meta::{Meta, MetaLine, MetaVerb};
pub use verbs::is_meta;
