//! One line of memcached's text protocol (doc/protocol.txt): the command that it asks for, or the first refusal that
//! applies.
//!
//! - `read_line` reads a line. `Line` is its answer: a command (`Text`), one whose data follows, or a `Refusal` with
//!   how many bytes are to be skipped.
//! - `next_word` gives the words of a line one after the other, and so the keys of a `Text`. `without_return`,
//!   `trimmed`, `is_key`, `number_at_most` and `read_exptime` are the parts that the meta protocol's lines are read with
//!   too.
//!
//! Each function gives exactly the value of its definition in `specs/`. Nothing is copied: keys are lent by the line.
#![tactic(auto)]

mod fields;
mod laws;
mod line;
mod text;
mod values;
mod verbs;
mod words;

pub use laws::{
    data_follows_storage_lines, each_word_of_the_keys_is_a_key, numbers_are_in_range,
    refusals_come_in_order,
};
pub use line::read_line;
pub use text::{Line, Refusal, Text, Verb};
pub use values::{is_key, number_at_most, read_exptime};
pub use words::{next_word, trimmed, without_return};
