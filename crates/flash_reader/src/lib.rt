//! The reader of a session's bytes: it keeps what it hasn't read, in whatever pieces it comes.
//!
//! `Reader::feed` takes bytes, as many as it has room for. `front` says what its unread bytes begin with: a command with
//! its block of data, a refusal, bytes that ask nothing, or nothing whole yet. `take` passes over such a front, as far
//! as its bytes are there, and over the rest of them as they come. Nothing is copied but what is fed: a front is lent.
//! Where there is no front, `look` remembers what is needed for one, so that bytes which come in small pieces aren't read
//! again from their start.
//!
//! Proved: `front` is exactly the front of the unread bytes by `flash_commands`, whose laws say that the fronts that are
//! taken one after the other are the commands of all bytes fed, however they were cut. Where it needs more bytes, the
//! reader has room for one at least: `front` says so (`room`), by the law that a rest is short.
#![tactic(auto)]

mod front;
mod reader;
mod wanted;

pub use front::{Asked, Front};
pub use reader::{LINE_LIMIT, Reader};
