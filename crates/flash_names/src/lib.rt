//! The names that every crate of the cache shares.
//!
//! - `Key`, `Blob`, `Label`, `Place`, `Id`: a key of 1 to 250 bytes, bytes on the heap, a page with its version, a range
//!   of a page, and the number of a step. `key_hash` hashes a key.
//! - `Geometry`: the sizes of a store. `Geometry::check` names the first of its ten rules that is broken.
//! - `Source`, `Sink`, `Clock`: the outside of the program as traits. Each tells what it gives or holds, where it can,
//!   and has a count of faults that never falls: a fault comes only where the count rose.
//! - `MemorySource`, `MemorySink`, `ListClock`: the same in memory, for tests. `ReaderSource` and `WriterSink` adapt the
//!   readers and writers of the standard library.
//! - `Shared`: what a lock has to know of the value that it guards.
//!
//! Each function gives exactly the value of its definition in `specs/`.
#![tactic(auto)]

mod adapters;
mod blob;
mod clock;
mod fault_plan;
mod geometry;
mod hash;
mod key;
mod listed;
mod memory_sink;
mod memory_source;
mod place;
mod shared;
mod sink;
mod source;
mod words;

pub use adapters::{ReaderSource, WriterSink};
pub use blob::Blob;
pub use clock::{Clock, ListClock};
pub use fault_plan::FaultPlan;
pub use geometry::{BadGeometry, Geometry};
pub use hash::{hash_of, key_hash};
pub use key::{Key, MAX_KEY_LEN};
pub use listed::Listed;
pub use memory_sink::MemorySink;
pub use memory_source::MemorySource;
pub use place::{Id, ItemId, Label, Place};
pub use shared::Shared;
pub use sink::{Sink, SinkFault};
pub use source::{Source, SourceFault};
pub use words::{cut_at_byte, read_number, split_word};

#[cfg(test)]
mod tests;
