//! The write buffers: blocks of pages that records are appended to until they are written, and read from until then
//! (after memcached's extstore).
//!
//! `take` gives a free buffer to a block of a page, `append` puts a record into it, and `seal` puts it into the queue of
//! writes. `write_begin` copies the oldest sealed one into a job; `written` frees it, `unwritten` leaves it first in the
//! queue. `read` gives the bytes of a place that a buffer covers, `drop_of` frees the buffers of a page.
//!
//! It is proved what each call answers and the whole table after it; that what was appended is read until it was written
//! or dropped; that buffers are written in the order in which they were sealed; and that a block's bytes are whole
//! records, then zeros.
#![tactic(auto)]

mod buffer;
mod buffers;
mod law;

pub use buffers::{BufferId, Buffers, WriteJob};
pub use law::keeps_the_law;
