//! Where moved values are: the pages of the flash file, the write buffers, and for each bucket the page and the block
//! that its records are appended to.
//!
//! `put` appends a record to the bucket's open block. Where it doesn't fit, the block is sealed and the next one of the
//! page, or the first one of a page that is opened, takes its place; `room` says which. `seal` ends the open block early.
//! `write_begin` gives the oldest sealed block to be written, `read` the bytes of a place that a buffer covers.
//! `take_live` counts a record as live no longer; `pin`, `unpin`, `end`, `free` and the calls that name a page are those
//! of the pages.
//!
//! It is proved what each call answers and the whole table after it. What `put` and `seal` ask of pages and buffers
//! follows from what the table keeps: an open block's buffer is open, the next block is in no buffer, and a page's live
//! records have no more bytes than were put. What the other calls ask for is theirs: a place or a label that fits the
//! table, or the job that is out.
//!
//! `laws.rt` says of the table what a caller rests on: it stays in order through each call that frees no buffer, a record
//! that was put is held at its place and counted there, it stays until its buffer is freed, and it is what is read.
#![tactic(auto)]

mod answers;
mod blocks;
mod laws;
mod open_page;
mod open_pages;

pub use answers::{Full, Put, Room};
pub use blocks::Blocks;
pub use laws::{
    each_call_keeps_one, each_call_keeps_order, each_call_keeps_sizes, each_opening_keeps_order,
    each_put_is_held, each_record_is_read, each_record_stays, the_first_is_in_order,
};
pub use open_page::OpenPage;
