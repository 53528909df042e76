//! The pages of the flash file: which are free, the versions that they are opened with, the pins and the live records of
//! each, and which page is evicted or compacted next (after memcached's extstore).
//!
//! A page is Free, Open, Full or Ended. `open_page` gives the free page of lowest number a label with a new version;
//! `filled`, `end` and `free` take it on. `pin` and `unpin` count its reads under way, `add_live` and `take_live` its live
//! records. `victim_evict`, `victim_compact` and `freeable` name a page and change nothing.
//!
//! It is proved what each call answers and the whole table after it; that no label is given twice; that a page with a
//! pin isn't freed; and that `freeable` and the victims are the stated page.
#![tactic(auto)]

mod law;
mod page_row;
mod pages;
mod victims;

pub use law::keeps_the_law;
pub use page_row::Bucket;
pub use pages::{Opened, Pages, Pinned};
