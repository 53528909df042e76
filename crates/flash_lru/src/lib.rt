//! The three lists by which it is decided which item leaves memory: HOT, WARM and COLD (after memcached's
//! segmented LRU). Each list holds the cards of items: an item, its size in bytes, and whether it was used.
//!
//! ```text
//! let mut segments = Segments::open(alloc, memory);   // three empty lists, no memory yet
//! segments.reserve_one(item)?;                         // room for a card of this item
//! segments.put_hot(item, size);                        // at HOT's front
//! segments.touch(item);                                // it was used
//! while segments.juggle_one().is_some() {}             // HOT and WARM within their shares
//! let next = segments.last_out();                      // what leaves memory next
//! ```
//!
//! Each call leaves exactly the three lists that its contract names, and an item has one card at most in the
//! three together. Only `reserve_one` takes memory, and each other call takes constant time.
#![tactic(auto)]

mod card;
mod node;
mod segment;
mod segments;
mod shares;

pub use card::Card;
pub use segment::Segment;
pub use segments::Segments;
