//! The items of the cache: which id has which key's item, and the three lists of their cards.
//!
//! ```text
//! let mut items = Items::open(alloc, memory)?;
//! items.reserve_one(alloc)?;             // room for one item more
//! let id = items.insert(item);           // at HOT's front, under a key that isn't there
//! let found = items.find(&key);          // the same id
//! let view = items.item(id);             // its parts, lent
//! let parts = items.remove(id);          // out of the map and the lists
//! ```
//!
//! Each call leaves exactly the finite map and the three lists that its contract names. Over any list of
//! calls, a key is found exactly where it was inserted and not removed since (`finds_the_inserted`), and the
//! lists hold each item once (`lists_each_once`). The bytes of a key are in memory once. Only `open` and
//! `reserve_one` take memory.
#![tactic(auto)]

mod item;
mod items;
mod laws;

pub use item::{Body, Item, ItemView, Parts};
pub use items::Items;
pub use laws::{finds_the_inserted, lists_each_once};
