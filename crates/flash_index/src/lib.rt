//! The index of the store: which item is under each key, and the three lists of the keys.
//!
//! `Index` is `flash_items` seen by keys. `find` gives the id of a key's item, by which the other calls name the
//! item; what each call leaves is said of the key. An item on flash is seen without its value: with as many zeros as
//! the value has bytes.
//!
//! - `specs/Known.antt`: what is known of an item; `specs/Places.antt`: where the values are that are on flash.
//! - `specs/KeyLists.antt`, `KeyEnds.antt`, `KeyJuggle.antt`: the three lists and what calls make of them.
//! - `specs/NextToMove.antt`: which key's item moves to flash next. `marks.rt` keeps how far the lists have nothing
//!   that can move, so that a search doesn't pass over it again; a contract doesn't see it.
//! - `specs/Listed.antt`: the lists have each key of an item once, with the item's size. `Index::is_listed` says that
//!   it is so at all times, and `laws.rt` that each change keeps it.
#![tactic(auto)]

mod index;
mod laws;
mod marks;
mod move_rule;
mod moving;

pub use index::Index;
pub use laws::{
    each_change_is_listed, each_last_has_an_item, each_move_is_listed, each_put_is_listed,
    each_removal_is_listed, each_resize_is_listed, each_use_is_listed, no_items_are_listed,
    no_last_is_no_load, the_load_is_that_of_the_lists,
};
pub use move_rule::MoveRule;
