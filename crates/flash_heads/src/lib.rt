//! The heads of a cache: what a store sees of it whose moved values are on flash.
//!
//! A store has an item's value in memory until it moves it to a page. From then on it knows the item's header, its
//! label and the value's length, and no longer the bytes. `specs/Heads.antt` says what is left: the cache in which the
//! value of each item that has a label is as many zeros as it has bytes. That is a cache again, so each step and each
//! rule of the one-thread cache serves over it. Each function has no body: its contract is the law.
//!
//! - `kept.rt`: the heads have the same keys, CAS numbers, load and moment; where no item has a label they are the
//!   cache.
//! - `living.rt`: the same items are live.
//! - `steps.rt`: each step answers the same over the heads, and leaves the heads of what it leaves.
//! - `moves.rt`: what the heads are after an item's value moved to a page, or back into memory.
//! - `entries.rt`: what entries make of the heads, one or many.
//! - `rules.rt`: each rule holds over the heads exactly where it holds.
//! - `known_runs.rt`: a run that is known by its heads goes on by entries that meet their rules over the heads.
#![tactic(auto)]

mod entries;
mod kept;
mod known_runs;
mod living;
mod moves;
mod rules;
mod steps;

pub use entries::{
    each_entry_is_that_of_the_heads, each_entry_leaves_its_heads, each_run_is_that_of_the_heads,
    each_run_leaves_its_heads,
};
pub use kept::{
    a_cache_in_memory_is_known, a_cache_is_hidden_once, an_item_in_memory_is_known,
    an_item_is_hidden_once, each_cache_keeps_its_cas_numbers, each_cache_keeps_its_numbers,
    each_entry_has_its_head, each_head_is_of_an_item, each_item_keeps_its_size,
    each_key_has_its_head, each_put_is_hidden, each_removal_is_hidden, the_first_cache_is_known,
};
pub use known_runs::{
    a_known_run_goes_on, a_known_run_goes_on_by_a_move, a_known_run_goes_on_by_a_recache,
    a_known_run_goes_on_by_moves, the_first_run_is_known,
};
pub use living::{each_item_lives_alike, each_live_item_is_hidden, the_next_live_key_is_the_same};
pub use moves::{each_move_is_hidden, each_move_is_that_of_the_heads, each_recached_item_is_known};
pub use rules::{
    each_answer_is_that_of_the_heads, each_entry_meets_alike, each_find_is_that_of_the_heads,
    each_rule_is_that_of_the_heads, each_run_is_legal_alike,
};
pub use steps::{
    each_clock_is_that_of_the_heads, each_delete_is_that_of_the_heads,
    each_drop_is_that_of_the_heads, each_flush_is_that_of_the_heads, each_head_has_its_number,
    each_lookup_is_that_of_the_heads, each_store_is_that_of_the_heads,
    each_sum_is_that_of_the_heads, each_tally_is_that_of_the_heads,
    each_touch_is_that_of_the_heads, no_value_on_flash_is_a_number, no_value_on_flash_is_joined,
};
