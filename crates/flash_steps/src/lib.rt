//! Laws of the commands' steps, in the commands' own words.
//!
//! The steps of the one-thread cache stand in `flash_machine`, each as one definition, and the store is proved to do
//! them. Here stands what they come to: a deleted key has no item, arithmetic counts on modulo 2^64 or stops at 0, a touch
//! changes the deadline alone, a flush ends each older item and spares each later one, a refused step changes nothing,
//! and a stored item has the next CAS number. Each function has no body: its contract is the law.
#![tactic(auto)]

mod counted;
mod deleted;
mod flushed;
mod numbered;
mod refused;
mod touched;

pub use counted::{a_number_is_counted_on, a_number_is_created_as_asked};
pub use deleted::{a_deleted_key_has_no_item, a_key_is_deleted_by_its_number};
pub use flushed::{
    a_delayed_flush_waits, a_flush_ends_each_older_item, a_flush_spares_each_later_item,
};
pub use numbered::a_stored_item_has_the_next_number;
pub use refused::{
    a_refused_delete_changes_nothing, a_refused_store_changes_nothing,
    a_refused_touch_changes_nothing, refused_arithmetic_changes_nothing,
};
pub use touched::a_touch_changes_the_deadline_alone;
