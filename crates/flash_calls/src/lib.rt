//! What each call of the store does, over its flash.
//!
//! A store has a cache, of which it knows the heads, and beside it a desk: the three lists of the items' keys, the
//! places of the values that were moved, and the blocks of the flash. `specs/Calls.antt`, `Lookups.antt`, `Rooms.antt`,
//! `Moves.antt` and `Seals.antt` say what each call notes, answers and leaves, from the geometry, the heads and the desk
//! before it. Each is one function.
//!
//! `specs/Running.antt` says what a store keeps of its journal, its heads and its desk, a field for each part. It is so
//! at first, where the geometry keeps its rules. Each other function's contract is the law that it stays so through a
//! call; a call that notes a step has the premise that the step's number is new, and none has another. What a lookup
//! tells is by the item that is live in the run's own cache: a hit has the value that its key held, from memory or from
//! a write buffer.
#![tactic(auto)]

mod found;
mod laws;
mod move_step;

pub use found::Found;
pub use laws::{
    each_clock_goes_on, each_delete_goes_on, each_flush_goes_on, each_juggling_goes_on,
    each_lookup_goes_on, each_lookup_tells, each_move_goes_on, each_reaping_goes_on,
    each_room_goes_on, each_seal_goes_on, each_store_goes_on, each_sum_goes_on, each_tally_goes_on,
    each_touch_goes_on, the_first_run,
};
pub use move_step::MoveStep;
