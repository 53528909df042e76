// Laws of what a store keeps. Each function's contract is the law; its body calls the laws that it rests on, and does
// nothing.
ghost use Rattle.flash_calls.specs.Below.{Below};
ghost use Rattle.flash_calls.specs.Laws.{TheFirstRun, EachStoreGoesOn, EachLookupGoesOn, EachLookupTells};
ghost use Rattle.flash_calls.specs.Laws.{EachDeleteGoesOn};
ghost use Rattle.flash_calls.specs.Laws.{EachSumGoesOn, EachTouchGoesOn, EachFlushGoesOn, EachTallyGoesOn};
ghost use Rattle.flash_calls.specs.Laws.{EachClockGoesOn, EachRoomGoesOn, EachReapingGoesOn, EachJugglingGoesOn};
ghost use Rattle.flash_calls.specs.Laws.{EachSealGoesOn, EachMoveGoesOn};

use flash_blocks::{
    each_call_keeps_order, each_call_keeps_sizes, each_opening_keeps_order, each_put_is_held,
    each_record_is_read, each_record_stays, the_first_is_in_order,
};
use flash_heads::{
    a_known_run_goes_on, a_known_run_goes_on_by_a_move, an_item_in_memory_is_known,
    each_head_is_of_an_item, each_key_has_its_head, each_live_item_is_hidden,
    the_first_run_is_known,
};
use flash_index::{
    each_change_is_listed, each_last_has_an_item, each_move_is_listed, each_put_is_listed,
    each_removal_is_listed, each_resize_is_listed, each_use_is_listed, no_items_are_listed,
};

// The laws of heads, of the three lists, and of blocks.
fn laws_below()
    ensures { Below }
{
    the_first_run_is_known();
    a_known_run_goes_on();
    a_known_run_goes_on_by_a_move();
    an_item_in_memory_is_known();
    each_head_is_of_an_item();
    each_key_has_its_head();
    each_live_item_is_hidden();
    no_items_are_listed();
    each_put_is_listed();
    each_removal_is_listed();
    each_change_is_listed();
    each_resize_is_listed();
    each_use_is_listed();
    each_move_is_listed();
    each_last_has_an_item();
    the_first_is_in_order();
    each_call_keeps_order();
    each_opening_keeps_order();
    each_call_keeps_sizes();
    each_record_stays();
    each_record_is_read();
    each_put_is_held();
}

/// The empty journal runs, with the first heads and the first desk, where the geometry keeps its rules.
pub fn the_first_run()
    ensures { TheFirstRun }
{
    laws_below();
}

/// A run goes on by what a store does, where the step's number is new.
pub fn each_store_goes_on()
    ensures { EachStoreGoesOn }
{
    laws_below();
}

/// A run goes on by what a lookup does, where the step's number is new.
pub fn each_lookup_goes_on()
    ensures { EachLookupGoesOn }
{
    laws_below();
}

/// What a lookup tells is by the item that is live in the run's own cache: a hit has its value.
pub fn each_lookup_tells()
    ensures { EachLookupTells }
{
    laws_below();
}

/// A run goes on by what a delete does, where the step's number is new.
pub fn each_delete_goes_on()
    ensures { EachDeleteGoesOn }
{
    laws_below();
}

/// A run goes on by what arithmetic does, where the step's number is new.
pub fn each_sum_goes_on()
    ensures { EachSumGoesOn }
{
    laws_below();
}

/// A run goes on by what a touch does, where the step's number is new.
pub fn each_touch_goes_on()
    ensures { EachTouchGoesOn }
{
    laws_below();
}

/// A run goes on by what a flush does, where the step's number is new.
pub fn each_flush_goes_on()
    ensures { EachFlushGoesOn }
{
    laws_below();
}

/// A run goes on by what telling the store's numbers does, where the step's number is new.
pub fn each_tally_goes_on()
    ensures { EachTallyGoesOn }
{
    laws_below();
}

/// A run goes on by what a reading of the clock does.
pub fn each_clock_goes_on()
    ensures { EachClockGoesOn }
{
    laws_below();
}

/// A run goes on by what making room does.
pub fn each_room_goes_on()
    ensures { EachRoomGoesOn }
{
    laws_below();
}

/// A run goes on by what reaping does.
pub fn each_reaping_goes_on()
    ensures { EachReapingGoesOn }
{
    laws_below();
}

/// A run goes on by what juggling does.
pub fn each_juggling_goes_on()
    ensures { EachJugglingGoesOn }
{
    laws_below();
}

/// A run goes on by what sealing a bucket's open block does.
pub fn each_seal_goes_on()
    ensures { EachSealGoesOn }
{
    laws_below();
}

/// A run goes on by what a move does.
pub fn each_move_goes_on()
    ensures { EachMoveGoesOn }
{
    laws_below();
}
