// The laws that a session over a store rests on. The body calls them, and does nothing.
ghost use Rattle.flash_actors.specs.Laws.{SessionLaws};

use flash_answers::{
    a_new_step_has_no_entry, numbers_stay_new, outcomes_are_in_order, outcomes_stay,
};
use flash_commands::{an_end_stays, more_bytes_go_on};
use flash_session::{
    a_feed_goes_on, a_new_session_stands_for_nothing, a_send_goes_on, all_is_said,
    an_answer_goes_on, an_ask_is_the_next_step, steps_are_counted,
};

/// What the laws of sessions, of their bytes, and of the outcomes and numbers of steps say together.
pub fn sessions_keep_their_laws()
    ensures { SessionLaws }
{
    a_new_session_stands_for_nothing();
    a_feed_goes_on();
    a_send_goes_on();
    an_answer_goes_on();
    an_ask_is_the_next_step();
    steps_are_counted();
    all_is_said();
    more_bytes_go_on();
    an_end_stays();
    outcomes_are_in_order();
    a_new_step_has_no_entry();
    outcomes_stay();
    numbers_stay_new();
}
