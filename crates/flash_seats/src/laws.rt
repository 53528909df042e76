// Laws of the sessions of scripts. Each body calls the laws that it rests on, and does nothing.
ghost use Rattle.flash_seats.specs.Laws.{ASeatHasTheNextNumber, SessionLaws};

use flash_commands::{an_end_stays, more_bytes_go_on};
use flash_session::{
    a_feed_goes_on, a_next_piece_stays, a_send_goes_on, all_is_said, an_answer_goes_on,
    an_answer_holds_a_piece, an_ask_is_the_next_step, no_piece_is_next_at_an_ask,
    pieces_are_the_replies, steps_are_counted, steps_come_in_order,
};

/// The next number of a session is that after the steps that it was told.
pub fn a_seat_has_the_next_number()
    ensures { ASeatHasTheNextNumber }
{
    steps_are_counted();
}

/// What the laws of sessions, of the pieces of their replies and of their bytes say together.
pub fn sessions_keep_their_laws()
    ensures { SessionLaws }
{
    a_feed_goes_on();
    a_send_goes_on();
    an_answer_goes_on();
    an_ask_is_the_next_step();
    steps_are_counted();
    steps_come_in_order();
    all_is_said();
    a_next_piece_stays();
    an_answer_holds_a_piece();
    no_piece_is_next_at_an_ask();
    pieces_are_the_replies();
    more_bytes_go_on();
    an_end_stays();
}
