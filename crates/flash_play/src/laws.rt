// Laws over every script. Each function's contract is the law; its body calls the laws that it rests on, and does nothing.
ghost use Rattle.flash_play.specs.Answers.{EveryPlayIsRight};
ghost use Rattle.flash_play.specs.Fronts.{EachFrontMakesAFront};
ghost use Rattle.flash_play.specs.Laws.{EachAnswerHadMemory};
ghost use Rattle.flash_play.specs.Numbers.{StepsLeaveNumbersNew};
ghost use Rattle.flash_play.specs.Printing.{EveryPlayIsPrinted};

use flash_answers::{
    an_ask_leaves_the_moment, calls_of_no_session_record_no_step, each_ask_goes_on,
    each_ask_is_told, each_ask_records_itself, numbers_stay_new, outcomes_are_in_order,
    outcomes_stay,
};
use flash_calls::{
    each_clock_goes_on, each_juggling_goes_on, each_reaping_goes_on, each_room_goes_on,
    the_first_run,
};
use flash_commands::{an_end_stays, more_bytes_go_on};
use flash_session::{pieces_are_the_replies, pieces_go_on};

/// Over a geometry that keeps its rules, steps of sessions from 1 to 16 make a run of the one-thread cache, in which each
/// session is answered as its bytes and the journal say.
pub fn every_play_is_right()
    ensures { EveryPlayIsRight }
{
    each_ask_goes_on();
    each_ask_is_told();
    each_ask_records_itself();
    numbers_stay_new();
    outcomes_stay();
    outcomes_are_in_order();
    an_ask_leaves_the_moment();
    calls_of_no_session_record_no_step();
    each_clock_goes_on();
    each_room_goes_on();
    each_reaping_goes_on();
    each_juggling_goes_on();
    the_first_run();
    more_bytes_go_on();
    an_end_stays();
    pieces_are_the_replies();
    pieces_go_on();
}

/// Each step of a script prints the line that the script's text says, and none else, and the sessions that are made are
/// those that a step names.
pub fn every_play_is_printed()
    ensures { EveryPlayIsPrinted }
{
    an_ask_leaves_the_moment();
    calls_of_no_session_record_no_step();
}

/// Each step leaves the next number of each session new.
pub fn steps_leave_numbers_new()
    ensures { StepsLeaveNumbersNew }
{
    each_ask_records_itself();
    numbers_stay_new();
    calls_of_no_session_record_no_step();
}

/// The steps before a script make a journal that the whole script's goes on from: what a turn did is not changed
/// by what comes after it.
pub fn each_front_makes_a_front()
    ensures { EachFrontMakesAFront }
{}

/// What a store answers had memory, so that a command goes on after each of its steps.
pub fn each_answer_had_memory()
    ensures { EachAnswerHadMemory }
{}
