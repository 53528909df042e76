// Laws of any step. Each function's contract is the law; its body calls the laws of the store that the law rests on, or
// is empty, and does nothing.
ghost use Rattle.flash_answers.specs.Laws.{EachAskGoesOn, EachAskIsTold, EachAnswerIsAdded, EachAskRecordsItself, EachAskNotesItself};
ghost use Rattle.flash_answers.specs.Laws.{AskLeavesTheMoment, OutcomesAreInOrder, OutcomesStay, NumbersStayNew};
ghost use Rattle.flash_answers.specs.Laws.{ANewStepHasNoEntry, AsksAreKept, CallsOfNoSession};

use flash_calls::{
    each_delete_goes_on, each_flush_goes_on, each_lookup_goes_on, each_lookup_tells,
    each_store_goes_on, each_sum_goes_on, each_tally_goes_on, each_touch_goes_on,
};

/// A run of the one-thread cache goes on by any step, and the store has what it keeps of it, where the step's number is
/// new.
pub fn each_ask_goes_on()
    ensures { EachAskGoesOn }
{
    each_lookup_goes_on();
    each_store_goes_on();
    each_delete_goes_on();
    each_sum_goes_on();
    each_touch_goes_on();
    each_flush_goes_on();
    each_tally_goes_on();
}

/// Then the journal gives the step what the session is told: a hit has the value that the key held, from memory or from
/// a write buffer.
pub fn each_ask_is_told()
    ensures { EachAskIsTold }
{
    each_lookup_tells();
}

/// The answer of a pass's next step stands after those of its steps before.
pub fn each_answer_is_added()
    ensures { EachAnswerIsAdded }
{
    each_ask_is_told();
}

/// What a step notes records that step, with what was asked, and no other step.
pub fn each_ask_records_itself()
    ensures { EachAskRecordsItself }
{}

/// What a step notes is entries of no step, its own, which tells what the step was told, and entries of no step behind
/// it.
pub fn each_ask_notes_itself()
    ensures { EachAskNotesItself }
{
    each_lookup_tells();
}

/// No step changes the moment.
pub fn an_ask_leaves_the_moment()
    ensures { AskLeavesTheMoment }
{}

/// The outcomes of a pass are those of its steps, in order.
pub fn outcomes_are_in_order()
    ensures { OutcomesAreInOrder }
{}

/// A step whose number is new has no entry, and so the outcome of a step that had no memory.
pub fn a_new_step_has_no_entry()
    ensures { ANewStepHasNoEntry }
{}

/// No further entry changes the outcome of a step that has its entry. Entries of a later step, of another pass or of no
/// step change no outcome of the steps before.
pub fn outcomes_stay()
    ensures { OutcomesStay }
{}

/// After the entries of a step whose number was new, the next number of its pass is new. A number of another pass stays
/// new, and each number does after entries that record no step.
pub fn numbers_stay_new()
    ensures { NumbersStayNew }
{}

/// A journal that keeps to a pass's asks keeps to one more after the entries of its next step, and to the same ones
/// after those of another pass, or of no step.
pub fn asks_are_kept()
    ensures { AsksAreKept }
{}

/// A reading of the clock and the store's upkeep record no step; the reading alone changes the moment.
pub fn calls_of_no_session_record_no_step()
    ensures { CallsOfNoSession }
{}
