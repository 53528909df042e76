//! What a session asks of the store, done and answered.
//!
//! A session asks for one step after another: an `Ask`. `do_ask` does any of them on a `Core`, and says what the
//! session is told: `ask_call` of `specs/AskCalls.antt`, by cases on the ask.
//!
//! `outcome` of `specs/Outcomes.antt` reads off the journal what a step was told. The laws say of a store's run that it
//! is what `ask_call` answers, whether a value is in memory or in a write buffer, and that the run goes on by any ask;
//! and of any journal, that no later entry changes an outcome that is there, and that a pass's next number is new after
//! each of its steps.
#![tactic(auto)]

mod ask;
mod examples;
mod laws;

pub use ask::do_ask;
pub use examples::worked_example;
pub use laws::{
    a_new_step_has_no_entry, an_ask_leaves_the_moment, asks_are_kept,
    calls_of_no_session_record_no_step, each_answer_is_added, each_ask_goes_on, each_ask_is_told,
    each_ask_notes_itself, each_ask_records_itself, numbers_stay_new, outcomes_are_in_order,
    outcomes_stay,
};
