//! What a script of sessions does: its definition, and its laws.
//!
//! `specs/Playing.antt` says what the steps of a script do, over plain lists: readings of the clock, bytes for sessions,
//! their turns, and upkeep of the store. `specs/Answers.antt` says what a session is answered, read off its bytes and the
//! journal, and `Printing.antt` what a step prints. Each function of `laws.rt` does nothing: its contract is a law over
//! every script.
#![tactic(auto)]

mod laws;

pub use laws::{
    each_answer_had_memory, each_front_makes_a_front, every_play_is_printed, every_play_is_right,
    steps_leave_numbers_new,
};
