//! A session: it is fed bytes in any pieces, asks the store for one step after the other, is told the answers, and has
//! replies that are sent. It does no input and no output itself.
//!
//! `Session::next` says what it needs next: a `Todo`. `specs/Talks.antt` says what commands ask by what their steps were
//! told, and what is replied. `States.antt` says what a session has and what its calls make of it, and `Stands.antt` when it
//! stands for the bytes that it was fed, the answers that it was told and the bytes that were sent. `Todos.antt` says how a
//! session comes to need what `next` answers. The functions of `laws.rt` have no body: their contracts are laws, that each
//! call keeps what the session stands for, that the step it asks is the next one of its bytes, and that all replies were
//! sent where it needs more bytes.
//!
//! A lookup of many keys is read once: from its first step on the session keeps its keys, and where that of its next step
//! stands among them (`lookup.rt`, `specs/Lookups.antt`). What is kept is in the session's invariant, and no other clause
//! speaks of it.
#![tactic(auto)]

mod laws;
mod lookup;
mod session;
mod steps;
mod todo;

pub use laws::{
    a_feed_goes_on, a_new_session_stands_for_nothing, a_next_piece_stays, a_read_goes_on,
    a_read_holds_a_piece, a_send_goes_on, all_is_said, an_answer_goes_on, an_answer_holds_a_piece,
    an_ask_goes_on, an_ask_is_the_next_step, no_piece_is_next_at_an_ask, pieces_are_the_replies,
    pieces_go_on, steps_are_counted, steps_come_in_order,
};
pub use session::Session;
pub use todo::{Ending, Todo};
