//! A session of a script over a store: it is given bytes, and does in its turns what they ask.
//!
//! `specs/Seats.antt` says when a `Seat` is a session as `flash_play` has it. `Seat::turn` takes the session's next turn and
//! `Seat::run` all of them, exactly as `flash_play` says, whatever pieces the session reads its bytes in.
#![tactic(auto)]

mod laws;
mod seat;

pub use laws::a_seat_has_the_next_number;
pub use seat::{Seat, Turn};
