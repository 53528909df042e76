//! What threads do with a store that they share: sessions and the keeper, each with a pass of the store's lock.
//!
//! `specs/Passing.antt` says what a pass is known to be between two turns of the lock, and `Stepping.antt` what one
//! step of a session adds to the journal. `serve_session` serves a session to its end: `Headline.antt` says what it has
//! done then, and `Timing.antt` when its steps are done. `Serving.antt` says what a session under way has done so far.
#![tactic(auto)]

mod batch;
mod input;
mod keeper;
mod laws;
mod output;
mod room;
mod service;
mod session;
mod session_end;
mod turns;
mod under;

pub use keeper::{KeeperStep, keeper_turn};
pub use session::serve_session;
pub use session_end::SessionEnd;
pub use turns::{first_turn, step};
