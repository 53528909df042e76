//! What a script is, and how it is read.
//!
//! A script's first line is the geometry of a store, and behind it stand steps: readings of the
//! clock, bytes for sessions, their turns, and upkeep of the store. `read_script` is the one call:
//! it reads a script, or finds its first bad line.
//!
//! `specs/Scripts.antt` says what a script is and which line of it is the first that is bad,
//! `specs/Steps.antt` what its steps are, and `specs/CodeScripts.antt` what the code's script
//! means. The laws over all scripts are in `laws.rt`.
#![tactic(auto)]

mod fault;
mod feed;
mod laws;
mod script;
mod step;
mod step_line;

pub use fault::{ScriptFault, Why};
pub use laws::{
    each_line_is_read, each_script_is_read_or_bad, each_session_has_a_seat,
    each_step_is_a_line_or_a_feed, the_first_bad_line_is_the_fault,
};
pub use script::{MAX_BYTES, MAX_STEPS, NotRead, Script, read_script};
pub use step::{MAX_SESSIONS, SessionNumber, Step, Upkeep};
