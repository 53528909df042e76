//! `trace`: runs a written script over a store, and writes the sessions' replies and, on request, the journal.
//!
//! `run_trace` is the one call: it reads the script from a source, prepares the device, does each step over a store, and
//! writes the output to a sink. `flash_script` says what a script is and which line of it is the first that is bad,
//! `flash_play` what its steps do, `Output.antt` what is written, `Ends.antt` how a trace ends.
//!
//! It is proved that the output is that of the script; that the script's journal is a run of the one-thread cache and each
//! session is answered by it, in order, none left out (`IsRight` of `flash_play`); and the cause of every other end. The
//! law over all scripts is in `laws.rt`.
#![tactic(auto)]

mod fault;
mod laws;
mod output;
mod play;
mod run;

pub use fault::Status;
pub use laws::every_trace_is_right;
pub use run::run_trace;
