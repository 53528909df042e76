//! `check`: whether a written journal is a run of the one-thread cache.
//!
//! `run_check` is the one call: it reads a journal from a source to its end, decides line by line, and writes one line to
//! a sink: that the journal is legal, which line breaks which rule, or which line can't be read.
//! `specs/Verdicts.antt` says what it answers, `Texts.antt` what it writes, `Ends.antt` how a check ends.
//!
//! It is proved that the answer is that of the definition, over all that was read; that it is `Legal` exactly on the bytes
//! of a journal that is a run (`JournalLaws.antt`); and the cause of every other end.
#![tactic(auto)]

mod check;
mod laws;
mod output;
mod run;
mod status;

pub use laws::each_run_is_legal;
pub use run::run_check;
pub use status::CheckStatus;

#[cfg(test)]
mod tests;
