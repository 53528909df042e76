//! Tests of the program's crates over their public calls: actors, the server and the trace.
#![tactic(auto)]

#[cfg(test)]
mod actors;
#[cfg(test)]
mod serve;
#[cfg(test)]
mod trace;
