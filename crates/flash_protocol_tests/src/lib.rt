//! Tests of the protocol's crates over their public calls: lines, meta commands, replies, readers, sessions and scripts.
#![tactic(auto)]

#[cfg(test)]
mod meta;
#[cfg(test)]
mod reader;
#[cfg(test)]
mod reply;
#[cfg(test)]
mod script;
#[cfg(test)]
mod script_feeds;
#[cfg(test)]
mod session;
#[cfg(test)]
mod text;
