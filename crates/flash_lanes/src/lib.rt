//! Tests over bytes, sixteen at a time by the processor's vector lanes.
//!
//! `all_key_bytes` tests that a key has no control byte and no space, `tags_equal` finds a tag among
//! sixteen, and `same_bytes` compares two keys. Each is proved equal to its plain definition, for every
//! length: whole blocks of sixteen go through the lanes, and the bytes that are left one by one.
//! No clause says how fast they are.
#![tactic(auto)]

mod key_bytes;
mod same;
mod tags;

pub use key_bytes::all_key_bytes;
pub use same::same_bytes;
pub use tags::tags_equal;

#[cfg(test)]
mod tests;
