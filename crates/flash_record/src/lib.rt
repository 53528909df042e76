//! The records that lie on flash: their bytes, how they are written, and how they are read.
//!
//! `write_record` writes one at the front of a slice, `read_record` reads the one at the front, `is_record_of` tests
//! whether bytes are the record of a key, a CAS number and a version. It is proved that each is exact, with the first
//! reason why bytes are no record, and that no record begins another.
//!
//! | Offset | Bytes | Content, each number with its highest byte first |
//! |---|---|---|
//! | 0 | 3 | `46 52 01` |
//! | 3 | 1 | the key's length, 1 to 250 |
//! | 4 | 4 | the flags |
//! | 8 | 4 | the value's length |
//! | 12 | 8 | the CAS number |
//! | 20 | 8 | the version of the page |
//! | 28 | key | the key |
//! | 28 + key | value | the value |
//! | 28 + key + value | 4 | the CRC-32C of all before it |
#![tactic(auto)]

mod laws;
mod layout;
mod not_record;
mod reading;
mod writing;

pub use laws::{exact_length, no_prefix};
pub use not_record::NotRecord;
pub use reading::{Record, is_record_of, read_record};
pub use writing::write_record;

#[cfg(test)]
mod tests;
