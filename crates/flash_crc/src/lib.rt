//! The checksum of a record: CRC-32C (Castagnoli) of RFC 3720, section 12.1; examples are in its appendix B.4.
//!
//! `crc32c` gives the checksum of bytes at once. `Crc` takes them in pieces: `Crc::new`, then `feed` for each piece, then
//! `value`.
//!
//! Both are proved equal to the remainder of the bytes by the polynomial, taken bit by bit, however they are cut into
//! pieces. The code goes by sixteen tables and two loads of 8 bytes a round.
#![tactic(auto)]

mod block;
mod crc;
mod law;
mod tables;

pub use crc::{Crc, crc32c};
pub use law::fits_32_bits;

#[cfg(test)]
mod tests;
