//! Reading a source to its end, and writing all of some bytes to a sink.
//!
//! `read_all` reads until the source ends or has given more bytes than a limit; `write_all` writes until the sink has
//! taken all. A source may give its bytes in any pieces, and a sink may take a part of a piece. `specs/Reading.antt`
//! says what was read, `Writing.antt` what was written, and `Lines.antt` what the lines of bytes are.
//!
//! Proved: exactly these bytes were read or written, in order, and what is left or held after a fault; a fault comes
//! only where the count of faults rose.
#![tactic(auto)]

mod reading;
mod writing;

pub use reading::{ReadError, read_all};
pub use writing::write_all;

#[cfg(test)]
mod tests;
