//! What the store is asked and what it answers, the entries of its journal, and their text.
//!
//! - `Ask` and its parts are the steps of commands; `Told` and its parts are their answers.
//! - `Entry` is what happened to the store. A `Note` is the same, borrowed. `Journal::note` appends up to four of them,
//!   all or none.
//! - `Kept` is a journal that keeps its entries and tells them. `Counted` counts them and is always ready.
//! - `print_entry` gives the line of an entry; `read_entry` reads one, or names the first word that breaks its form
//!   (`EntryFault`). `read_head` and `print_head` read and print the line of a geometry.
//!
//! It is proved what `note` leaves, the text of each kind of entry, the entry or the first fault of each line, that
//! every entry's line is read back, that what is read of a line has that line, the first fault of a geometry line, and
//! that a printed geometry line is read back.
#![tactic(auto)]

mod answer;
mod ask;
mod copy;
mod cursor;
mod entry;
mod entry_fault;
mod fixed;
mod found;
mod geometry_line;
mod journal;
mod kinds;
mod laws;
mod note;
mod print;
mod read;
mod read_step;
mod text;
mod values;
mod words;

pub use answer::{Gone, Stored, Sum, Summed, Tally, Touched};
pub use ask::{Arith, Ask, Create, Look, Mode, Put};
pub use entry::{Close, Done, DropCause, EndCause, Entry, Residence};
pub use entry_fault::EntryFault;
pub use found::{Cause, Closed, Head, Hit, LookAnswer, Outcome, Told};
pub use geometry_line::{HeadFault, print_head, read_head};
pub use journal::{Counted, Journal, Kept};
pub use laws::{
    each_entry_is_one_line, each_entry_is_read_back, geometry_lines_are_read_back,
    what_is_read_is_an_entry, what_is_read_is_its_line,
};
pub use note::{CloseNote, DoneNote, Note};
pub use print::print_entry;
pub use read::read_entry;
