//! The tickets of reads: each lookup of an item on flash waits as a ticket until its record was read.
//!
//! `Tickets::submit` puts a ticket at the end of a queue and takes all the memory that its read needs. A reader takes
//! the first one with `fly`, or one of its choice with `fly_of`, reads the device into the job's bytes, and gives the
//! job back to `finish` or `give_up`. The owner of the ticket asks for the answer with `collect`, or gives it up with
//! `forget`. A ticket and a job can't be dropped.
//!
//! Proved of every call is its answer and all tickets after it, as a finite map from slots to what is kept of a
//! ticket, and a list of the slots that are queued. Reads leave the queue first in, first out; no ticket is closed
//! twice; a slot is given again only after its ticket was collected, or after the job of a forgotten one has ended.
#![tactic(auto)]

mod job;
mod laws;
mod queue;
mod row;
mod slots;
mod tickets;

pub use job::{Asked, Collected, ReadJob, Ticket};
pub use laws::{closes_once, finds_the_queued};
pub use row::State;
pub use tickets::Tickets;
