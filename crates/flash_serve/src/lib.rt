//! `serve`: the store over sockets.
//!
//! `read_options` reads the command line. `run_serve` opens the store, listens, and serves connections in threads of
//! their own, each by a session with a pass of its own; at the end it writes the counters and, on request, the
//! journal. A `Maker` makes what it needs of the outside, and `NetMaker` is the one over TCP, a file and the system's
//! clock.
//!
//! It is proved that a server that ends well has accepted as many connections as its words say, and has written the line
//! of its port, the counters and, with `--journal`, the journal: a run of the one-thread cache, whose counts the
//! counters are; and that each option is the one that the words give, or its default. That a connection is served by a session of its own, and that threads are started, is tested.
#![tactic(auto)]

mod bell;
mod crew;
mod job;
mod kept;
mod maker;
mod numbers;
mod options;
mod output;
mod real;
mod serve;
mod words;

pub use maker::{MakeError, Maker};
pub use options::{Options, Reading, read_options};
pub use real::{NetMaker, Trouble, WallClock};
pub use serve::{ServeStatus, run_serve};
