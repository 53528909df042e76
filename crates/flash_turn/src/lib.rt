//! One value that threads change in turn: a lock, in no order of coming, whose passes remember what they saw of the value.
//!
//! `Turn::new` makes the lock and its first pass. `Pass::split` makes a pass for another thread, `join` takes one back. A
//! thread enters with its pass: `Turn::enter` waits and hands the value out as a `Held`, `Held::state` lends it, and
//! `Held::leave` gives it back. `Turn::close` ends the lock. A thread that takes several turns in a row does so in a batch
//! (`begin_batch`, `end_batch`), which spares it and others waiting; nothing is claimed of batches.
//!
//! A pass has a number of its own. The value has a story that only grows, things that belong to passes, a fixed part and a
//! face (`Shared`). It is proved that the value that is handed out has a story that begins with all that the pass has
//! seen, its own things as the pass left them, and the lock's fixed part; that no number is given twice; and that each
//! atomic step keeps the rule of `specs/Rule.antt`. Of how long a thread waits nothing is claimed.
#![tactic(auto)]

mod batches;
mod close;
mod draw;
mod held;
mod join;
mod laws;
mod lends;
mod pass;
mod rule;
mod sleepers;
mod split;
mod turn;
mod view;

pub use close::Closing;
pub use flash_names::Shared;
pub use held::{Held, HeldIn};
pub use laws::numbers_differ;
pub use pass::Pass;
pub use split::Split;
pub use turn::Turn;
pub use view::View;

#[cfg(test)]
mod tests;
