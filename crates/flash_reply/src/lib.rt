//! The replies to commands: the bytes that a session is answered (memcached's doc/protocol.txt).
//!
//! - `reply_step` appends the reply to a step of a command to a queue, by what the step is told. `reply_found`,
//!   `reply_stored`, `reply_gone`, `reply_sum`, `reply_touched`, `reply_tally` and `reply_no_memory` do the same for
//!   one kind of answer, and `reply_look` for a key that the caller has at hand.
//! - `reply_plain` appends the reply to a command without an answer of its own, `reply_refusal` the line of a refusal.
//!
//! Proved: what is appended is exactly the text of the definitions in `specs/` (`TextReplies.antt`, `MetaReplies.antt`
//! and `GivenBack.antt`, joined in `Replies.antt`), and after want of memory the queue's bytes are as before; of every
//! reply two laws (`ReplyLaws.antt`). Nothing is allocated but the queue's growth.
#![tactic(auto)]

mod command;
mod facts;
mod given_back;
mod laws;
mod lines;
mod meta_replies;
mod reply;
mod text_replies;

pub use command::Command;
pub use laws::{each_lookup_ends_once, each_reply_is_whole_lines};
pub use reply::{
    reply_found, reply_gone, reply_no_memory, reply_plain, reply_refusal, reply_step, reply_stored,
    reply_sum, reply_tally, reply_touched,
};
pub use text_replies::reply_look;
