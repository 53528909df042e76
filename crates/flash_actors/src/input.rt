// The bytes of one read of a session's source, and which of them the session wasn't fed yet.
ghost use Rattle.std.specs.Prelude.{◌≡◌, ◌≤◌, ◌<◌, [], true, false, length, IfOk, IfErr, OnOk, OnErr};

use crate::session_end::SessionEnd;
use flash_names::{Source, SourceFault};
use flash_session::Session;
use std::alloc::{AllocError, Global};

// How many bytes a read asks for.
const READ_SIZE: usize = 16_384;

#[derive(Drop)]
pub struct Input {
    bytes: Vec<u8>,
    // Those from `start` to `end` are to be fed.
    start: usize,
    end: usize,
    ghost within: { end ≤ length bytes.items },
    ghost order: { start ≤ end },
    ghost some: { 0 < length bytes.items },
}

impl Input {
    ghost use Rattle.flash_actors.specs.Headline.{HasCause};
    ghost use Rattle.flash_actors.specs.Serving.{rest_of, HasFed, HasRead, IsUnread};

    // No bytes.
    pub fn new(alloc: Global) -> Result<Input, AllocError>
        ensures { IfOk result (λ input. rest_of input ≡ []) }
    {
        Ok(Input {
            bytes: new_bytes(alloc)?,
            start: 0,
            end: 0,
        })
    }

    // Whether no bytes are left to feed.
    pub fn is_empty(&self) -> bool
        ensures none { result ≡ true → rest_of self.now ≡ [] }
    {
        self.start == self.end
    }

    // Feeds the session as many bytes as it takes. Where memory runs out nothing changes.
    pub fn feed(&mut self, session: &mut Session) -> Result<(), AllocError>
        ensures fed { OnOk result (HasFed self.old session.old self.new session.new) }
        ensures same { OnErr result (self.new ≡ self.old) }
        ensures unfed { OnErr result (session.new ≡ session.old) }
    {
        match session.feed(self.bytes.split_at(self.end).0.split_at(self.start).1) {
            Ok(n) => {
                self.start += n;
                Ok(())
            }
            Err(AllocError) => Err(AllocError),
        }
    }

    // Reads the next bytes, where none are left to feed.
    pub fn read<S: Source>(&mut self, source: &mut S) -> Result<(), SessionEnd>
        ensures read { OnOk result (HasRead (rest_of self.new) (S.left source.old) (S.left source.new)) }
        ensures none { OnErr result (HasRead [] (S.left source.old) (S.left source.new)) }
        ensures end { IfErr result IsUnread }
        ensures cause { IfErr result (λ end. HasCause end (S.left source.new)
            (S.faults source.old) (S.faults source.new) 0 0) }
        ensures kept { S.faults source.old ≤ S.faults source.new }
    {
        match source.read(&mut self.bytes) {
            Err(SourceFault) => Err(SessionEnd::SourceFault),
            Ok(0) => Err(SessionEnd::End),
            Ok(n) => {
                self.start = 0;
                self.end = n;
                Ok(())
            }
        }
    }
}

// Room for what a read gives.
fn new_bytes(alloc: Global) -> Result<Vec<u8>, AllocError>
    ensures { IfOk result (λ bytes. 0 < length bytes.items) }
{
    Ok(vec![in alloc; 0u8; READ_SIZE]?)
}
