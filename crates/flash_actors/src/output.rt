// The replies of a session that are gathered until they are written.
ghost use Rattle.std.specs.Prelude.{◌≡◌, ◌≤◌, ◌++◌, [], IfErr, OnOk, OnErr};

use crate::session_end::SessionEnd;
use flash_names::{Sink, SinkFault};
use flash_streams::write_all;
use std::alloc::{AllocError, Global};

// So many bytes are written at once, without waiting for more.
const WRITE_SIZE: usize = 16_384;

#[derive(Drop)]
pub struct Output {
    gathered: Vec<u8>,
}

impl Output {
    ghost use Rattle.flash_names.specs.Faults.{Counts};
    ghost use Rattle.flash_streams.specs.Writing.{IsWritten, IsBegun};
    ghost use Rattle.flash_actors.specs.Headline.{HasCause};
    ghost use Rattle.flash_actors.specs.Serving.{HasTaken, IsUnwritten};

    // No replies.
    pub fn new(alloc: Global) -> Output
        ensures { result.gathered.items ≡ [] }
    {
        Output {
            gathered: Vec::new(alloc),
        }
    }

    // Whether `take` writes where it is given a piece of this length.
    pub fn is_full_with(&self, length: usize) -> bool {
        length >= WRITE_SIZE || self.gathered.len() >= WRITE_SIZE - length
    }

    // Takes one piece more. Writes all where they are many; a piece that is large isn't gathered.
    pub fn take<K: Sink>(&mut self, sink: &mut K, piece: &[u8]) -> Result<(), SessionEnd>
        ensures taken { OnOk result
            (HasTaken piece.now self.old.gathered.items self.new.gathered.items (K.held sink.old) (K.held sink.new)) }
        ensures begun { OnErr result
            (IsBegun (self.old.gathered.items ++ piece.now) (K.held sink.old) (K.held sink.new)) }
        ensures end { IfErr result IsUnwritten }
        ensures cause { IfErr result (λ end. HasCause end None 0 0 (K.faults sink.old) (K.faults sink.new)) }
        ensures kept { K.faults sink.old ≤ K.faults sink.new }
    {
        if piece.len() >= WRITE_SIZE {
            return self.send_with(sink, piece);
        }
        match self.gathered.extend_from_slice(piece) {
            Ok(()) => {}
            Err(AllocError) => return Err(SessionEnd::NoMemory),
        }
        if self.gathered.len() < WRITE_SIZE {
            return Ok(());
        }
        match self.send(sink) {
            Ok(()) => Ok(()),
            Err(SinkFault) => Err(SessionEnd::SinkFault),
        }
    }

    // Writes what is gathered, and none is then.
    pub fn send<K: Sink>(&mut self, sink: &mut K) -> Result<(), SinkFault>
        ensures empty { OnOk result (self.new.gathered.items ≡ []) }
        ensures written { OnOk result (IsWritten self.old.gathered.items (K.held sink.old) (K.held sink.new)) }
        ensures begun { OnErr result (IsBegun self.old.gathered.items (K.held sink.old) (K.held sink.new)) }
        ensures counts { Counts (K.faults sink.old) (K.faults sink.new) result }
    {
        match write_all(sink, &self.gathered) {
            Ok(()) => {
                self.gathered.clear();
                Ok(())
            }
            Err(SinkFault) => Err(SinkFault),
        }
    }

    // Writes what is gathered, and then this piece.
    fn send_with<K: Sink>(&mut self, sink: &mut K, piece: &[u8]) -> Result<(), SessionEnd>
        ensures taken { OnOk result
            (HasTaken piece.now self.old.gathered.items self.new.gathered.items (K.held sink.old) (K.held sink.new)) }
        ensures begun { OnErr result
            (IsBegun (self.old.gathered.items ++ piece.now) (K.held sink.old) (K.held sink.new)) }
        ensures end { IfErr result IsUnwritten }
        ensures cause { IfErr result (λ end. HasCause end None 0 0 (K.faults sink.old) (K.faults sink.new)) }
        ensures kept { K.faults sink.old ≤ K.faults sink.new }
    {
        match self.send(sink) {
            Ok(()) => {}
            Err(SinkFault) => return Err(SessionEnd::SinkFault),
        }
        match write_all(sink, piece) {
            Ok(()) => Ok(()),
            Err(SinkFault) => Err(SessionEnd::SinkFault),
        }
    }
}
