ghost use Rattle.std.specs.Prelude.{◌≡◌, ℕ, [], ◌∷◌, ◌++◌, OnOk, OnErr, List};
ghost use Rattle.flash_entry.specs.declared.entry.Entry.{Entry};
ghost use Rattle.flash_machine.specs.DeviceReads.{read_of};
ghost use Rattle.flash_machine.specs.Rules.{may_read_end};
ghost use Rattle.std.specs.Option.{option_copied};
ghost use Rattle.flash_machine.specs.Rules.{has_length};
ghost use Rattle.flash_machine.specs.Followed.{FollowsReads};

use flash_names::{Blob, Id, Place};
use std::alloc::{AllocError, Global};
use std::collections::HashMap;

/// A read of flash: its place, and its outcome once it has ended: the bytes, or none where it failed.
#[derive(Drop)]
pub struct DeviceRead {
    pub place: Place,
    pub outcome: Option<Option<Blob>>,
}

// The read of each step that has one.
#[derive(Drop)]
pub struct ReadTable {
    of_step: HashMap<(u32, u64), DeviceRead>,
}

impl ReadTable {
    pub fn new(alloc: Global) -> ReadTable
        ensures { FollowsReads result [] }
    {
        ReadTable {
            of_step: HashMap::new(alloc),
        }
    }

    // The read of a step, if it has begun.
    pub fn get(&self, id: Id) -> Option<&DeviceRead>
        ensures { (h : List Entry) → FollowsReads self.now h → option_copied result ≡ read_of id h }
    {
        self.of_step.get(&(id.pass, id.seq))
    }

    // Rule 7.
    pub fn may_end(&self, id: Id, bytes: &Option<Blob>) -> bool
        ensures { (h : List Entry) → FollowsReads self.now h → result ≡ may_read_end h id bytes.now }
    {
        match self.get(id) {
            None => false,
            Some(read) => read.outcome.is_none() && has_length(read.place.length, bytes),
        }
    }

    pub fn begin(&mut self, id: Id, place: Place) -> Result<(), AllocError>
        ensures begun { OnOk result ((h : List Entry) (reader : ℕ) → FollowsReads self.old h
            → FollowsReads self.new (h ++ Entry.ReadBegan id place reader ∷ [])) }
        ensures refused { OnErr result ((h : List Entry) → FollowsReads self.old h → FollowsReads self.new h) }
    {
        let read = DeviceRead {
            place,
            outcome: None,
        };
        self.of_step.insert((id.pass, id.seq), read)?;
        Ok(())
    }

    pub fn end(&mut self, id: Id, outcome: Option<Blob>)
        ensures { (h : List Entry) → FollowsReads self.old h
            → FollowsReads self.new (h ++ Entry.ReadEnded id outcome ∷ []) }
    {
        if let Some(read) = self.of_step.get_mut(&(id.pass, id.seq)) {
            read.outcome = Some(outcome);
        }
    }
}

// Whether the bytes, where there are some, are so many.
pub fn has_length(length: u32, bytes: &Option<Blob>) -> bool
    ensures { result ≡ has_length length bytes.now }
{
    match bytes {
        None => true,
        Some(bytes) => bytes.bytes().len() == length as usize,
    }
}
