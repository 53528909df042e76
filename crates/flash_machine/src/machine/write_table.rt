ghost use Rattle.std.specs.Prelude.{◌≡◌, ℕ, ◌+◌, ◌*◌, ◌<◌, [], ◌∷◌, ◌++◌, None, Some, IsTrue, OnOk, OnErr, List, ◌&&◌};
ghost use Rattle.std.specs.Prelude.{◌^◌, ◌-◌, ◌/◌};
ghost use Rattle.std.specs.List.{list_any};
ghost use Rattle.flash_names.specs.declared.geometry.Geometry.{Geometry};
ghost use Rattle.flash_entry.specs.declared.entry.Entry.{Entry};
ghost use Rattle.flash_machine.specs.Places.{same_place};
ghost use Rattle.flash_machine.specs.Writes.{open_write, has_good_write, is_written, last_write};
ghost use Rattle.flash_machine.specs.Rules.{is_none_or, is_failure, is_block, may_write_end, ends_write_over};
ghost use Rattle.flash_machine.specs.Followed.{FollowsWrites, is_reached};

use crate::machine::read_table::has_length;
use flash_names::{Blob, Label, Place};
use std::alloc::{AllocError, Global};
use std::collections::HashSet;

// The open write, the labels whose last write failed, and the blocks that have a good write: label and offset.
#[derive(Drop)]
pub struct WriteTable {
    block: u32,
    open: Option<Place>,
    failed: HashSet<(u32, u64)>,
    written: HashSet<((u32, u64), u64)>,
}

impl WriteTable {
    // That of a flash file whose blocks have so many bytes.
    pub fn new(alloc: Global, block: u32) -> WriteTable
        ensures { (g : Geometry) → g.buffer_size ≡ block → 0 < block → FollowsWrites result g [] }
    {
        WriteTable {
            block,
            open: None,
            failed: HashSet::new(alloc),
            written: HashSet::new(alloc),
        }
    }

    // Whether no write is open but one of this place.
    pub fn is_none_or(&self, place: Place) -> bool
        ensures { (g : Geometry) (h : List Entry) → FollowsWrites self.now g h
            → result ≡ is_none_or place (open_write h) }
    {
        match self.open {
            None => true,
            Some(open) => is_same(open, place),
        }
    }

    // Rule 20.
    pub fn may_end(&self, place: Place, bytes: &Option<Blob>) -> bool
        ensures { (g : Geometry) (h : List Entry) → FollowsWrites self.now g h
            → result ≡ may_write_end h place bytes.now }
    {
        match self.open {
            None => false,
            Some(open) => is_same(open, place) && has_length(place.length, bytes),
        }
    }

    // Rule 25.
    pub fn has_failed(&self, label: Label) -> bool
        ensures { (g : Geometry) (h : List Entry) → FollowsWrites self.now g h
            → result ≡ is_failure (last_write label h) }
    {
        self.failed.contains(&(label.page, label.version))
    }

    // Where the block of this index begins.
    fn offset_of(&self, index: u32) -> u64
        ensures is { result ≡ index * self.now.block }
        ensures small { result < 2 ^ 64 - 2 ^ 32 }
    {
        u64::from(index) * u64::from(self.block)
    }

    // Whether the label's block of this index has a good write.
    fn is_block_written(&self, label: Label, index: u32) -> bool
        ensures { (g : Geometry) (h : List Entry) → FollowsWrites self.now g h
            → result ≡ has_good_write label (index * g.buffer_size) h }
    {
        self.written
            .contains(&((label.page, label.version), self.offset_of(index)))
    }

    // Whether each block of the label has a good write.
    pub fn is_written(&self, page_size: u32, label: Label) -> bool
        ensures { (g : Geometry) (h : List Entry) → FollowsWrites self.now g h → g.page_size ≡ page_size
            → result ≡ is_written g label h }
    {
        'scan: for index in 0..self.blocks(page_size) {
            if !self.is_block_written(label, index) {
                return false;
            }
        }
        true
    }

    pub fn end(&mut self, place: Place, outcome: &Option<Blob>) -> Result<(), AllocError>
        ensures ended { OnOk result ((g : Geometry) (h : List Entry) → FollowsWrites self.old g h
            → open_write h ≡ Some place
            → FollowsWrites self.new g (h ++ Entry.WriteEnded place outcome.now ∷ [])) }
        ensures refused { OnErr result ((g : Geometry) (h : List Entry) → FollowsWrites self.old g h
            → FollowsWrites self.new g h) }
    {
        match outcome {
            None => self.fail(place),
            Some(_) => self.succeed(place),
        }
    }

    fn fail(&mut self, place: Place) -> Result<(), AllocError>
        ensures ended { OnOk result ((g : Geometry) (h : List Entry) → FollowsWrites self.old g h
            → FollowsWrites self.new g (h ++ Entry.WriteEnded place None ∷ [])) }
        ensures refused { OnErr result ((g : Geometry) (h : List Entry) → FollowsWrites self.old g h
            → FollowsWrites self.new g h) }
    {
        self.failed.insert((place.label.page, place.label.version))?;
        self.open = None;
        Ok(())
    }

    fn succeed(&mut self, place: Place) -> Result<(), AllocError>
        ensures ended { OnOk result ((g : Geometry) (h : List Entry) (bytes : List ℕ) → FollowsWrites self.old g h
            → open_write h ≡ Some place
            → FollowsWrites self.new g (h ++ Entry.WriteEnded place (Some bytes) ∷ [])) }
        ensures refused { OnErr result ((g : Geometry) (h : List Entry) → FollowsWrites self.old g h
            → FollowsWrites self.new g h) }
    {
        let label = (place.label.page, place.label.version);
        self.written.insert((label, u64::from(place.offset)))?;
        let _ = self.failed.remove(&label);
        self.open = None;
        Ok(())
    }

    // Whether a good write of the place's label overlaps the place.
    pub fn is_written_over(&self, page_size: u32, place: Place) -> bool
        ensures { (g : Geometry) (h : List Entry) → FollowsWrites self.now g h → g.page_size ≡ page_size
            → result ≡ list_any (ends_write_over place) h }
    {
        if place.length == 0 {
            return false;
        }
        'scan: for index in 0..self.blocks(page_size) {
            if self.overlaps(place, index) {
                return true;
            }
        }
        false
    }

    // How many blocks a page of this size has.
    fn blocks(&self, page_size: u32) -> u32
        ensures { 0 < self.now.block → result ≡ page_size / self.now.block }
    {
        if self.block == 0 {
            return 0;
        }
        page_size / self.block
    }

    // Whether the block of this index is written and has bytes of the place, which has some.
    fn overlaps(&self, place: Place, index: u32) -> bool
        ensures { (g : Geometry) (h : List Entry) → FollowsWrites self.now g h
            → result ≡ (is_reached g.buffer_size place (index * g.buffer_size)
            && has_good_write place.label (index * g.buffer_size) h) }
    {
        self.reaches(place, index) && self.is_block_written(place.label, index)
    }

    // Whether the block of this index has bytes of the place, which has some.
    fn reaches(&self, place: Place, index: u32) -> bool
        ensures { (g : Geometry) (h : List Entry) → FollowsWrites self.now g h
            → result ≡ is_reached g.buffer_size place (index * g.buffer_size) }
    {
        let from = u64::from(place.offset);
        let offset = self.offset_of(index);
        offset < from + u64::from(place.length) && from < offset + u64::from(self.block)
    }

    pub fn begin(&mut self, place: Place)
        ensures { (g : Geometry) (h : List Entry) → FollowsWrites self.old g h → IsTrue (is_block g place)
            → FollowsWrites self.new g (h ++ Entry.WriteBegan place ∷ []) }
    {
        self.open = Some(place);
    }
}

// Whether both are the same range under the same label.
fn is_same(one: Place, other: Place) -> bool
    ensures { result ≡ same_place one other }
{
    one.label.is_same(other.label) && one.offset == other.offset && one.length == other.length
}
