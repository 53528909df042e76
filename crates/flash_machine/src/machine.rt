// The machine that decides whether a journal goes on as a run. Each table follows what one group of rules asks of the
// journal, so that no rule looks through it.

ghost use Rattle.std.specs.Prelude.{◌≡◌, ◌≢◌, [], ◌∷◌, ◌++◌, None, IfOk, OnOk, OnErr, List, Ok};
ghost use Rattle.flash_names.specs.Geometry.{check_result};
ghost use Rattle.std.specs.Option.{option_copied, option_map};
ghost use Rattle.flash_machine.specs.Steps.{cache_of};
ghost use Rattle.flash_machine.specs.Live.{live_item, next_live_key, told_of};
ghost use Rattle.flash_machine.specs.Told.{told};
ghost use Rattle.flash_machine.specs.Rules.{rules, broken};
ghost use Rattle.flash_machine.specs.Stands.{StandsFor, Judges, Takes, StandsOn, verdict_of};

mod cache_table;
mod changing;
mod item;
mod item_table;
mod judging;
mod label_counts;
mod last_steps;
mod live;
mod lookup_table;
mod map_key;
mod moments;
mod noting;
mod page_table;
mod read_table;
mod storing;
mod summing;
mod write_table;

use crate::machine::cache_table::CacheTable;
use crate::machine::last_steps::LastSteps;
pub use crate::machine::live::Live;
use crate::machine::lookup_table::LookupTable;
use crate::machine::page_table::PageTable;
use crate::machine::read_table::ReadTable;
use crate::machine::write_table::WriteTable;
use flash_entry::Entry;
use flash_names::{Geometry, Key};
use std::alloc::{AllocError, Global};

/// The verdict on an entry of a journal.
#[derive(Clone, Copy, Debug, PartialEq, Eq)]
pub enum Verdict {
    /// Every rule of its kind holds.
    Legal,
    /// The number, from 1 to 26, of the lowest rule that it breaks.
    Illegal(u32),
}

/// A machine that is given the entries of a journal one after the other, and tells of each whether the journal goes on
/// as a run of the one-thread cache.
#[derive(Drop)]
pub struct Machine {
    geometry: Geometry,
    cache: CacheTable,
    pages: PageTable,
    steps: LastSteps,
    lookups: LookupTable,
    reads: ReadTable,
    writes: WriteTable,
}

impl Machine {
    /// The machine of an empty journal.
    pub fn first(alloc: Global, geometry: Geometry) -> Machine
        requires { check_result geometry ≡ Ok tt }
        ensures { StandsFor result geometry [] }
    {
        Machine {
            cache: CacheTable::new(alloc),
            pages: PageTable::new(alloc, geometry.pages),
            steps: LastSteps::new(alloc),
            lookups: LookupTable::new(alloc),
            reads: ReadTable::new(alloc),
            writes: WriteTable::new(alloc, geometry.buffer_size),
            geometry,
        }
    }

    /// The live item of the journal's cache under the key: `None` exactly where there is none.
    pub fn live(&self, key: &Key) -> Option<Live<'_>>
        ensures { (g : Geometry) (h : List Entry) → StandsFor self.now g h
            → option_map told result ≡ option_map told_of (live_item h (cache_of g h) key.now) }
    {
        let item = self.cache.live(&self.pages, key)?;
        Some(Live::of(item))
    }

    /// The first key, in the order of the bytes, that has a live item in the journal's cache and stands behind `after`,
    /// if one is given: `None` exactly where there is none.
    pub fn next_live(&self, after: Option<&Key>) -> Option<&Key>
        ensures { (g : Geometry) (h : List Entry) → StandsFor self.now g h
            → option_copied result ≡ next_live_key h (cache_of g h) (option_copied after.entry) }
    {
        self.cache.next_live(&self.pages, after)
    }

    /// Decides whether the journal goes on as a run by this entry. Where it does, the machine stands for the longer
    /// journal from then on; where it doesn't, or memory runs out, it stands for the same one.
    pub fn step(&mut self, alloc: Global, entry: &Entry) -> Result<Verdict, AllocError>
        ensures verdict { IfOk result (λ verdict. (g : Geometry) (h : List Entry) → StandsFor self.old g h
            → verdict ≡ verdict_of (broken (rules g h (cache_of g h) entry.now))) }
        ensures legal { OnOk result ((g : Geometry) (h : List Entry) → StandsFor self.old g h
            → broken (rules g h (cache_of g h) entry.now) ≡ None → StandsFor self.new g (h ++ entry.now ∷ [])) }
        ensures illegal { IfOk result (λ verdict. verdict ≢ Verdict.Legal → self.new ≡ self.old) }
        ensures refused { OnErr result (StandsOn self.old self.new) }
    {
        if let Some(rule) = self.broken(entry) {
            return Ok(Verdict::Illegal(rule));
        }
        self.note(alloc, entry)?;
        Ok(Verdict::Legal)
    }

    // The number of the lowest rule that the entry breaks, if it breaks one.
    fn broken(&self, entry: &Entry) -> Option<u32>
        ensures { Judges self.now entry.now result }
    {
        match entry {
            Entry::Clock(moment) => self.broken_by_clock(*moment),
            Entry::Did(id, done) => self.broken_by_did(*id, done),
            Entry::Looked(id, key, _, residence) => self.broken_by_look(*id, key, *residence),
            Entry::FromBuffer(id, place) => self.broken_by_buffer(*id, *place),
            Entry::ReadBegan(id, place, _) => self.broken_by_read_begin(*id, *place),
            Entry::ReadEnded(id, outcome) => self.broken_by_read_end(*id, outcome),
            Entry::Closed(id, close) => self.broken_by_close(*id, close),
            Entry::Moved(key, cas, label) => self.broken_by_move(key, *cas, *label),
            Entry::Recached(key, cas) => self.broken_by_recache(key, *cas),
            Entry::Dropped(key, cause) => self.broken_by_drop(key, *cause),
            Entry::WriteBegan(place) => self.broken_by_write_begin(*place),
            Entry::WriteEnded(place, outcome) => self.broken_by_write_end(*place, outcome),
            Entry::Opened(label) => self.broken_by_open(*label),
            Entry::Ended(label, cause) => self.broken_by_end(*label, *cause),
            Entry::Freed(label) => self.broken_by_free(*label),
        }
    }

    // Takes a legal entry.
    fn note(&mut self, alloc: Global, entry: &Entry) -> Result<(), AllocError>
        ensures noted { OnOk result (Takes self.old entry.now self.new) }
        ensures refused { OnErr result (StandsOn self.old self.new) }
    {
        match entry {
            Entry::Clock(moment) => {
                self.note_clock(*moment);
                Ok(())
            }
            Entry::Did(id, done) => self.note_did(alloc, *id, done),
            Entry::Looked(id, key, look, residence) => {
                self.note_look(*id, key, *look, *residence)
            }
            Entry::FromBuffer(id, place) => self.note_buffer(*id, *place),
            Entry::ReadBegan(id, place, _) => self.note_read_begin(*id, *place),
            Entry::ReadEnded(id, outcome) => self.note_read_end(alloc, *id, outcome),
            Entry::Closed(id, close) => self.note_close(*id, close),
            Entry::Moved(key, _, label) => self.note_move(key, *label),
            Entry::Recached(key, _) => self.note_recache(key),
            Entry::Dropped(key, _) => {
                self.note_drop(key);
                Ok(())
            }
            Entry::WriteBegan(place) => {
                self.note_write_begin(*place);
                Ok(())
            }
            Entry::WriteEnded(place, outcome) => self.note_write_end(*place, outcome),
            Entry::Opened(label) => self.note_open(*label),
            Entry::Ended(label, _) => self.note_end(*label),
            Entry::Freed(label) => {
                self.note_free(*label);
                Ok(())
            }
        }
    }
}
