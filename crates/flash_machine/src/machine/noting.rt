// How the machine takes a legal entry.
ghost use Rattle.std.specs.Prelude.{◌≡◌, ℕ, IsTrue, OnOk, OnErr, List, Option};
ghost use Rattle.flash_names.specs.declared.geometry.Geometry.{Geometry};
ghost use Rattle.flash_entry.specs.declared.entry.Entry.{Entry};
ghost use Rattle.flash_machine.specs.Rules.{is_found};
ghost use Rattle.std.specs.Prelude.{IfOk};
ghost use Rattle.std.specs.Option.{option_or};
ghost use Rattle.flash_machine.specs.Cache.{Cache};
ghost use Rattle.flash_machine.specs.Live.{live_item};
ghost use Rattle.flash_machine.specs.Lookups.{opened_by};
ghost use Rattle.flash_machine.specs.Steps.{done_next};
ghost use Rattle.flash_machine.specs.Followed.{FollowsCache, FollowsPages};
ghost use Rattle.flash_machine.specs.Stands.{Takes, StandsOn};

use crate::machine::Machine;
use crate::machine::lookup_table::Lookup;
use flash_entry::{Close, Done, DropCause, EndCause, Look, Residence};
use flash_names::{Blob, Id, Key, Label, Place};
use std::alloc::{AllocError, Global};

impl Machine {
    pub fn note_clock(&mut self, moment: u64)
        ensures { Takes self.old (Entry.Clock moment) self.new }
    {
        self.cache.set_clock(moment);
    }

    pub fn note_did(&mut self, alloc: Global, id: Id, done: &Done) -> Result<(), AllocError>
        ensures noted { OnOk result (Takes self.old (Entry.Did id done.now) self.new) }
        ensures refused { OnErr result (StandsOn self.old self.new) }
    {
        self.steps.reserve()?;
        self.do_step(alloc, done)?;
        self.steps.note(id);
        Ok(())
    }

    // The step of a command.
    fn do_step(&mut self, alloc: Global, done: &Done) -> Result<(), AllocError>
        ensures geometry { self.new.geometry ≡ self.old.geometry }
        ensures pages { self.new.pages ≡ self.old.pages }
        ensures steps { self.new.steps ≡ self.old.steps }
        ensures lookups { self.new.lookups ≡ self.old.lookups }
        ensures reads { self.new.reads ≡ self.old.reads }
        ensures writes { self.new.writes ≡ self.old.writes }
        ensures noted { OnOk result ((g : Geometry) (h : List Entry) (c : Cache) → self.old.geometry ≡ g
            → FollowsPages self.old.pages g h → FollowsCache self.old.cache c
            → FollowsCache self.new.cache (done_next g h c done.now)) }
        ensures refused { OnErr result ((c : Cache) → FollowsCache self.old.cache c → FollowsCache self.new.cache c) }
    {
        match done {
            Done::Store(put, _) => self.cache.store(alloc, &self.geometry, &self.pages, put),
            Done::Delete(key, compare, _) => {
                self.cache.delete(&self.pages, key, *compare);
                Ok(())
            }
            Done::Sum(ask, _) => self.cache.sum(alloc, &self.pages, ask),
            Done::Touch(key, exptime, _) => self.cache.touch(&self.pages, key, exptime),
            Done::Flush(delay) => {
                self.cache.flush(*delay);
                Ok(())
            }
            Done::Stats(_) => Ok(()),
        }
    }

    pub fn note_look(
        &mut self,
        id: Id,
        key: &Key,
        look: Look,
        residence: Residence,
    ) -> Result<(), AllocError>
        ensures noted { OnOk result (Takes self.old (Entry.Looked id key.now look residence) self.new) }
        ensures refused { OnErr result (StandsOn self.old self.new) }
    {
        self.steps.reserve()?;
        self.lookups.reserve()?;
        let lookup = self.lookup_of(key, look, residence)?;
        self.cache.look(&self.pages, key, look)?;
        self.lookups.open(id, lookup);
        self.steps.note(id);
        Ok(())
    }

    // The lookup that opens, where the value is wanted and on flash.
    fn lookup_of(
        &self,
        key: &Key,
        look: Look,
        residence: Residence,
    ) -> Result<Option<Lookup>, AllocError>
        ensures { IfOk result (λ lookup. (g : Geometry) (h : List Entry) (c : Cache) → FollowsPages self.now.pages g h
            → FollowsCache self.now.cache c → IsTrue (is_found h c key.now residence) → (found : Option Lookup)
            → opened_by look.value key.now (live_item h c key.now) residence found ≡ option_or lookup found) }
    {
        let Residence::Away(_, label) = residence else {
            return Ok(None);
        };
        if !look.value {
            return Ok(None);
        }
        let Some(item) = self.cache.live(&self.pages, key) else {
            return Ok(None);
        };
        Ok(Some(Lookup {
            key: key.copy(),
            item: item.share()?,
            label,
        }))
    }

    pub fn note_buffer(&mut self, id: Id, place: Place) -> Result<(), AllocError>
        ensures noted { OnOk result (Takes self.old (Entry.FromBuffer id place) self.new) }
        ensures refused { OnErr result (StandsOn self.old self.new) }
    {
        self.lookups.take_from_buffer(id)
    }

    pub fn note_read_begin(&mut self, id: Id, place: Place) -> Result<(), AllocError>
        ensures noted { OnOk result ((reader : ℕ) → Takes self.old (Entry.ReadBegan id place reader) self.new) }
        ensures refused { OnErr result (StandsOn self.old self.new) }
    {
        self.reads.begin(id, place)
    }

    pub fn note_read_end(
        &mut self,
        alloc: Global,
        id: Id,
        outcome: &Option<Blob>,
    ) -> Result<(), AllocError>
        ensures noted { OnOk result (Takes self.old (Entry.ReadEnded id outcome.now) self.new) }
        ensures refused { OnErr result (StandsOn self.old self.new) }
    {
        let copy = copy_of(alloc, outcome)?;
        self.reads.end(id, copy);
        Ok(())
    }

    pub fn note_close(&mut self, id: Id, close: &Close) -> Result<(), AllocError>
        ensures noted { OnOk result (Takes self.old (Entry.Closed id close.now) self.new) }
        ensures refused { OnErr result (StandsOn self.old self.new) }
    {
        self.lookups.close(id, close)
    }

    pub fn note_move(&mut self, key: &Key, label: Label) -> Result<(), AllocError>
        ensures noted { OnOk result ((cas : ℕ) → Takes self.old (Entry.Moved key.now cas label) self.new) }
        ensures refused { OnErr result (StandsOn self.old self.new) }
    {
        self.cache.set_label(key, Some(label))
    }

    pub fn note_recache(&mut self, key: &Key) -> Result<(), AllocError>
        ensures noted { OnOk result ((cas : ℕ) → Takes self.old (Entry.Recached key.now cas) self.new) }
        ensures refused { OnErr result (StandsOn self.old self.new) }
    {
        self.cache.set_label(key, None)
    }

    pub fn note_drop(&mut self, key: &Key)
        ensures { (cause : DropCause) → Takes self.old (Entry.Dropped key.now cause) self.new }
    {
        self.cache.remove(key);
    }

    pub fn note_write_begin(&mut self, place: Place)
        ensures { Takes self.old (Entry.WriteBegan place) self.new }
    {
        self.writes.begin(place);
    }

    pub fn note_write_end(&mut self, place: Place, outcome: &Option<Blob>) -> Result<(), AllocError>
        ensures noted { OnOk result (Takes self.old (Entry.WriteEnded place outcome.now) self.new) }
        ensures refused { OnErr result (StandsOn self.old self.new) }
    {
        self.writes.end(place, outcome)
    }

    pub fn note_open(&mut self, label: Label) -> Result<(), AllocError>
        ensures noted { OnOk result (Takes self.old (Entry.Opened label) self.new) }
        ensures refused { OnErr result (StandsOn self.old self.new) }
    {
        self.pages.open(label)
    }

    pub fn note_end(&mut self, label: Label) -> Result<(), AllocError>
        ensures noted { OnOk result ((cause : EndCause) → Takes self.old (Entry.Ended label cause) self.new) }
        ensures refused { OnErr result (StandsOn self.old self.new) }
    {
        self.pages.end(label)
    }

    pub fn note_free(&mut self, label: Label)
        ensures { Takes self.old (Entry.Freed label) self.new }
    {
        self.pages.free_page(label);
    }
}

// The same bytes in memory of their own, where there are some.
fn copy_of(alloc: Global, bytes: &Option<Blob>) -> Result<Option<Blob>, AllocError>
    ensures { IfOk result (λ copy. copy ≡ bytes.now) }
{
    match bytes {
        None => Ok(None),
        Some(bytes) => Ok(Some(Blob::from_slice(alloc, bytes.bytes())?)),
    }
}
