ghost use Rattle.std.specs.Prelude.{◌≡◌, ℕ, [], ◌∷◌, ◌++◌, Some, OnOk, OnErr, List, Option, ◌||◌, ◌&&◌, if◌then◌else◌};
ghost use Rattle.std.specs.Option.{option_copied};
ghost use Rattle.std.specs.List.{list_any};
ghost use Rattle.flash_names.specs.declared.geometry.Geometry.{Geometry};
ghost use Rattle.flash_entry.specs.declared.entry.Entry.{Entry};
ghost use Rattle.flash_machine.specs.Lookups.{open_lookup, closings, was_from_buffer, lookup_step};
ghost use Rattle.flash_machine.specs.Rules.{is_hit, is_damage, is_hit_on, is_damage_on};
ghost use Rattle.flash_machine.specs.Steps.{cache_of};
ghost use Rattle.flash_machine.specs.Followed.{FollowsLookups, same_value, same_damage, same_pair, is_found_on};
ghost use Rattle.flash_machine.specs.Followed.{is_found_at, ClosesNone};
ghost use Rattle.flash_machine.specs.Lookups.{same_id};
ghost use Rattle.std.specs.HashMap as hash;
ghost use Rattle.std.specs.HashSet as set;
ghost use Rattle.std.specs.Prelude.{◌<◌};
ghost use Rattle.std.specs.Option.{option_or};
ghost use Rattle.std.specs.HashMap.{spare};

use crate::machine::item::Item;
use crate::machine::map_key::MapKey;
use flash_entry::{Cause, Close};
use flash_names::{Id, Key, Label, Place};
use std::alloc::{AllocError, Global};
use std::collections::{HashMap, HashSet};

/// A lookup of an item on flash: its key, and the item and its label as they were when it was looked up.
#[derive(Drop)]
pub struct Lookup {
    pub key: Key,
    pub item: Item,
    pub label: Label,
}

// The open lookups, the steps whose value came from a buffer, and what the closed lookups were of that were hits
// or damaged: key and CAS number, and for the damaged ones the label.
#[derive(Drop)]
pub struct LookupTable {
    open: HashMap<(u32, u64), Lookup>,
    buffered: HashSet<(u32, u64)>,
    hits: HashSet<(MapKey, u64)>,
    damaged: HashSet<((MapKey, u64), (u32, u64))>,
}

impl LookupTable {
    pub fn new(alloc: Global) -> LookupTable
        ensures { (g : Geometry) → FollowsLookups result g [] }
    {
        LookupTable {
            open: HashMap::new(alloc),
            buffered: HashSet::new(alloc),
            hits: HashSet::new(alloc),
            damaged: HashSet::new(alloc),
        }
    }

    // The open lookup of a step, if there is one.
    pub fn get(&self, id: Id) -> Option<&Lookup>
        ensures { (g : Geometry) (h : List Entry) → FollowsLookups self.now g h
            → option_copied result ≡ open_lookup g id h }
    {
        self.open.get(&(id.pass, id.seq))
    }

    pub fn was_from_buffer(&self, id: Id) -> bool
        ensures { (g : Geometry) (h : List Entry) → FollowsLookups self.now g h → result ≡ was_from_buffer id h }
    {
        self.buffered.contains(&(id.pass, id.seq))
    }

    // Whether a lookup of the key and the CAS number was closed as a hit.
    pub fn was_hit(&self, key: &Key, cas: u64) -> bool
        ensures { (g : Geometry) (h : List Entry) → FollowsLookups self.now g h
            → result ≡ list_any (is_hit_on key.now cas) (closings g h) }
    {
        self.hits.contains(&(MapKey::of(key), cas))
    }

    // Whether a lookup of the key, the CAS number and the label was lost as damaged.
    pub fn was_damaged(&self, key: &Key, cas: u64, label: Label) -> bool
        ensures { (g : Geometry) (h : List Entry) → FollowsLookups self.now g h
            → result ≡ list_any (is_damage_on key.now cas label) (closings g h) }
    {
        let wanted = ((MapKey::of(key), cas), (label.page, label.version));
        self.damaged.contains(&wanted)
    }

    // Room for one lookup more.
    pub fn reserve(&mut self) -> Result<(), AllocError>
        ensures same { (g : Geometry) (h : List Entry) → FollowsLookups self.old g h → FollowsLookups self.new g h }
        ensures room { OnOk result (0 < spare self.new.open) }
    {
        self.open.reserve(1)
    }

    // Opens a lookup, if one is given.
    pub fn open(&mut self, id: Id, lookup: Option<Lookup>)
        requires { 0 < spare self.old.open }
        ensures { (g : Geometry) (h : List Entry) (e : Entry) → FollowsLookups self.old g h
            → ((other : Id) (found : Option Lookup) → lookup_step other h (cache_of g h) found e
            ≡ (if same_id id other then option_or lookup found else found))
            → ClosesNone e → FollowsLookups self.new g (h ++ e ∷ []) }
    {
        if let Some(lookup) = lookup {
            insert(&mut self.open, id, lookup);
        }
    }

    pub fn take_from_buffer(&mut self, id: Id) -> Result<(), AllocError>
        ensures taken { OnOk result ((g : Geometry) (h : List Entry) (place : Place) → FollowsLookups self.old g h
            → FollowsLookups self.new g (h ++ Entry.FromBuffer id place ∷ [])) }
        ensures refused { OnErr result ((g : Geometry) (h : List Entry) → FollowsLookups self.old g h
            → FollowsLookups self.new g h) }
    {
        self.buffered.insert((id.pass, id.seq))?;
        Ok(())
    }

    pub fn close(&mut self, id: Id, close: &Close) -> Result<(), AllocError>
        ensures closed { OnOk result ((g : Geometry) (h : List Entry) → FollowsLookups self.old g h
            → FollowsLookups self.new g (h ++ Entry.Closed id close.now ∷ [])) }
        ensures refused { OnErr result ((g : Geometry) (h : List Entry) → FollowsLookups self.old g h
            → FollowsLookups self.new g h) }
    {
        self.note_closing(id, close)?;
        let _ = self.open.remove(&(id.pass, id.seq));
        Ok(())
    }

    // The open lookup of the step is to be closed so.
    fn note_closing(&mut self, id: Id, close: &Close) -> Result<(), AllocError>
        ensures open { self.new.open ≡ self.old.open }
        ensures buffered { self.new.buffered ≡ self.old.buffered }
        ensures hits { OnOk result ((key : List ℕ) (cas : ℕ) → set.contains same_value self.new.hits (key, cas)
            ≡ (set.contains same_value self.old.hits (key, cas)
            || (is_hit close.now && is_found_on key cas (hash.get same_pair self.old.open (id.pass, id.seq))))) }
        ensures damaged { OnOk result ((key : List ℕ) (cas : ℕ) (label : Label)
            → set.contains same_damage self.new.damaged ((key, cas), (label.page, label.version))
            ≡ (set.contains same_damage self.old.damaged ((key, cas), (label.page, label.version))
            || (is_damage close.now && is_found_at key cas label (hash.get same_pair self.old.open (id.pass, id.seq))))) }
        ensures refused { OnErr result (((key : List ℕ) (cas : ℕ) → set.contains same_value self.new.hits (key, cas)
            ≡ set.contains same_value self.old.hits (key, cas)) × ((key : List ℕ) (cas : ℕ) (label : Label)
            → set.contains same_damage self.new.damaged ((key, cas), (label.page, label.version))
            ≡ set.contains same_damage self.old.damaged ((key, cas), (label.page, label.version)))) }
    {
        match close {
            Close::Hit(..) => self.note_hit(id),
            Close::Lost(Cause::Damaged) => self.note_damage(id),
            Close::Lost(_) => Ok(()),
        }
    }

    // The open lookup of the step is to be closed as a hit.
    fn note_hit(&mut self, id: Id) -> Result<(), AllocError>
        ensures open { self.new.open ≡ self.old.open }
        ensures buffered { self.new.buffered ≡ self.old.buffered }
        ensures damaged { self.new.damaged ≡ self.old.damaged }
        ensures noted { OnOk result ((key : List ℕ) (cas : ℕ) → set.contains same_value self.new.hits (key, cas)
            ≡ (set.contains same_value self.old.hits (key, cas)
            || is_found_on key cas (hash.get same_pair self.old.open (id.pass, id.seq)))) }
        ensures refused { OnErr result ((key : List ℕ) (cas : ℕ) → set.contains same_value self.new.hits (key, cas)
            ≡ set.contains same_value self.old.hits (key, cas)) }
    {
        if let Some(lookup) = self.open.get(&(id.pass, id.seq)) {
            self.hits
                .insert((MapKey::of(&lookup.key), lookup.item.cas()))?;
        }
        Ok(())
    }

    // The open lookup of the step is to be closed as damaged.
    fn note_damage(&mut self, id: Id) -> Result<(), AllocError>
        ensures open { self.new.open ≡ self.old.open }
        ensures buffered { self.new.buffered ≡ self.old.buffered }
        ensures hits { self.new.hits ≡ self.old.hits }
        ensures noted { OnOk result ((key : List ℕ) (cas : ℕ) (label : Label)
            → set.contains same_damage self.new.damaged ((key, cas), (label.page, label.version))
            ≡ (set.contains same_damage self.old.damaged ((key, cas), (label.page, label.version))
            || is_found_at key cas label (hash.get same_pair self.old.open (id.pass, id.seq)))) }
        ensures refused { OnErr result ((key : List ℕ) (cas : ℕ) (label : Label)
            → set.contains same_damage self.new.damaged ((key, cas), (label.page, label.version))
            ≡ set.contains same_damage self.old.damaged ((key, cas), (label.page, label.version))) }
    {
        if let Some(lookup) = self.open.get(&(id.pass, id.seq)) {
            let label = (lookup.label.page, lookup.label.version);
            self.damaged
                .insert(((MapKey::of(&lookup.key), lookup.item.cas()), label))?;
        }
        Ok(())
    }
}

// Puts the lookup of a step into a table with room for one more.
fn insert(lookups: &mut HashMap<(u32, u64), Lookup>, id: Id, lookup: Lookup)
    requires { 0 < spare lookups.old }
    ensures { (other : Id) → hash.get same_pair lookups.new (other.pass, other.seq)
        ≡ (if same_id id other then Some lookup else hash.get same_pair lookups.old (other.pass, other.seq)) }
{
    let _ = lookups.insert((id.pass, id.seq), lookup);
}
