ghost use Rattle.std.specs.Prelude.{◌≡◌, ◌<◌, None, Some, IsTrue, List};
ghost use Rattle.std.specs.Option.{option_copied};
ghost use Rattle.std.specs.FinMap as map;
ghost use Rattle.flash_names.specs.declared.geometry.Geometry.{Geometry};
ghost use Rattle.flash_entry.specs.declared.entry.Entry.{Entry};
ghost use Rattle.flash_machine.specs.Cache.{Cache, first_cache};
ghost use Rattle.flash_machine.specs.Live.{is_expired_item, label_has_ended, is_live, live_item, next_live_key};
ghost use Rattle.flash_machine.specs.Load.{tally_of};
ghost use Rattle.flash_machine.specs.Same.{same_tally, same_residence};
ghost use Rattle.flash_machine.specs.Looking.{residence_of};
ghost use Rattle.flash_machine.specs.Rules.{moment_rises};
ghost use Rattle.flash_machine.specs.Steps.{clock_next};
ghost use Rattle.flash_machine.specs.Followed.{FollowsCache, FollowsPages};

use crate::machine::item::Item;
use crate::machine::item_table::ItemTable;
use crate::machine::moments::is_reached;
use crate::machine::page_table::PageTable;
use flash_entry::{Residence, Tally};
use flash_names::Key;
use std::alloc::{AllocError, Global};

// The greatest moment that a clock gives.
const LAST_MOMENT: u64 = 1 << 62;

// The items, and the numbers of the cache.
#[derive(Drop)]
pub struct CacheTable {
    pub items: ItemTable,
    pub moment: u64,
    pub last_cas: u64,
    pub flush_mark: u64,
    pub pending_flush: Option<u64>,
}

impl CacheTable {
    pub fn new(alloc: Global) -> CacheTable
        ensures { FollowsCache result first_cache }
    {
        CacheTable {
            items: ItemTable::new(alloc),
            moment: 0,
            last_cas: 0,
            flush_mark: 0,
            pending_flush: None,
        }
    }

    // Whether an item's deadline was reached, or it was flushed.
    pub fn is_expired(&self, item: &Item) -> bool
        ensures { (c : Cache) → FollowsCache self.now c → result ≡ is_expired_item c item.now }
    {
        is_reached(item.deadline, self.moment) || item.cas <= self.flush_mark
    }

    fn is_live(&self, pages: &PageTable, item: &Item) -> bool
        ensures { (g : Geometry) (h : List Entry) (c : Cache) → FollowsPages pages.now g h → FollowsCache self.now c
            → result ≡ is_live h c item.now }
    {
        !self.is_expired(item) && !has_ended(pages, item)
    }

    // The live item under a key.
    pub fn live(&self, pages: &PageTable, key: &Key) -> Option<&Item>
        ensures { (g : Geometry) (h : List Entry) (c : Cache) → FollowsPages pages.now g h → FollowsCache self.now c
            → option_copied result ≡ live_item h c key.now }
    {
        let item = self.items.get(key)?;
        if self.is_live(pages, item) {
            Some(item)
        } else {
            None
        }
    }

    // The first key behind the one that is given that has a live item.
    pub fn next_live(&self, pages: &PageTable, after: Option<&Key>) -> Option<&Key>
        ensures { (g : Geometry) (h : List Entry) (c : Cache) → FollowsPages pages.now g h → FollowsCache self.now c
            → option_copied result ≡ next_live_key h c (option_copied after.entry) }
    {
        'items: for (key, item) in self.items.behind(after) {
            if self.is_live(pages, item) {
                return Some(key.key());
            }
        }
        None
    }

    // Rule 1.
    pub fn moment_rises(&self, moment: u64) -> bool
        ensures { (c : Cache) → FollowsCache self.now c → result ≡ moment_rises c moment }
    {
        self.moment < moment && moment <= LAST_MOMENT
    }

    pub fn set_clock(&mut self, moment: u64)
        ensures { (c : Cache) → FollowsCache self.old c → IsTrue (moment_rises c moment)
            → FollowsCache self.new (clock_next c moment) }
    {
        if is_reached(self.pending_flush, moment) {
            self.flush_mark = self.last_cas;
            self.pending_flush = None;
        }
        self.moment = moment;
    }

    // Whether these are the numbers of the store.
    pub fn is_tally(&self, pages: &PageTable, tally: Tally) -> bool
        ensures { (g : Geometry) (h : List Entry) (c : Cache) → FollowsPages pages.now g h → FollowsCache self.now c
            → result ≡ same_tally tally (tally_of g h c) }
    {
        tally.items == self.items.len() as u64
            && tally.load == self.items.load()
            && tally.last_cas == self.last_cas
            && tally.now == self.moment
            && tally.free_pages == u64::from(pages.free())
    }
}

// Whether the item's label has ended, if it has one.
pub fn has_ended(pages: &PageTable, item: &Item) -> bool
    ensures { (g : Geometry) (h : List Entry) → FollowsPages pages.now g h → result ≡ label_has_ended h item.now.label }
{
    match item.label {
        None => false,
        Some(label) => pages.has_ended(label),
    }
}

// Rule 4: whether what was found is the live item.
pub fn is_found(residence: Residence, live: Option<&Item>) -> bool
    ensures { result ≡ same_residence residence (residence_of (option_copied live.entry)) }
{
    match (residence, live) {
        (Residence::Nothing, None) => true,
        (Residence::Here(cas), Some(item)) => item.label.is_none() && cas == item.cas,
        (Residence::Away(cas, label), Some(item)) => match item.label {
            None => false,
            Some(own) => cas == item.cas && label.is_same(own),
        },
        _ => false,
    }
}
