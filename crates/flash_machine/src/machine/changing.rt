// The steps that store no new value.
ghost use Rattle.std.specs.Prelude.{◌≡◌, ◌≤◌, ◌^◌, ℕ, IfOk, OnOk, OnErr, List, ℤ, option_copied};
ghost use Rattle.std.specs.FinMap as map;
ghost use Rattle.flash_names.specs.declared.geometry.Geometry.{Geometry};
ghost use Rattle.flash_entry.specs.declared.entry.Entry.{Entry};
ghost use Rattle.flash_machine.specs.Cache.{Cache};
ghost use Rattle.flash_machine.specs.Live.{live_item};
ghost use Rattle.flash_machine.specs.Moments.{deadline};
ghost use Rattle.flash_machine.specs.Looking.{fetched_item, look_next};
ghost use Rattle.flash_machine.specs.Deleting.{compare_fails, without_item, delete_step};
ghost use Rattle.flash_machine.specs.Touching.{touch_step, flush_next};
ghost use Rattle.flash_machine.specs.Steps.{labelled};
ghost use Rattle.flash_machine.specs.Same.{same_gone, same_touched};
ghost use Rattle.flash_machine.specs.Followed.{FollowsCache, FollowsPages};

use crate::machine::cache_table::CacheTable;
use crate::machine::item::Item;
use crate::machine::moments::{deadline_after, deadline_of};
use crate::machine::page_table::PageTable;
use flash_entry::{Gone, Look, Touched};
use flash_names::{Key, Label};
use std::alloc::AllocError;

impl CacheTable {
    pub fn delete(&mut self, pages: &PageTable, key: &Key, compare: Option<u64>)
        ensures { (g : Geometry) (h : List Entry) (c : Cache) → FollowsPages pages.now g h → FollowsCache self.old c
            → FollowsCache self.new (delete_step c key.now compare (live_item h c key.now)).1 }
    {
        let leaves = match self.live(pages, key) {
            None => true,
            Some(item) => compare_fails(compare, item.cas()),
        };
        if !leaves {
            self.remove(key);
        }
    }

    // Takes the key's item out.
    pub fn remove(&mut self, key: &Key)
        ensures { (c : Cache) → FollowsCache self.old c → FollowsCache self.new (without_item c key.now) }
    {
        self.items.remove(key);
    }

    // Puts a changed item in the place of the one under the key.
    fn replace(&mut self, key: &Key, item: Item) -> Result<(), AllocError>
        ensures replaced { OnOk result ((c : Cache) → FollowsCache self.old c
            → FollowsCache self.new (record c { items = map.insert c.items key.now item })) }
        ensures refused { OnErr result ((c : Cache) → FollowsCache self.old c → FollowsCache self.new c) }
    {
        self.items.put(key, item)
    }

    pub fn touch(&mut self, pages: &PageTable, key: &Key, exptime: &i64) -> Result<(), AllocError>
        ensures touched { OnOk result ((g : Geometry) (h : List Entry) (c : Cache) → FollowsPages pages.now g h
            → FollowsCache self.old c
            → FollowsCache self.new (touch_step c key.now exptime.now (live_item h c key.now)).1) }
        ensures refused { OnErr result ((c : Cache) → FollowsCache self.old c → FollowsCache self.new c) }
    {
        let Some(item) = self.live(pages, key) else {
            return Ok(());
        };
        let item = with_exptime(item, exptime, self.moment)?;
        self.replace(key, item)
    }

    pub fn flush(&mut self, delay: i64)
        ensures { (c : Cache) → FollowsCache self.old c → FollowsCache self.new (flush_next c delay) }
    {
        match deadline_of(delay, self.moment) {
            Some(moment) if moment > self.moment => self.pending_flush = Some(moment),
            _ => {
                self.flush_mark = self.last_cas;
                self.pending_flush = None;
            }
        }
    }

    pub fn look(&mut self, pages: &PageTable, key: &Key, look: Look) -> Result<(), AllocError>
        ensures looked { OnOk result ((g : Geometry) (h : List Entry) (c : Cache) → FollowsPages pages.now g h
            → FollowsCache self.old c
            → FollowsCache self.new (look_next c key.now look (live_item h c key.now))) }
        ensures refused { OnErr result ((c : Cache) → FollowsCache self.old c → FollowsCache self.new c) }
    {
        let Some(item) = self.live(pages, key) else {
            return Ok(());
        };
        let item = fetched(item, look, self.moment)?;
        self.replace(key, item)
    }

    // The item under the key, if there is one, gets this label, or none.
    pub fn set_label(&mut self, key: &Key, label: Option<Label>) -> Result<(), AllocError>
        ensures labelled { OnOk result ((c : Cache) → FollowsCache self.old c
            → FollowsCache self.new (labelled c key.now label (map.get c.items key.now))) }
        ensures refused { OnErr result ((c : Cache) → FollowsCache self.old c → FollowsCache self.new c) }
    {
        let Some(item) = self.items.get(key) else {
            return Ok(());
        };
        let mut item = item.share()?;
        item.label = label;
        self.replace(key, item)
    }
}

// The item with the deadline of this exptime at this moment.
fn with_exptime(item: &Item, exptime: &i64, now: u64) -> Result<Item, AllocError>
    ensures { IfOk result (λ changed. now ≤ 2 ^ 62
        → changed ≡ record item.now { deadline = deadline exptime.now now }) }
{
    let mut changed = item.share()?;
    changed.deadline = deadline_of(*exptime, now);
    Ok(changed)
}

// The item after it was found at this moment.
fn fetched(item: &Item, look: Look, now: u64) -> Result<Item, AllocError>
    ensures { IfOk result (λ found. now ≤ 2 ^ 62 → (c : Cache) → c.now ≡ now → found ≡ fetched_item c look item.now) }
{
    let mut found = item.share()?;
    found.deadline = deadline_after(look.renew, item.deadline, now);
    found.fetched = true;
    found.access = now;
    Ok(found)
}

// Whether an item's CAS number isn't the one that was given, where one was.
pub fn compare_fails(compare: Option<u64>, cas: u64) -> bool
    ensures { result ≡ compare_fails compare cas }
{
    match compare {
        None => false,
        Some(compare) => cas != compare,
    }
}

// Whether the answer is that of the step that deletes the key's item.
pub fn is_delete_answer(live: Option<&Item>, compare: Option<u64>, answer: Gone) -> bool
    ensures { (c : Cache) (key : List ℕ)
        → result ≡ same_gone answer (delete_step c key compare (option_copied live.entry)).0 }
{
    match live {
        None => matches!(answer, Gone::NotFound),
        Some(item) => {
            if compare_fails(compare, item.cas()) {
                matches!(answer, Gone::Exists)
            } else {
                matches!(answer, Gone::Deleted)
            }
        }
    }
}

// Whether the answer is that of the step that gives the key's item a new deadline.
pub fn is_touch_answer(live: Option<&Item>, answer: Touched) -> bool
    ensures { (c : Cache) (key : List ℕ) (exptime : ℤ)
        → result ≡ same_touched answer (touch_step c key exptime (option_copied live.entry)).0 }
{
    match live {
        None => matches!(answer, Touched::NotFound),
        Some(_) => matches!(answer, Touched::Touched),
    }
}
