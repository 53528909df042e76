// The step of arithmetic.
ghost use Rattle.std.specs.Prelude.{◌≡◌, ℕ, ◌<◌, ◌^◌, IsNone, IsSome, IfSome, IfOk, OnOk, OnErr, List, option_copied};
ghost use Rattle.flash_names.specs.declared.geometry.Geometry.{Geometry};
ghost use Rattle.flash_entry.specs.declared.entry.Entry.{Entry};
ghost use Rattle.flash_entry.specs.declared.answer.Sum.TheVariants as answers;
ghost use Rattle.flash_machine.specs.Cache.{Cache};
ghost use Rattle.flash_machine.specs.Live.{live_item};
ghost use Rattle.flash_machine.specs.Storing.{with_stored};
ghost use Rattle.flash_machine.specs.Summing.{number_in, changed_number, number_item, sum_created, sum_changed};
ghost use Rattle.flash_machine.specs.Summing.{sum_step};
ghost use Rattle.flash_machine.specs.Same.{same_sum};
ghost use Rattle.flash_machine.specs.Followed.{FollowsCache, FollowsPages, summed_as};

use crate::machine::cache_table::CacheTable;
use crate::machine::changing::compare_fails;
use crate::machine::item::Item;
use crate::machine::moments::{deadline_after, deadline_of, is_left};
use crate::machine::page_table::PageTable;
use crate::machine::storing::LAST_NUMBER;
use flash_entry::{Arith, Create, Sum, Summed};
use flash_names::{Blob, Key, read_number};
use itoa::Buffer;
use std::alloc::{AllocError, Global};
use std::rc::Rc;

impl CacheTable {
    // Whether the answer is that of the step.
    pub fn is_sum_answer(&self, ask: &Arith, live: Option<&Item>, answer: Sum) -> bool
        ensures { (c : Cache) → FollowsCache self.now c
            → result ≡ same_sum answer (sum_step c ask.now (option_copied live.entry)).0 }
    {
        match live {
            None => self.is_created_answer(ask.create, answer),
            Some(item) => {
                if compare_fails(ask.compare, item.cas()) {
                    matches!(answer, Sum::Exists)
                } else {
                    self.is_changed_answer(ask, item, answer)
                }
            }
        }
    }

    // Whether it is that where the key has no live item.
    fn is_created_answer(&self, create: Option<Create>, answer: Sum) -> bool
        ensures { (c : Cache) (key : List ℕ) → FollowsCache self.now c
            → result ≡ same_sum answer (sum_created c key create).0 }
    {
        match create {
            None => matches!(answer, Sum::NotFound),
            Some(create) => {
                let deadline = deadline_of(create.exptime, self.moment);
                match answer {
                    Sum::NoNumber => self.last_cas >= LAST_NUMBER,
                    Sum::Created(summed) => self.is_summed(summed, create.start, deadline),
                    _ => false,
                }
            }
        }
    }

    // Whether it is that where the item's CAS number is the one asked for.
    fn is_changed_answer(&self, ask: &Arith, item: &Item, answer: Sum) -> bool
        ensures { (c : Cache) → FollowsCache self.now c
            → result ≡ same_sum answer (sum_changed c ask.now item.now (number_in item.now)).0 }
    {
        match number_in(item) {
            None => matches!(answer, Sum::NonNumeric),
            Some(number) => {
                let deadline = deadline_after(ask.renew, item.deadline, self.moment);
                let changed = changed_number(ask.down, ask.delta, number);
                match answer {
                    Sum::NoNumber => self.last_cas >= LAST_NUMBER,
                    Sum::Now(summed) => self.is_summed(summed, changed, deadline),
                    _ => false,
                }
            }
        }
    }

    // Whether this is told of the next CAS number's item, which holds the number until the deadline.
    fn is_summed(&self, summed: Summed, number: u64, deadline: Option<u64>) -> bool
        ensures { (c : Cache) → FollowsCache self.now c → result ≡ summed_as c summed number deadline }
    {
        self.last_cas < LAST_NUMBER
            && summed.number == number
            && summed.cas == self.last_cas.saturating_add(1)
            && is_left(summed.left, deadline, self.moment)
    }

    // The item that holds a number.
    fn number_item(
        &self,
        alloc: Global,
        flags: u32,
        deadline: Option<u64>,
        number: u64,
    ) -> Result<Item, AllocError>
        ensures { IfOk result (λ item. (c : Cache) → FollowsCache self.now c
            → item ≡ number_item c flags deadline number) }
    {
        let digits = Blob::from_slice(alloc, Buffer::new().format(number).as_bytes())?;
        Ok(Item {
            value: Rc::new(alloc, digits)?,
            flags,
            cas: self.last_cas.saturating_add(1),
            deadline,
            fetched: false,
            access: self.moment,
            label: None,
        })
    }

    // What is to be stored: the flags, the deadline and the number, if something is.
    fn to_be_stored(&self, ask: &Arith, live: Option<&Item>) -> Option<(u32, Option<u64>, u64)>
        ensures none { IsNone result → (c : Cache) → FollowsCache self.now c
            → (sum_step c ask.now (option_copied live.entry)).1 ≡ c }
        ensures some { IfSome result (λ stored. (c : Cache) → FollowsCache self.now c
            → (sum_step c ask.now (option_copied live.entry)).1
            ≡ with_stored c ask.now.key (number_item c stored.0 stored.1 stored.2)) }
        ensures room { IsSome result → self.now.last_cas < 2 ^ 63 }
    {
        if self.last_cas >= LAST_NUMBER {
            return None;
        }
        match live {
            None => {
                let create = ask.create?;
                Some((0, deadline_of(create.exptime, self.moment), create.start))
            }
            Some(item) => {
                if compare_fails(ask.compare, item.cas()) {
                    return None;
                }
                let number = changed_number(ask.down, ask.delta, number_in(item)?);
                let deadline = deadline_after(ask.renew, item.deadline, self.moment);
                Some((item.flags, deadline, number))
            }
        }
    }

    // The step.
    pub fn sum(&mut self, alloc: Global, pages: &PageTable, ask: &Arith) -> Result<(), AllocError>
        ensures summed { OnOk result ((g : Geometry) (h : List Entry) (c : Cache) → FollowsPages pages.now g h
            → FollowsCache self.old c
            → FollowsCache self.new (sum_step c ask.now (live_item h c ask.now.key)).1) }
        ensures refused { OnErr result ((c : Cache) → FollowsCache self.old c → FollowsCache self.new c) }
    {
        let live = self.live(pages, &ask.key);
        let Some((flags, deadline, number)) = self.to_be_stored(ask, live) else {
            return Ok(());
        };
        let item = self.number_item(alloc, flags, deadline, number)?;
        self.put_stored(&ask.key, item)
    }
}

// The number that an item holds: its value is in memory, and is 1 to 20 digits of a number below 2^64.
fn number_in(item: &Item) -> Option<u64>
    ensures { result ≡ number_in item.now }
{
    match item.label {
        None => read_number(item.value()),
        Some(_) => None,
    }
}

// The number after the change: down it stops at 0, up it wraps at 2^64.
fn changed_number(down: bool, delta: u64, number: u64) -> u64
    ensures { result ≡ changed_number down delta number }
{
    if down {
        number.saturating_sub(delta)
    } else {
        number.wrapping_add(delta)
    }
}
