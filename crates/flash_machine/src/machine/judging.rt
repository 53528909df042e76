// Which rule an entry breaks, if it breaks one.
ghost use Rattle.std.specs.Prelude.{◌≡◌, ℕ, [], ◌∷◌, option_copied};
ghost use Rattle.flash_entry.specs.declared.entry.Entry.{Entry};
ghost use Rattle.flash_machine.specs.Steps.{cache_of};
ghost use Rattle.flash_machine.specs.Rules.{rule, broken, has_step_answer, is_record_for, is_item_record, is_open_and};
ghost use Rattle.flash_machine.specs.Rules.{is_hit_of, is_lost_by_end, is_lost_by_fault, is_lost_by_damage, has_read};
ghost use Rattle.flash_machine.specs.Rules.{has_failed, is_lookup_of, may_be_buffered, is_block, may_write_begin};
ghost use Rattle.flash_machine.specs.Rules.{has_cas, has_label, was_damaged};
ghost use Rattle.std.specs.Prelude.{not, nat_le, ◌&&◌};
ghost use Rattle.std.specs.List.{list_any};
ghost use Rattle.std.specs.FinMap as map;
ghost use Rattle.flash_machine.specs.PageLabels.{free_pages};
ghost use Rattle.flash_machine.specs.Writes.{open_write, last_write, is_written};
ghost use Rattle.flash_machine.specs.Rules.{is_none_or, may_write_end, is_labelled, is_failure, ends_write_over};
ghost use Rattle.flash_entry.specs.declared.ask.Look.{Look};
ghost use Rattle.flash_machine.specs.Lookups.{open_lookup};
ghost use Rattle.flash_machine.specs.Stands.{Tells, Judges};

use crate::machine::Machine;
use crate::machine::cache_table::{has_ended, is_found};
use crate::machine::changing::{is_delete_answer, is_touch_answer};
use crate::machine::item::Item;
use crate::machine::lookup_table::Lookup;
use crate::machine::read_table::DeviceRead;
use flash_entry::{Cause, Close, Done, DropCause, EndCause, Residence};
use flash_names::{Blob, Id, Key, Label, Place};
use flash_record::read_record;

// The rule of this number, where it doesn't hold.
fn unless(holds: bool, number: u32) -> Option<u32>
    ensures { result ≡ broken (rule number holds ∷ []) }
{
    if holds { None } else { Some(number) }
}

impl Machine {
    pub fn broken_by_clock(&self, moment: u64) -> Option<u32>
        ensures { Judges self.now (Entry.Clock moment) result }
    {
        unless(self.cache.moment_rises(moment), 1)
    }

    pub fn broken_by_did(&self, id: Id, done: &Done) -> Option<u32>
        ensures { Judges self.now (Entry.Did id done.now) result }
    {
        if !self.steps.is_new(id) {
            return Some(2);
        }
        unless(self.has_step_answer(done), 3)
    }

    // Rule 3.
    fn has_step_answer(&self, done: &Done) -> bool
        ensures { Tells self.now (λ g h. has_step_answer g h (cache_of g h) done.now) result }
    {
        match done {
            Done::Store(put, answer) => {
                let live = self.cache.live(&self.pages, &put.key);
                self.cache
                    .is_store_answer(&self.geometry, put, live, *answer)
            }
            Done::Delete(key, compare, answer) => {
                is_delete_answer(self.cache.live(&self.pages, key), *compare, *answer)
            }
            Done::Sum(ask, answer) => {
                let live = self.cache.live(&self.pages, &ask.key);
                self.cache.is_sum_answer(ask, live, *answer)
            }
            Done::Touch(key, _, answer) => {
                is_touch_answer(self.cache.live(&self.pages, key), *answer)
            }
            Done::Flush(_) => true,
            Done::Stats(tally) => self.cache.is_tally(&self.pages, *tally),
        }
    }

    pub fn broken_by_look(&self, id: Id, key: &Key, residence: Residence) -> Option<u32>
        ensures { (look : Look) → Judges self.now (Entry.Looked id key.now look residence) result }
    {
        if !self.steps.is_new(id) {
            return Some(2);
        }
        unless(is_found(residence, self.cache.live(&self.pages, key)), 4)
    }

    // Whether a lookup of an item with this label is open.
    fn is_lookup_of(&self, id: Id, label: Label) -> bool
        ensures { Tells self.now (λ g h. is_lookup_of label (open_lookup g id h)) result }
    {
        match self.lookups.get(id) {
            None => false,
            Some(lookup) => lookup.label.is_same(label),
        }
    }

    pub fn broken_by_buffer(&self, id: Id, place: Place) -> Option<u32>
        ensures { Judges self.now (Entry.FromBuffer id place) result }
    {
        unless(self.may_be_buffered(id, place), 5)
    }

    // Rule 5.
    fn may_be_buffered(&self, id: Id, place: Place) -> bool
        ensures { Tells self.now (λ g h. may_be_buffered g h id place) result }
    {
        self.is_lookup_of(id, place.label)
            && !self.pages.has_ended(place.label)
            && !self.is_written_over(place)
    }

    // Whether a good write of the place's label overlaps the place.
    fn is_written_over(&self, place: Place) -> bool
        ensures { Tells self.now (λ g h. list_any (ends_write_over place) h) result }
    {
        self.writes.is_written_over(self.geometry.page_size, place)
    }

    pub fn broken_by_read_begin(&self, id: Id, place: Place) -> Option<u32>
        ensures { (reader : ℕ) → Judges self.now (Entry.ReadBegan id place reader) result }
    {
        let holds = self.pages.is_in_use(place.label)
            && self.reads.get(id).is_none()
            && (self.is_lookup_of(id, place.label) || id.pass == 0);
        unless(holds, 6)
    }

    pub fn broken_by_read_end(&self, id: Id, outcome: &Option<Blob>) -> Option<u32>
        ensures { Judges self.now (Entry.ReadEnded id outcome.now) result }
    {
        unless(self.reads.may_end(id, outcome), 7)
    }

    pub fn broken_by_close(&self, id: Id, close: &Close) -> Option<u32>
        ensures { Judges self.now (Entry.Closed id close.now) result }
    {
        match close {
            Close::Hit(flags, cas, value) => unless(self.is_hit(id, *flags, *cas, value), 8),
            Close::Lost(Cause::Ended) => unless(self.is_lost_by_end(id), 9),
            Close::Lost(Cause::Fault) => unless(self.is_lost_by_fault(id), 10),
            Close::Lost(Cause::Damaged) => unless(self.is_lost_by_damage(id), 11),
        }
    }

    // Rule 8.
    fn is_hit(&self, id: Id, flags: u32, cas: u64, value: &Blob) -> bool
        ensures { Tells self.now (λ g h. is_open_and (is_hit_of h id flags cas value.now) (open_lookup g id h)) result }
    {
        match self.lookups.get(id) {
            None => false,
            Some(lookup) => {
                flags == lookup.item.flags()
                    && cas == lookup.item.cas()
                    && value.bytes() == lookup.item.value()
                    && (self.lookups.was_from_buffer(id)
                        || has_item_record(lookup, self.reads.get(id)))
            }
        }
    }

    // Rule 9.
    fn is_lost_by_end(&self, id: Id) -> bool
        ensures { Tells self.now (λ g h. is_open_and (is_lost_by_end h id) (open_lookup g id h)) result }
    {
        match self.lookups.get(id) {
            None => false,
            Some(lookup) => self.pages.has_ended(lookup.label) && self.reads.get(id).is_none(),
        }
    }

    // Rule 10.
    fn is_lost_by_fault(&self, id: Id) -> bool
        ensures { Tells self.now (λ g h. is_open_and (is_lost_by_fault h id) (open_lookup g id h)) result }
    {
        self.lookups.get(id).is_some() && has_failed(self.reads.get(id))
    }

    // Rule 11.
    fn is_lost_by_damage(&self, id: Id) -> bool
        ensures { Tells self.now (λ g h. is_open_and (is_lost_by_damage h id) (open_lookup g id h)) result }
    {
        match self.lookups.get(id) {
            None => false,
            Some(lookup) => has_other_bytes(lookup, self.reads.get(id)),
        }
    }

    pub fn broken_by_move(&self, key: &Key, cas: u64, label: Label) -> Option<u32>
        ensures { Judges self.now (Entry.Moved key.now cas label) result }
    {
        let holds = has_cas(self.cache.live(&self.pages, key), cas) && self.pages.is_in_use(label);
        unless(holds, 12)
    }

    pub fn broken_by_recache(&self, key: &Key, cas: u64) -> Option<u32>
        ensures { Judges self.now (Entry.Recached key.now cas) result }
    {
        let live = self.cache.live(&self.pages, key);
        unless(
            has_cas(live, cas) && has_label(live) && self.lookups.was_hit(key, cas),
            13,
        )
    }

    pub fn broken_by_drop(&self, key: &Key, cause: DropCause) -> Option<u32>
        ensures { Judges self.now (Entry.Dropped key.now cause) result }
    {
        let Some(item) = self.cache.items.get(key) else {
            return Some(14);
        };
        match cause {
            DropCause::Dead => unless(self.cache.is_expired(item), 15),
            DropCause::Evict => unless(self.geometry.memory < self.cache.items.load(), 16),
            DropCause::Ended => unless(has_ended(&self.pages, item), 17),
            DropCause::Damaged => unless(self.was_damaged(key, item), 18),
        }
    }

    fn was_damaged(&self, key: &Key, item: &Item) -> bool
        ensures { Tells self.now (λ g h. was_damaged g h key.now item.now.cas item.now.label) result }
    {
        match item.label {
            None => false,
            Some(label) => self.lookups.was_damaged(key, item.cas(), label),
        }
    }

    pub fn broken_by_write_begin(&self, place: Place) -> Option<u32>
        ensures { Judges self.now (Entry.WriteBegan place) result }
    {
        unless(self.may_write_begin(place), 19)
    }

    // Rule 19.
    fn may_write_begin(&self, place: Place) -> bool
        ensures { Tells self.now (λ g h. may_write_begin g h place) result }
    {
        self.pages.is_in_use(place.label) && self.is_block(place) && self.is_none_or(place)
    }

    // Whether no write is open but one of this place.
    fn is_none_or(&self, place: Place) -> bool
        ensures { Tells self.now (λ g h. is_none_or place (open_write h)) result }
    {
        self.writes.is_none_or(place)
    }

    // Whether a place is one block of a page.
    fn is_block(&self, place: Place) -> bool
        ensures { Tells self.now (λ g h. is_block g place) result }
    {
        place.length == self.geometry.buffer_size
            && place
                .offset
                .checked_rem(place.length)
                .unwrap_or(place.offset)
                == 0
            && u64::from(place.offset) + u64::from(place.length)
                <= u64::from(self.geometry.page_size)
    }

    pub fn broken_by_write_end(&self, place: Place, outcome: &Option<Blob>) -> Option<u32>
        ensures { Judges self.now (Entry.WriteEnded place outcome.now) result }
    {
        unless(self.may_write_end(place, outcome), 20)
    }

    // Rule 20.
    fn may_write_end(&self, place: Place, outcome: &Option<Blob>) -> bool
        ensures { Tells self.now (λ g h. may_write_end h place outcome.now) result }
    {
        self.writes.may_end(place, outcome)
    }

    pub fn broken_by_open(&self, label: Label) -> Option<u32>
        ensures { Judges self.now (Entry.Opened label) result }
    {
        unless(self.pages.may_be_opened(&self.geometry, label), 21)
    }

    pub fn broken_by_end(&self, label: Label, cause: EndCause) -> Option<u32>
        ensures { Judges self.now (Entry.Ended label cause) result }
    {
        if !self.pages.is_in_use(label) {
            return Some(22);
        }
        match cause {
            EndCause::Compacted => unless(self.is_left(label), 23),
            EndCause::Evict => unless(self.may_be_evicted(label), 24),
            EndCause::Fault => unless(self.has_failed(label), 25),
        }
    }

    // Rule 23.
    fn is_left(&self, label: Label) -> bool
        ensures { Tells self.now (λ g h. not (list_any (is_labelled label) (map.entries (cache_of g h).items))) result }
    {
        self.cache.items.labelled(label) == 0
    }

    // Rule 24.
    fn may_be_evicted(&self, label: Label) -> bool
        ensures { Tells self.now (λ g h. (nat_le (free_pages g h) g.drop_under && is_written g label h)) result }
    {
        self.pages.free() <= self.geometry.drop_under
            && self.writes.is_written(self.geometry.page_size, label)
    }

    // Rule 25.
    fn has_failed(&self, label: Label) -> bool
        ensures { Tells self.now (λ g h. is_failure (last_write label h)) result }
    {
        self.writes.has_failed(label)
    }

    pub fn broken_by_free(&self, label: Label) -> Option<u32>
        ensures { Judges self.now (Entry.Freed label) result }
    {
        unless(self.pages.is_over(label), 26)
    }
}

// Whether there is an item, of this CAS number.
fn has_cas(live: Option<&Item>, cas: u64) -> bool
    ensures { result ≡ has_cas cas (option_copied live.entry) }
{
    match live {
        None => false,
        Some(item) => item.cas() == cas,
    }
}

// Whether there is an item, and it has a label.
fn has_label(live: Option<&Item>) -> bool
    ensures { result ≡ has_label (option_copied live.entry) }
{
    match live {
        None => false,
        Some(item) => item.label.is_some(),
    }
}

// Whether a read has failed.
fn has_failed(read: Option<&DeviceRead>) -> bool
    ensures { result ≡ has_failed (option_copied read.entry) }
{
    match read {
        None => false,
        Some(read) => matches!(read.outcome, Some(None)),
    }
}

// Whether a read has ended well, with the record of the lookup's item.
fn has_item_record(lookup: &Lookup, read: Option<&DeviceRead>) -> bool
    ensures { result ≡ has_read (is_item_record lookup.now) (option_copied read.entry) }
{
    let Some(read) = read else {
        return false;
    };
    match &read.outcome {
        Some(Some(bytes)) => is_item_record(lookup, bytes.bytes()),
        _ => false,
    }
}

// Whether a read has ended well, with no record of the lookup's key, CAS number and version.
fn has_other_bytes(lookup: &Lookup, read: Option<&DeviceRead>) -> bool
    ensures { result ≡ has_read (λ bytes. not (is_record_for lookup.now bytes)) (option_copied read.entry) }
{
    let Some(read) = read else {
        return false;
    };
    match &read.outcome {
        Some(Some(bytes)) => !is_record_for(lookup, bytes.bytes()),
        _ => false,
    }
}

// Whether bytes are a record of a lookup's key, CAS number and version.
fn is_record_for(lookup: &Lookup, bytes: &[u8]) -> bool
    ensures { result ≡ is_record_for lookup.now bytes.now }
{
    match read_record(bytes) {
        Err(_) => false,
        Ok(record) => {
            record.length == bytes.len()
                && record.key == lookup.key.bytes()
                && record.cas == lookup.item.cas()
                && record.version == lookup.label.version
        }
    }
}

// Whether bytes are the record of a lookup's item.
fn is_item_record(lookup: &Lookup, bytes: &[u8]) -> bool
    ensures { result ≡ is_item_record lookup.now bytes.now }
{
    match read_record(bytes) {
        Err(_) => false,
        Ok(record) => {
            record.length == bytes.len()
                && record.key == lookup.key.bytes()
                && record.cas == lookup.item.cas()
                && record.version == lookup.label.version
                && record.flags == lookup.item.flags()
                && record.value == lookup.item.value()
        }
    }
}
