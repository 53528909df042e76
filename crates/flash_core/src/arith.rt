// Arithmetic on a stored number.
ghost use Rattle.std.specs.Prelude.{◌≡◌, ℕ, ◌^◌, ◌<◌, ◌≤◌, ◌+◌, List, length, None, IfOk, IfErr, OnOk, OnErr, IsTrue};
ghost use Rattle.std.specs.Option.{ForSome, option_copied};
ghost use Rattle.flash_machine.specs.Cache.{Items};
ghost use Rattle.flash_machine.specs.Looking.{left_to};
ghost use Rattle.flash_machine.specs.Summing.{number_in, changed_number, number_item, sum_created, sum_changed, sum_step};
ghost use Rattle.flash_index.specs.Known.{known_parts, known_item, known_value};
ghost use Rattle.flash_index.specs.Places.{place_of};
ghost use Rattle.flash_calls.specs.Calls.{sum_call};
ghost use Rattle.flash_calls.specs.Store.{Becomes, Stays};
ghost use Rattle.flash_core.specs.Counting.{HasNoNumber, IsChosen, MaySet, answer_with, sum_with};
ghost use Rattle.flash_core.specs.Items.{HasDeadline, known_live};
ghost use Rattle.flash_core.specs.Numbers.{cache_of_items};
ghost use Rattle.flash_core.specs.Sound.{IsNewTold};

use crate::choice::{LAST_NUMBER, deadline_of};
use crate::delete::compare_fails;
use crate::look::{left_of, renewal_is_below, renewed_at};
use crate::noting::{dropped, note_behind};
use crate::numbers::Numbers;
use crate::sought::{is_key, live_parts, seek};
use crate::state::Core;
use crate::store::put_or_drop;
use flash_calls::each_sum_goes_on;
use flash_entry::{Arith, Create, DoneNote, Journal, Note, Sum, Summed};
use flash_items::{Body, Item, Parts};
use flash_names::{Blob, Id, Key, read_number};
use itoa::Buffer;
use std::alloc::{AllocError, Global};

impl<J: Journal> Core<J> {
    /// Adds to the number that the key's item holds, or takes away from it, or answers the first refusal: by the item
    /// that isn't there, the CAS number given, the value that is no number, and the last CAS number. Up it wraps at
    /// 2^64, down it stops at 0. The item holds the number in decimal digits from then on, and its key is at HOT's
    /// front. Where the key has no live item, the one of `ask.create` is stored, if there is one. An item under the key
    /// that is dead, or whose page has ended, is dropped first. Where memory runs out nothing changes. `id` has to be
    /// new: its pass isn't 0, and each step of that pass in the journal has a smaller number, where the journal tells
    /// its entries.
    pub fn arith(&mut self, alloc: Global, id: Id, ask: &Arith) -> Result<Sum, AllocError>
        requires { IsNewTold self.old.told id }
        ensures ok { OnOk result (Becomes self.old (sum_call self.old.cache self.old.desk id ask.now) self.new) }
        ensures answer { IfOk result (λ answer. answer
            ≡ (sum_call self.old.cache self.old.desk id ask.now).answer) }
        ensures err { OnErr result (Stays self.old self.new) }
        ensures ready { IsTrue self.old.ready → IsTrue self.new.ready }
    {
        each_sum_goes_on();
        is_key(&ask.key);
        let sought = seek(&self.index, &self.blocks, &self.numbers, &ask.key);
        let live = live_parts(&self.index, sought);
        let sum = sum_of(alloc, &self.numbers, ask, live)?;
        self.index.reserve_one(alloc)?;
        let did = Note::Did(id, DoneNote::Sum(ask, sum.answer));
        note_behind(&mut self.journal, dropped(&ask.key, sought), did)?;
        put_or_drop(&mut self.index, &mut self.blocks, sought, sum.item);
        self.numbers.last_cas = sum.last_cas;
        Ok(sum.answer)
    }
}

// The answer, the item that is stored if one is, and the last CAS number from then on.
#[derive(Drop)]
pub struct SumChoice {
    pub answer: Sum,
    pub item: Option<Item>,
    pub last_cas: u64,
}

// A number that is to be stored, with the flags and the deadline of its item, and whether the item is new.
#[derive(Clone, Copy)]
pub struct NewNumber {
    pub is_new: bool,
    pub flags: u32,
    pub deadline: Option<u64>,
    pub number: u64,
}

// What arithmetic does, by the live item under its key. It takes the memory of the new value.
fn sum_of(
    alloc: Global,
    numbers: &Numbers,
    ask: &Arith,
    live: Option<&Parts>,
) -> Result<SumChoice, AllocError>
    requires moment { numbers.now.moment ≤ 2 ^ 62 }
    requires deadline { ForSome (option_copied live) (λ parts. HasDeadline parts.deadline) }
    ensures chosen { IfOk result (λ choice. (items : Items) → let c = cache_of_items items numbers.now in
        IsChosen c ask.now.key (sum_step c ask.now (known_live ask.now.key (option_copied live.entry))) choice) }
    ensures sets { MaySet ask.now numbers.now.moment }
    ensures key { IfOk result (λ choice. ForSome choice.item (λ item. item.key ≡ ask.now.key)) }
    ensures fits { IfOk result (λ choice. ForSome choice.item (λ item.
        (length (known_value 0 item.body) ≤ 20) × (place_of item.body ≡ None))) }
{
    sets_within(ask, numbers.moment);
    match new_number(numbers.moment, ask, live) {
        Err(answer) => Ok(refused(numbers, answer)),
        Ok(new) => {
            if numbers.last_cas >= LAST_NUMBER {
                return Ok(refused(numbers, Sum::NoNumber));
            }
            let cas = numbers.last_cas + 1;
            let item = number_item(alloc, &ask.key, numbers.moment, cas, new)?;
            Ok(SumChoice {
                answer: answer_with(numbers.moment, cas, new),
                item: Some(item),
                last_cas: cas,
            })
        }
    }
}

// What arithmetic may set are deadlines below 2^63, and numbers below 2^64. It does nothing.
fn sets_within(ask: &Arith, moment: u64)
    requires { moment ≤ 2 ^ 62 }
    ensures { MaySet ask.now moment }
{
    renewal_is_below(ask.renew, moment);
    if let Some(create) = ask.create {
        let _ = deadline_of(create.exptime, moment);
    }
}

// A refusal stores nothing.
fn refused(numbers: &Numbers, answer: Sum) -> SumChoice
    ensures { result ≡ record { answer = answer; item = None; last_cas = numbers.now.last_cas } }
{
    SumChoice {
        answer,
        item: None,
        last_cas: numbers.last_cas,
    }
}

// The answer with a number that is stored under this CAS number.
fn answer_with(moment: u64, cas: u64, new: NewNumber) -> Sum
    requires { HasDeadline new.deadline }
    ensures { result ≡ answer_with new.is_new (record {
      number = new.number;
      cas = cas;
      left = left_to new.deadline moment;
    }) }
{
    let summed = Summed {
        number: new.number,
        cas,
        left: left_of(new.deadline, moment),
    };
    if new.is_new {
        Sum::Created(summed)
    } else {
        Sum::Now(summed)
    }
}

// The number that is to be stored, or why none is.
fn new_number(moment: u64, ask: &Arith, live: Option<&Parts>) -> Result<NewNumber, Sum>
    requires moment { moment ≤ 2 ^ 62 }
    requires deadline { ForSome (option_copied live) (λ parts. HasDeadline parts.deadline) }
    ensures exact { (items : Items) (numbers : Numbers) → numbers.moment ≡ moment
        → let c = cache_of_items items numbers in sum_with c ask.now.key result
        ≡ sum_step c ask.now (known_live ask.now.key (option_copied live.entry)) }
    ensures below { IfOk result (λ new. HasDeadline new.deadline) }
    ensures refused { IfErr result HasNoNumber }
{
    match live {
        None => first_number(moment, ask.create),
        Some(parts) => {
            if compare_fails(ask.compare, parts.cas) {
                return Err(Sum::Exists);
            }
            next_number(moment, ask, parts)
        }
    }
}

// The number of a new item, where one is to be stored.
fn first_number(moment: u64, create: Option<Create>) -> Result<NewNumber, Sum>
    requires { moment ≤ 2 ^ 62 }
    ensures exact { (items : Items) (numbers : Numbers) (key : List ℕ) → numbers.moment ≡ moment
        → let c = cache_of_items items numbers in sum_with c key result ≡ sum_created c key create }
    ensures below { IfOk result (λ new. HasDeadline new.deadline) }
    ensures refused { IfErr result HasNoNumber }
{
    match create {
        None => Err(Sum::NotFound),
        Some(create) => Ok(NewNumber {
            is_new: true,
            flags: 0,
            deadline: deadline_of(create.exptime, moment),
            number: create.start,
        }),
    }
}

// The number of an item after the change, where it holds one.
fn next_number(moment: u64, ask: &Arith, parts: &Parts) -> Result<NewNumber, Sum>
    requires moment { moment ≤ 2 ^ 62 }
    requires deadline { HasDeadline parts.now.deadline }
    ensures exact { (items : Items) (numbers : Numbers) → numbers.moment ≡ moment
        → let c = cache_of_items items numbers in let item = known_parts (length ask.now.key) parts.now in
        sum_with c ask.now.key result ≡ sum_changed c ask.now item (number_in item) }
    ensures below { IfOk result (λ new. HasDeadline new.deadline) }
    ensures refused { IfErr result HasNoNumber }
{
    match number_in(parts) {
        None => Err(Sum::NonNumeric),
        Some(number) => Ok(NewNumber {
            is_new: false,
            flags: parts.flags,
            deadline: renewed_at(moment, parts.deadline, ask.renew),
            number: changed_number(ask.down, ask.delta, number),
        }),
    }
}

// The number that an item holds: its value is in memory, and is 1 to 20 digits of a number below 2^64.
fn number_in(parts: &Parts) -> Option<u64>
    ensures { (key_length : ℕ) → result ≡ number_in (known_parts key_length parts.now) }
{
    match &parts.body {
        Body::Here(value) => read_number(value.bytes()),
        Body::Away(_) => None,
    }
}

// The number after the change: down it stops at 0, up it wraps at 2^64.
fn changed_number(down: bool, delta: u64, number: u64) -> u64
    ensures { result ≡ changed_number down delta number }
{
    if down {
        number.saturating_sub(delta)
    } else {
        number.wrapping_add(delta)
    }
}

// The item that holds the number in decimal digits, under this CAS number.
fn number_item(
    alloc: Global,
    key: &Key,
    moment: u64,
    cas: u64,
    new: NewNumber,
) -> Result<Item, AllocError>
    ensures key { IfOk result (λ item. item.key ≡ key.now) }
    ensures item { IfOk result (λ item. (items : Items) (numbers : Numbers) → numbers.moment ≡ moment
        → cas ≡ numbers.last_cas + 1
        → known_item item ≡ number_item (cache_of_items items numbers) new.flags new.deadline new.number) }
    ensures fits { IfOk result (λ item. (length (known_value 0 item.body) ≤ 20) × (place_of item.body ≡ None)) }
{
    let digits = Blob::from_slice(alloc, Buffer::new().format(new.number).as_bytes())?;
    Ok(Item {
        key: key.copy(),
        flags: new.flags,
        cas,
        deadline: new.deadline,
        fetched: false,
        access: moment,
        body: Body::Here(digits),
    })
}
