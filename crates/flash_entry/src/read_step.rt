// The readings of a command's steps and their answers.
ghost use Rattle.flash_entry.specs.Readings.{Reads, ReadsInMemory};
ghost use Rattle.flash_entry.specs.EntryReading as forms;

use crate::cursor::Cursor;
use crate::kinds::Verb;
use crate::{Arith, Create, Done, EntryFault, Mode, Put, Stored, Sum, Summed, Tally, fixed};
use std::alloc::Global;

#[tactic(auto, unfolding(crate::specs::EntryReading::step, crate::specs::EntryReading::step_of))]
pub fn step(alloc: Global, words: &mut Cursor<'_>) -> Result<Done, EntryFault>
    ensures { ReadsInMemory (forms.step words.old) result words.new }
{
    match words.verb()? {
        Verb::Store(mode) => store(alloc, words, mode),
        Verb::Delete => delete(words),
        Verb::Sum(down) => arithmetic(words, down),
        Verb::Touch => touch(words),
        Verb::Flush => flush(words),
        Verb::Stats => stats(words),
    }
}

#[tactic(auto, unfolding(crate::specs::EntryReading::store))]
fn store(alloc: Global, words: &mut Cursor<'_>, mode: Mode) -> Result<Done, EntryFault>
    ensures { ReadsInMemory (forms.store mode words.old) result words.new }
{
    let put = Put {
        key: words.key()?,
        mode,
        flags: words.narrow()?,
        exptime: words.signed()?,
        compare: words.number_if()?,
        value: words.value(alloc)?,
    };
    words.equality()?;
    Ok(Done::Store(put, stored(words)?))
}

#[tactic(auto, unfolding(crate::specs::EntryReading::stored, crate::specs::EntryReading::stored_of))]
fn stored(words: &mut Cursor<'_>) -> Result<Stored, EntryFault>
    ensures { Reads (forms.stored words.old) result words.new }
{
    let word = words.word()?;
    if word == b"stored".as_slice() {
        return Ok(Stored::Stored(words.number()?));
    }
    fixed::refusal(word).ok_or(words.bad_word())
}

#[tactic(auto, unfolding(crate::specs::EntryReading::delete))]
fn delete(words: &mut Cursor<'_>) -> Result<Done, EntryFault>
    ensures { Reads (forms.delete words.old) result words.new }
{
    let key = words.key()?;
    let compare = words.number_if()?;
    words.equality()?;
    Ok(Done::Delete(key, compare, words.gone()?))
}

#[tactic(auto, unfolding(crate::specs::EntryReading::arithmetic))]
fn arithmetic(words: &mut Cursor<'_>, down: bool) -> Result<Done, EntryFault>
    ensures { Reads (forms.arithmetic down words.old) result words.new }
{
    let ask = Arith {
        key: words.key()?,
        down,
        delta: words.number()?,
        compare: words.number_if()?,
        renew: words.signed_if()?,
        create: create_if(words)?,
    };
    words.equality()?;
    Ok(Done::Sum(ask, sum(words)?))
}

#[tactic(auto, unfolding(crate::specs::EntryReading::create_if, crate::specs::EntryReading::create_of))]
fn create_if(words: &mut Cursor<'_>) -> Result<Option<Create>, EntryFault>
    ensures { Reads (forms.create_if words.old) result words.new }
{
    let Some(exptime) = words.signed_if()? else {
        words.dash()?;
        return Ok(None);
    };
    let start = words.number()?;
    Ok(Some(Create { exptime, start }))
}

#[tactic(auto, unfolding(crate::specs::EntryReading::sum, crate::specs::EntryReading::sum_of))]
fn sum(words: &mut Cursor<'_>) -> Result<Sum, EntryFault>
    ensures { Reads (forms.sum words.old) result words.new }
{
    let word = words.word()?;
    if word == b"now".as_slice() {
        return Ok(Sum::Now(summed(words)?));
    }
    if word == b"created".as_slice() {
        return Ok(Sum::Created(summed(words)?));
    }
    fixed::sum_refusal(word).ok_or(words.bad_word())
}

#[tactic(auto, unfolding(crate::specs::EntryReading::summed))]
fn summed(words: &mut Cursor<'_>) -> Result<Summed, EntryFault>
    ensures { Reads (forms.summed words.old) result words.new }
{
    Ok(Summed {
        number: words.number()?,
        cas: words.number()?,
        left: words.signed()?,
    })
}

#[tactic(auto, unfolding(crate::specs::EntryReading::touch))]
fn touch(words: &mut Cursor<'_>) -> Result<Done, EntryFault>
    ensures { Reads (forms.touch words.old) result words.new }
{
    let key = words.key()?;
    let exptime = words.signed()?;
    words.equality()?;
    Ok(Done::Touch(key, exptime, words.touched()?))
}

#[tactic(auto, unfolding(crate::specs::EntryReading::flush))]
fn flush(words: &mut Cursor<'_>) -> Result<Done, EntryFault>
    ensures { Reads (forms.flush words.old) result words.new }
{
    let delay = words.signed()?;
    words.equality()?;
    words.done()?;
    Ok(Done::Flush(delay))
}

#[tactic(auto, unfolding(crate::specs::EntryReading::stats))]
fn stats(words: &mut Cursor<'_>) -> Result<Done, EntryFault>
    ensures { Reads (forms.stats words.old) result words.new }
{
    words.equality()?;
    Ok(Done::Stats(Tally {
        items: words.number()?,
        load: words.number()?,
        last_cas: words.number()?,
        now: words.number()?,
        free_pages: words.number()?,
    }))
}
