ghost use Rattle.std.specs.Prelude.{◌≡◌, ◌++◌, IfOk, OnOk};
ghost use Rattle.flash_entry.specs.EntryText.{entry_line, entry_rest, done_text, stored_text, summed_text, sum_text, create_text, residence_text, close_text, bytes_text};

use crate::text::Text;
use crate::{
    Arith, Close, Create, Done, Entry, Look, Put, Residence, Stored, Sum, Summed, Tally, words,
};
use flash_names::{Blob, Id, Key, Label, Place};
use std::alloc::{AllocError, Global};

/// The entry's line of the journal, with its line feed.
pub fn print_entry(alloc: Global, entry: &Entry) -> Result<Blob, AllocError>
    ensures { IfOk result (λ line. line ≡ entry_line entry.now) }
{
    let mut line = Text::new(alloc);
    line.push(words::kind_text(entry))?;
    print_rest(&mut line, entry)?;
    line.end_line()?;
    Ok(line.into_blob())
}

fn print_rest(line: &mut Text, entry: &Entry) -> Result<(), AllocError>
    ensures { OnOk result (line.new ≡ line.old ++ entry_rest entry.now) }
{
    match entry {
        Entry::Clock(moment) => line.number(*moment),
        Entry::Did(id, done) => print_did(line, *id, done),
        Entry::Looked(id, key, look, residence) => print_looked(line, *id, key, *look, *residence),
        Entry::FromBuffer(id, place) => {
            line.id(*id)?;
            line.place(*place)
        }
        Entry::ReadBegan(id, place, reader) => print_read_began(line, *id, *place, *reader),
        Entry::ReadEnded(id, bytes) => print_read_ended(line, *id, bytes),
        Entry::Closed(id, close) => print_closed(line, *id, close),
        Entry::Moved(key, cas, label) => print_moved(line, key, *cas, *label),
        Entry::Recached(key, cas) => {
            line.hexadecimal(key.bytes())?;
            line.number(*cas)
        }
        Entry::Dropped(key, cause) => {
            line.hexadecimal(key.bytes())?;
            line.word(words::drop_text(*cause))
        }
        Entry::WriteBegan(place) => line.place(*place),
        Entry::WriteEnded(place, bytes) => {
            line.place(*place)?;
            print_bytes(line, bytes)
        }
        Entry::Opened(label) => line.label(*label),
        Entry::Ended(label, cause) => {
            line.label(*label)?;
            line.word(words::end_text(*cause))
        }
        Entry::Freed(label) => line.label(*label),
    }
}

fn print_did(line: &mut Text, id: Id, done: &Done) -> Result<(), AllocError>
    ensures { OnOk result (line.new ≡ line.old ++ entry_rest (Entry.Did id done.now)) }
{
    line.id(id)?;
    print_done(line, done)
}

fn print_looked(
    line: &mut Text,
    id: Id,
    key: &Key,
    look: Look,
    residence: Residence,
) -> Result<(), AllocError>
    ensures { OnOk result (line.new ≡ line.old ++ entry_rest (Entry.Looked id key.now look residence)) }
{
    line.id(id)?;
    line.hexadecimal(key.bytes())?;
    line.word(words::wanted_text(look.value))?;
    line.signed_if(look.renew)?;
    line.word(b"=")?;
    print_residence(line, residence)
}

fn print_read_began(line: &mut Text, id: Id, place: Place, reader: u32) -> Result<(), AllocError>
    ensures { OnOk result (line.new ≡ line.old ++ entry_rest (Entry.ReadBegan id place reader)) }
{
    line.id(id)?;
    line.place(place)?;
    line.number(u64::from(reader))
}

fn print_read_ended(line: &mut Text, id: Id, bytes: &Option<Blob>) -> Result<(), AllocError>
    ensures { OnOk result (line.new ≡ line.old ++ entry_rest (Entry.ReadEnded id bytes.now)) }
{
    line.id(id)?;
    print_bytes(line, bytes)
}

fn print_closed(line: &mut Text, id: Id, close: &Close) -> Result<(), AllocError>
    ensures { OnOk result (line.new ≡ line.old ++ entry_rest (Entry.Closed id close.now)) }
{
    line.id(id)?;
    print_close(line, close)
}

fn print_moved(line: &mut Text, key: &Key, cas: u64, label: Label) -> Result<(), AllocError>
    ensures { OnOk result (line.new ≡ line.old ++ entry_rest (Entry.Moved key.now cas label)) }
{
    line.hexadecimal(key.bytes())?;
    line.number(cas)?;
    line.label(label)
}

fn print_done(line: &mut Text, done: &Done) -> Result<(), AllocError>
    ensures { OnOk result (line.new ≡ line.old ++ done_text done.now) }
{
    match done {
        Done::Store(put, answer) => print_store(line, put, *answer),
        Done::Delete(key, compare, answer) => {
            line.word(b"delete")?;
            line.hexadecimal(key.bytes())?;
            line.number_if(*compare)?;
            line.word(b"=")?;
            line.word(words::gone_text(*answer))
        }
        Done::Sum(ask, answer) => print_arith(line, ask, *answer),
        Done::Touch(key, exptime, answer) => {
            line.word(b"touch")?;
            line.hexadecimal(key.bytes())?;
            line.signed(*exptime)?;
            line.word(b"=")?;
            line.word(words::touched_text(*answer))
        }
        Done::Flush(delay) => {
            line.word(b"flush")?;
            line.signed(*delay)?;
            line.word(b"=")?;
            line.word(b"ok")
        }
        Done::Stats(tally) => print_stats(line, *tally),
    }
}

fn print_store(line: &mut Text, put: &Put, answer: Stored) -> Result<(), AllocError>
    ensures { OnOk result (line.new ≡ line.old ++ done_text (Done.Store put.now answer)) }
{
    line.word(words::mode_text(put.mode))?;
    line.hexadecimal(put.key.bytes())?;
    line.number(u64::from(put.flags))?;
    line.signed(put.exptime)?;
    line.number_if(put.compare)?;
    line.hexadecimal(put.value.bytes())?;
    line.word(b"=")?;
    print_stored(line, answer)
}

fn print_stored(line: &mut Text, answer: Stored) -> Result<(), AllocError>
    ensures { OnOk result (line.new ≡ line.old ++ stored_text answer) }
{
    match answer {
        Stored::Stored(cas) => {
            line.word(b"stored")?;
            line.number(cas)
        }
        Stored::NotStored => line.word(b"not-stored"),
        Stored::Exists => line.word(b"exists"),
        Stored::NotFound => line.word(b"not-found"),
        Stored::TooLarge => line.word(b"too-large"),
        Stored::NoNumber => line.word(b"no-number"),
    }
}

fn print_arith(line: &mut Text, ask: &Arith, answer: Sum) -> Result<(), AllocError>
    ensures { OnOk result (line.new ≡ line.old ++ done_text (Done.Sum ask.now answer)) }
{
    line.word(words::direction_text(ask.down))?;
    line.hexadecimal(ask.key.bytes())?;
    line.number(ask.delta)?;
    line.number_if(ask.compare)?;
    line.signed_if(ask.renew)?;
    print_create(line, ask.create)?;
    line.word(b"=")?;
    print_sum(line, answer)
}

fn print_create(line: &mut Text, create: Option<Create>) -> Result<(), AllocError>
    ensures { OnOk result (line.new ≡ line.old ++ create_text create) }
{
    match create {
        None => {
            line.word(b"-")?;
            line.word(b"-")
        }
        Some(create) => {
            line.signed(create.exptime)?;
            line.number(create.start)
        }
    }
}

fn print_sum(line: &mut Text, answer: Sum) -> Result<(), AllocError>
    ensures { OnOk result (line.new ≡ line.old ++ sum_text answer) }
{
    match answer {
        Sum::Now(summed) => {
            line.word(b"now")?;
            print_summed(line, summed)
        }
        Sum::Created(summed) => {
            line.word(b"created")?;
            print_summed(line, summed)
        }
        Sum::NotFound => line.word(b"not-found"),
        Sum::NonNumeric => line.word(b"non-numeric"),
        Sum::Exists => line.word(b"exists"),
        Sum::NoNumber => line.word(b"no-number"),
    }
}

fn print_summed(line: &mut Text, summed: Summed) -> Result<(), AllocError>
    ensures { OnOk result (line.new ≡ line.old ++ summed_text summed) }
{
    line.number(summed.number)?;
    line.number(summed.cas)?;
    line.signed(summed.left)
}

fn print_stats(line: &mut Text, tally: Tally) -> Result<(), AllocError>
    ensures { OnOk result (line.new ≡ line.old ++ done_text (Done.Stats tally)) }
{
    line.word(b"stats")?;
    line.word(b"=")?;
    line.number(tally.items)?;
    line.number(tally.load)?;
    line.number(tally.last_cas)?;
    line.number(tally.now)?;
    line.number(tally.free_pages)
}

fn print_residence(line: &mut Text, residence: Residence) -> Result<(), AllocError>
    ensures { OnOk result (line.new ≡ line.old ++ residence_text residence) }
{
    match residence {
        Residence::Nothing => line.word(b"none"),
        Residence::Here(cas) => {
            line.number(cas)?;
            line.word(b"here")
        }
        Residence::Away(cas, label) => {
            line.number(cas)?;
            line.label(label)
        }
    }
}

fn print_close(line: &mut Text, close: &Close) -> Result<(), AllocError>
    ensures { OnOk result (line.new ≡ line.old ++ close_text close.now) }
{
    match close {
        Close::Hit(flags, cas, value) => {
            line.word(b"hit")?;
            line.number(u64::from(*flags))?;
            line.number(*cas)?;
            line.hexadecimal(value.bytes())
        }
        Close::Lost(cause) => {
            line.word(b"lost")?;
            line.word(words::cause_text(*cause))
        }
    }
}

fn print_bytes(line: &mut Text, bytes: &Option<Blob>) -> Result<(), AllocError>
    ensures { OnOk result (line.new ≡ line.old ++ bytes_text bytes.now) }
{
    match bytes {
        None => line.word(b"failed"),
        Some(bytes) => line.hexadecimal(bytes.bytes()),
    }
}
