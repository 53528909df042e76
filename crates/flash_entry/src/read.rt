ghost use Rattle.std.specs.Prelude.{◌≡◌, ◌≢◌, IfOk, IfErr, Ok, Err};
ghost use Rattle.flash_entry.specs.declared.entry_fault.EntryFault.TheVariants.{NoMemory};
ghost use Rattle.flash_entry.specs.Readings.{Reads, ReadsInMemory};
ghost use Rattle.flash_entry.specs.EntryReading as forms;
ghost use Rattle.flash_entry.specs.EntryReading.{reading};
ghost use Rattle.flash_entry.specs.IsEntry.{IsEntry};

use crate::cursor::Cursor;
use crate::kinds::{ItemKind, Kind, LookupKind, PageKind, StepKind};
use crate::read_step::step;
use crate::{Close, Entry, EntryFault, Look, Residence};
use flash_names::Label;
use std::alloc::Global;

/// Reads a line of the journal, which comes without its line feed.
///
/// It is an entry exactly where it is the entry's line: `print_entry` prints it again, byte by byte. Else the first
/// word that breaks the line's form decides the fault.
#[tactic(auto, unfolding(crate::specs::EntryReading::reading))]
pub fn read_entry(alloc: Global, line: &[u8]) -> Result<Entry, EntryFault>
    ensures entry { IfOk result (λ entry. reading line.now ≡ Ok entry) }
    ensures fits { IfOk result IsEntry }
    ensures fault { IfErr result (λ fault. fault ≢ NoMemory → reading line.now ≡ Err fault) }
{
    whole(alloc, &mut Cursor::new(line))
}

#[tactic(auto, unfolding(crate::specs::EntryReading::whole))]
fn whole(alloc: Global, words: &mut Cursor<'_>) -> Result<Entry, EntryFault>
    ensures { ReadsInMemory (forms.whole words.old) result words.new }
{
    let kind = words.kind()?;
    let entry = of_kind(alloc, words, kind)?;
    words.end_of_line()?;
    Ok(entry)
}

#[tactic(auto, unfolding(crate::specs::EntryReading::of_kind))]
fn of_kind(alloc: Global, words: &mut Cursor<'_>, kind: Kind) -> Result<Entry, EntryFault>
    ensures { ReadsInMemory (forms.of_kind kind words.old) result words.new }
{
    match kind {
        Kind::Step(kind) => of_step(alloc, words, kind),
        Kind::Lookup(kind) => of_lookup(alloc, words, kind),
        Kind::Item(kind) => of_item(words, kind),
        Kind::Page(kind) => of_page(alloc, words, kind),
    }
}

#[tactic(auto, unfolding(crate::specs::EntryReading::of_step))]
fn of_step(alloc: Global, words: &mut Cursor<'_>, kind: StepKind) -> Result<Entry, EntryFault>
    ensures { ReadsInMemory (forms.of_step kind words.old) result words.new }
{
    match kind {
        StepKind::Clock => clock(words),
        StepKind::Did => did(alloc, words),
    }
}

#[tactic(auto, unfolding(crate::specs::EntryReading::of_lookup))]
fn of_lookup(alloc: Global, words: &mut Cursor<'_>, kind: LookupKind) -> Result<Entry, EntryFault>
    ensures { ReadsInMemory (forms.of_lookup kind words.old) result words.new }
{
    match kind {
        LookupKind::Looked => looked(words),
        LookupKind::FromBuffer => buffered(words),
        LookupKind::ReadBegan => read_began(words),
        LookupKind::ReadEnded => read_ended(alloc, words),
        LookupKind::Closed => closed(alloc, words),
    }
}

#[tactic(auto, unfolding(crate::specs::EntryReading::of_item))]
fn of_item(words: &mut Cursor<'_>, kind: ItemKind) -> Result<Entry, EntryFault>
    ensures { Reads (forms.of_item kind words.old) result words.new }
{
    match kind {
        ItemKind::Moved => moved(words),
        ItemKind::Recached => recached(words),
        ItemKind::Dropped => dropped(words),
    }
}

#[tactic(auto, unfolding(crate::specs::EntryReading::of_page))]
fn of_page(alloc: Global, words: &mut Cursor<'_>, kind: PageKind) -> Result<Entry, EntryFault>
    ensures { ReadsInMemory (forms.of_page kind words.old) result words.new }
{
    match kind {
        PageKind::WriteBegan => write_began(words),
        PageKind::WriteEnded => write_ended(alloc, words),
        PageKind::Opened => opened(words),
        PageKind::Ended => ended(words),
        PageKind::Freed => freed(words),
    }
}

#[tactic(auto, unfolding(crate::specs::EntryReading::clock))]
fn clock(words: &mut Cursor<'_>) -> Result<Entry, EntryFault>
    ensures { Reads (forms.clock words.old) result words.new }
{
    Ok(Entry::Clock(words.number()?))
}

#[tactic(auto, unfolding(crate::specs::EntryReading::did))]
fn did(alloc: Global, words: &mut Cursor<'_>) -> Result<Entry, EntryFault>
    ensures { ReadsInMemory (forms.did words.old) result words.new }
{
    Ok(Entry::Did(words.id()?, step(alloc, words)?))
}

#[tactic(auto, unfolding(crate::specs::EntryReading::looked))]
fn looked(words: &mut Cursor<'_>) -> Result<Entry, EntryFault>
    ensures { Reads (forms.looked words.old) result words.new }
{
    let id = words.id()?;
    let key = words.key()?;
    let look = Look {
        value: words.wanted()?,
        renew: words.signed_if()?,
    };
    words.equality()?;
    Ok(Entry::Looked(id, key, look, residence(words)?))
}

#[tactic(auto, unfolding(crate::specs::EntryReading::residence, crate::specs::EntryReading::residence_of))]
fn residence(words: &mut Cursor<'_>) -> Result<Residence, EntryFault>
    ensures { Reads (forms.residence words.old) result words.new }
{
    let Some(cas) = words.number_or_none()? else {
        return Ok(Residence::Nothing);
    };
    let Some(page) = words.narrow_or_here()? else {
        return Ok(Residence::Here(cas));
    };
    let version = words.number()?;
    Ok(Residence::Away(cas, Label { page, version }))
}

#[tactic(auto, unfolding(crate::specs::EntryReading::buffered))]
fn buffered(words: &mut Cursor<'_>) -> Result<Entry, EntryFault>
    ensures { Reads (forms.buffered words.old) result words.new }
{
    Ok(Entry::FromBuffer(words.id()?, words.place()?))
}

#[tactic(auto, unfolding(crate::specs::EntryReading::read_began))]
fn read_began(words: &mut Cursor<'_>) -> Result<Entry, EntryFault>
    ensures { Reads (forms.read_began words.old) result words.new }
{
    Ok(Entry::ReadBegan(words.id()?, words.place()?, words.narrow()?))
}

#[tactic(auto, unfolding(crate::specs::EntryReading::read_ended))]
fn read_ended(alloc: Global, words: &mut Cursor<'_>) -> Result<Entry, EntryFault>
    ensures { ReadsInMemory (forms.read_ended words.old) result words.new }
{
    Ok(Entry::ReadEnded(words.id()?, words.bytes_or_failed(alloc)?))
}

#[tactic(auto, unfolding(crate::specs::EntryReading::closed))]
fn closed(alloc: Global, words: &mut Cursor<'_>) -> Result<Entry, EntryFault>
    ensures { ReadsInMemory (forms.closed words.old) result words.new }
{
    Ok(Entry::Closed(words.id()?, close(alloc, words)?))
}

#[tactic(auto, unfolding(crate::specs::EntryReading::close, crate::specs::EntryReading::close_of))]
fn close(alloc: Global, words: &mut Cursor<'_>) -> Result<Close, EntryFault>
    ensures { ReadsInMemory (forms.close words.old) result words.new }
{
    let word = words.word()?;
    if word == b"hit".as_slice() {
        hit(alloc, words)
    } else if word == b"lost".as_slice() {
        lost(words)
    } else {
        Err(words.bad_word())
    }
}

#[tactic(auto, unfolding(crate::specs::EntryReading::hit))]
fn hit(alloc: Global, words: &mut Cursor<'_>) -> Result<Close, EntryFault>
    ensures { ReadsInMemory (forms.hit words.old) result words.new }
{
    Ok(Close::Hit(words.narrow()?, words.number()?, words.value(alloc)?))
}

#[tactic(auto, unfolding(crate::specs::EntryReading::lost))]
fn lost(words: &mut Cursor<'_>) -> Result<Close, EntryFault>
    ensures { Reads (forms.lost words.old) result words.new }
{
    Ok(Close::Lost(words.cause()?))
}

#[tactic(auto, unfolding(crate::specs::EntryReading::moved))]
fn moved(words: &mut Cursor<'_>) -> Result<Entry, EntryFault>
    ensures { Reads (forms.moved words.old) result words.new }
{
    Ok(Entry::Moved(words.key()?, words.number()?, words.label()?))
}

#[tactic(auto, unfolding(crate::specs::EntryReading::recached))]
fn recached(words: &mut Cursor<'_>) -> Result<Entry, EntryFault>
    ensures { Reads (forms.recached words.old) result words.new }
{
    Ok(Entry::Recached(words.key()?, words.number()?))
}

#[tactic(auto, unfolding(crate::specs::EntryReading::dropped))]
fn dropped(words: &mut Cursor<'_>) -> Result<Entry, EntryFault>
    ensures { Reads (forms.dropped words.old) result words.new }
{
    Ok(Entry::Dropped(words.key()?, words.drop_cause()?))
}

#[tactic(auto, unfolding(crate::specs::EntryReading::write_began))]
fn write_began(words: &mut Cursor<'_>) -> Result<Entry, EntryFault>
    ensures { Reads (forms.write_began words.old) result words.new }
{
    Ok(Entry::WriteBegan(words.place()?))
}

#[tactic(auto, unfolding(crate::specs::EntryReading::write_ended))]
fn write_ended(alloc: Global, words: &mut Cursor<'_>) -> Result<Entry, EntryFault>
    ensures { ReadsInMemory (forms.write_ended words.old) result words.new }
{
    Ok(Entry::WriteEnded(words.place()?, words.bytes_or_failed(alloc)?))
}

#[tactic(auto, unfolding(crate::specs::EntryReading::opened))]
fn opened(words: &mut Cursor<'_>) -> Result<Entry, EntryFault>
    ensures { Reads (forms.opened words.old) result words.new }
{
    Ok(Entry::Opened(words.label()?))
}

#[tactic(auto, unfolding(crate::specs::EntryReading::ended))]
fn ended(words: &mut Cursor<'_>) -> Result<Entry, EntryFault>
    ensures { Reads (forms.ended words.old) result words.new }
{
    Ok(Entry::Ended(words.label()?, words.end_cause()?))
}

#[tactic(auto, unfolding(crate::specs::EntryReading::freed))]
fn freed(words: &mut Cursor<'_>) -> Result<Entry, EntryFault>
    ensures { Reads (forms.freed words.old) result words.new }
{
    Ok(Entry::Freed(words.label()?))
}
