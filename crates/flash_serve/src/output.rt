// What a server writes.
ghost use Rattle.std.specs.Prelude.{◌≡◌, ◌++◌, decimal, IfOk, OnOk};
ghost use Rattle.std.specs.List.{flat_map};
ghost use Rattle.std.specs.Option.{option_map};
ghost use Rattle.flash_entry.specs.EntryText.{entry_line};
ghost use Rattle.flash_serve.specs.Output.{IsClosing, counters_text, journal_if, journal_lines, listening_text};

use crate::kept::Recorded;
use flash_core::Core;
use flash_counters::{Counters, Counting};
use flash_entry::{Entry, print_entry, print_head};
use flash_names::Geometry;
use itoa::Buffer;
use std::alloc::{AllocError, Global};

/// The line of the port that a server listens on.
pub fn listening_line(alloc: Global, port: u16) -> Result<Vec<u8>, AllocError>
    ensures { IfOk result (λ line. line.items ≡ listening_text port) }
{
    let mut line = b"listening ".to_vec(alloc)?;
    push_number(&mut line, u64::from(port))?;
    line.extend_from_slice(b"\n")?;
    Ok(line)
}

/// What a server writes at its end: the counters, and the journal where it is kept.
pub fn closing_output<J: Recorded>(
    alloc: Global,
    core: &Core<Counting<J>>,
) -> Result<Vec<u8>, AllocError>
    ensures { IfOk result (λ out. IsClosing core.now.geometry core.now.told out.items) }
{
    let counting = core.journal();
    let geometry = core.geometry();
    output_of(
        alloc,
        counting.counters(),
        &geometry,
        counting.journal().entries_kept(),
    )
}

// The counters, and these entries, where there are some.
fn output_of(
    alloc: Global,
    counters: Counters,
    geometry: &Geometry,
    kept: Option<&[Entry]>,
) -> Result<Vec<u8>, AllocError>
    ensures { IfOk result (λ out. out.items
        ≡ counters_text counters ++ journal_if geometry.now (option_map (λ entries. entries.now) kept.entry)) }
{
    let mut out = Vec::new(alloc);
    push_counters(&mut out, counters)?;
    if let Some(journal) = kept {
        let first_line = print_head(alloc, geometry)?;
        push_journal(alloc, &mut out, first_line.bytes(), journal)?;
    }
    Ok(out)
}

fn push_counters(out: &mut Vec<u8>, counters: Counters) -> Result<(), AllocError>
    ensures { OnOk result (out.new.items ≡ out.old.items ++ counters_text counters) }
{
    out.extend_from_slice(b"moved ")?;
    push_number(out, counters.moved)?;
    out.extend_from_slice(b" read ")?;
    push_number(out, counters.read)?;
    out.extend_from_slice(b" hits ")?;
    push_number(out, counters.hits)?;
    out.extend_from_slice(b" misses ")?;
    push_number(out, counters.misses)?;
    out.extend_from_slice(b"\n")
}

fn push_journal(
    alloc: Global,
    out: &mut Vec<u8>,
    first_line: &[u8],
    journal: &[Entry],
) -> Result<(), AllocError>
    ensures { OnOk result (out.new.items ≡ out.old.items ++ journal_lines first_line.now journal.now) }
{
    out.extend_from_slice(b"journal ")?;
    push_number(out, journal.len() as u64)?;
    out.extend_from_slice(b"\n")?;
    out.extend_from_slice(first_line)?;
    push_entries(alloc, out, journal)
}

fn push_entries(alloc: Global, out: &mut Vec<u8>, journal: &[Entry]) -> Result<(), AllocError>
    ensures { OnOk result (out.new.items ≡ out.old.items ++ flat_map entry_line journal.now) }
{
    'entries: for entry in journal {
        out.extend_from_slice(print_entry(alloc, entry)?.bytes())?;
    }
    Ok(())
}

fn push_number(out: &mut Vec<u8>, number: u64) -> Result<(), AllocError>
    ensures { OnOk result (out.new.items ≡ out.old.items ++ decimal number) }
{
    out.extend_from_slice(Buffer::new().format(number).as_bytes())
}
