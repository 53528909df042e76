// The answer on the bytes of a journal.
ghost use Rattle.std.specs.Prelude.{◌≡◌, ◌≤◌, List, [], Ok, length, IfOk, OnOk};
ghost use Rattle.flash_names.specs.declared.geometry.Geometry.{Geometry};
ghost use Rattle.flash_names.specs.Geometry.{check_result};
ghost use Rattle.flash_entry.specs.declared.entry.Entry.{Entry};
ghost use Rattle.flash_machine.specs.Stands.{StandsFor};
ghost use Rattle.flash_streams.specs.Lines.{lines_of};
ghost use Rattle.flash_check.specs.LineVerdicts.{line_verdict, StandsWith};
ghost use Rattle.flash_check.specs.Verdicts.{verdict_on, entries_verdict};

use crate::status::{CheckStatus, MAX_BYTES};
use flash_entry::{EntryFault, read_entry, read_head};
use flash_machine::{Machine, Verdict};
use flash_names::{Geometry, cut_at_byte};
use std::alloc::{AllocError, Global};

/// What a checker answers on all the bytes of a journal.
pub fn check_bytes(alloc: Global, bytes: &[u8]) -> Result<CheckStatus, AllocError>
    ensures { IfOk result (λ status. status ≡ verdict_on bytes.now) }
{
    if bytes.len() > MAX_BYTES {
        return Ok(CheckStatus::BadLine(0));
    }
    let Some((first_line, rest)) = cut_at_byte(b'\n', bytes) else {
        return Ok(CheckStatus::BadLine(1));
    };
    let Ok(geometry) = read_head(first_line) else {
        return Ok(CheckStatus::BadLine(1));
    };
    check_entries(alloc, geometry, rest)
}

// The answer on the lines of the entries of a journal.
fn check_entries(alloc: Global, geometry: Geometry, bytes: &[u8]) -> Result<CheckStatus, AllocError>
    requires rules { check_result geometry ≡ Ok tt }
    requires small { length bytes.now ≤ MAX_BYTES }
    ensures { IfOk result (λ status. status
        ≡ entries_verdict geometry [] (lines_of bytes.now).whole (lines_of bytes.now).rest) }
{
    let mut machine = Machine::first(alloc, geometry);
    let mut entries = 0u32;
    let mut left = bytes;
    'lines: while !left.is_empty() {
        let line_number = entries + 2;
        let Some((line, rest)) = cut_at_byte(b'\n', left) else {
            return Ok(CheckStatus::BadLine(line_number));
        };
        match check_line(alloc, &mut machine, line)? {
            Some(Verdict::Legal) => {}
            Some(Verdict::Illegal(rule)) => return Ok(CheckStatus::Illegal {
                line: line_number,
                rule,
            }),
            None => return Ok(CheckStatus::BadLine(line_number)),
        }
        entries += 1;
        left = rest;
    }
    Ok(CheckStatus::Legal(entries))
}

// The verdict on the entry of a line after a journal for which the machine stands, or `None` where the line is none.
fn check_line(
    alloc: Global,
    machine: &mut Machine,
    line: &[u8],
) -> Result<Option<Verdict>, AllocError>
    ensures verdict { IfOk result (λ verdict. (g : Geometry) (h : List Entry) → StandsFor machine.old g h
        → verdict ≡ line_verdict g h line.now) }
    ensures legal { OnOk result ((g : Geometry) (h : List Entry) → StandsFor machine.old g h
        → StandsWith machine.new g h line.now) }
{
    match read_entry(alloc, line) {
        Ok(entry) => Ok(Some(machine.step(alloc, &entry)?)),
        Err(EntryFault::NoMemory) => Err(AllocError),
        Err(_) => Ok(None),
    }
}
