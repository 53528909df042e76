// What a trace writes.
ghost use Rattle.std.specs.Prelude.{◌≡◌, ◌++◌, ◌≤◌, length, decimal, IfOk, OnOk};
ghost use Rattle.std.specs.Option.{option_map};
ghost use Rattle.std.specs.List.{flat_map};
ghost use Rattle.flash_entry.specs.EntryText.{entry_line};
ghost use Rattle.flash_trace.specs.Output.{fault_text, journal_if, journal_text, play_text, session_text, sessions_text, why_text};
ghost use Rattle.flash_trace.specs.Seats.{shown};

use crate::play::Play;
use flash_entry::{Entry, print_entry};
use flash_script::{ScriptFault, Why};
use flash_seats::Seat;
use itoa::Buffer;
use std::alloc::{AllocError, Global};

/// The output of a trace that ran: the printed lines, each session's replies, with `with_journal` the journal
/// after the script's first line, and the number of steps.
pub fn play_output(
    alloc: Global,
    play: &Play,
    with_journal: bool,
    first_line: &[u8],
    journal: &[Entry],
    steps: usize,
) -> Result<Vec<u8>, AllocError>
    ensures { IfOk result (λ out. out.items
        ≡ play_text play.now.printed.items (shown play.now.seats.items)
        (journal_if with_journal first_line.now journal.now) steps) }
{
    let mut out = play.printed.to_vec(alloc)?;
    push_sessions(&mut out, &play.seats)?;
    if with_journal {
        push_journal(alloc, &mut out, first_line, journal)?;
    }
    out.extend_from_slice(b"end ")?;
    push_number(&mut out, steps as u64)?;
    out.extend_from_slice(b"\n")?;
    Ok(out)
}

fn push_sessions(out: &mut Vec<u8>, seats: &[Option<Seat>]) -> Result<(), AllocError>
    ensures { OnOk result (out.new.items ≡ out.old.items ++ sessions_text 1 (shown seats.now)) }
{
    let mut number = 0u64;
    'seats: for seat in seats {
        number += 1;
        push_session(out, number, seat)?;
    }
    Ok(())
}

fn push_session(out: &mut Vec<u8>, number: u64, seat: &Option<Seat>) -> Result<(), AllocError>
    ensures { OnOk result (out.new.items ≡ out.old.items ++ session_text number (option_map (λ seat. seat.replies.items) seat.now)) }
{
    let Some(seat) = seat else {
        return Ok(());
    };
    out.extend_from_slice(b"session ")?;
    push_number(out, number)?;
    out.extend_from_slice(b" ")?;
    push_number(out, seat.replies().len() as u64)?;
    out.extend_from_slice(b"\n")?;
    out.extend_from_slice(seat.replies())?;
    out.extend_from_slice(b"\n")
}

fn push_journal(
    alloc: Global,
    out: &mut Vec<u8>,
    first_line: &[u8],
    journal: &[Entry],
) -> Result<(), AllocError>
    ensures { OnOk result (out.new.items ≡ out.old.items ++ journal_text first_line.now journal.now) }
{
    out.extend_from_slice(b"journal ")?;
    push_number(out, journal.len() as u64)?;
    out.extend_from_slice(b"\n")?;
    out.extend_from_slice(first_line)?;
    push_entries(alloc, out, journal)
}

fn push_entries(alloc: Global, out: &mut Vec<u8>, journal: &[Entry]) -> Result<(), AllocError>
    ensures { OnOk result (out.new.items ≡ out.old.items ++ flat_map entry_line journal.now) }
{
    'entries: for entry in journal {
        out.extend_from_slice(print_entry(alloc, entry)?.bytes())?;
    }
    Ok(())
}

/// The output of a script that has a bad line.
pub fn fault_output(alloc: Global, fault: ScriptFault) -> Result<Vec<u8>, AllocError>
    ensures { IfOk result (λ out. out.items ≡ fault_text fault) }
{
    let mut out = b"script ".to_vec(alloc)?;
    push_number(&mut out, u64::from(fault.line))?;
    out.extend_from_slice(b" ")?;
    push_why(&mut out, fault.why)?;
    out.extend_from_slice(b"\n")?;
    Ok(out)
}

fn push_why(out: &mut Vec<u8>, why: Why) -> Result<(), AllocError>
    ensures { OnOk result (out.new.items ≡ out.old.items ++ why_text why) }
{
    match why {
        Why::BadWord => out.extend_from_slice(b"bad-word"),
        Why::BadNumber => out.extend_from_slice(b"bad-number"),
        Why::Geometry(rule) => {
            out.extend_from_slice(b"geometry-")?;
            push_number(out, u64::from(rule))
        }
        Why::Short => out.extend_from_slice(b"short"),
        Why::TooLong => out.extend_from_slice(b"too-long"),
    }
}

fn push_number(out: &mut Vec<u8>, number: u64) -> Result<(), AllocError>
    ensures { OnOk result (out.new.items ≡ out.old.items ++ decimal number) }
{
    out.extend_from_slice(Buffer::new().format(number).as_bytes())
}
