// The fixed words of the journal's text.
ghost use Rattle.std.specs.Prelude.{◌≡◌};
ghost use Rattle.flash_entry.specs.EntryText.{kind_word, mode_word, gone_word, touched_word, direction_word, wanted_word, cause_word, drop_word, end_word};

use crate::{Cause, DropCause, EndCause, Entry, Gone, Mode, Touched};

pub fn kind_text(entry: &Entry) -> &'static [u8]
    ensures { result.now ≡ kind_word entry.now }
{
    match entry {
        Entry::Clock(..) => b"clock",
        Entry::Did(..) => b"did",
        Entry::Looked(..) => b"looked",
        Entry::FromBuffer(..) => b"buffered",
        Entry::ReadBegan(..) => b"read-began",
        Entry::ReadEnded(..) => b"read-ended",
        Entry::Closed(..) => b"closed",
        Entry::Moved(..) => b"moved",
        Entry::Recached(..) => b"recached",
        Entry::Dropped(..) => b"dropped",
        Entry::WriteBegan(..) => b"write-began",
        Entry::WriteEnded(..) => b"write-ended",
        Entry::Opened(..) => b"opened",
        Entry::Ended(..) => b"ended",
        Entry::Freed(..) => b"freed",
    }
}

pub fn mode_text(mode: Mode) -> &'static [u8]
    ensures { result.now ≡ mode_word mode }
{
    match mode {
        Mode::Set => b"set",
        Mode::Add => b"add",
        Mode::Replace => b"replace",
        Mode::Append => b"append",
        Mode::Prepend => b"prepend",
    }
}

pub fn gone_text(answer: Gone) -> &'static [u8]
    ensures { result.now ≡ gone_word answer }
{
    match answer {
        Gone::Deleted => b"deleted",
        Gone::NotFound => b"not-found",
        Gone::Exists => b"exists",
    }
}

pub fn touched_text(answer: Touched) -> &'static [u8]
    ensures { result.now ≡ touched_word answer }
{
    match answer {
        Touched::Touched => b"touched",
        Touched::NotFound => b"not-found",
    }
}

pub fn direction_text(down: bool) -> &'static [u8]
    ensures { result.now ≡ direction_word down }
{
    if down { b"down" } else { b"up" }
}

pub fn wanted_text(value: bool) -> &'static [u8]
    ensures { result.now ≡ wanted_word value }
{
    if value { b"v" } else { b"h" }
}

pub fn cause_text(cause: Cause) -> &'static [u8]
    ensures { result.now ≡ cause_word cause }
{
    match cause {
        Cause::Ended => b"ended",
        Cause::Fault => b"fault",
        Cause::Damaged => b"damaged",
    }
}

pub fn drop_text(cause: DropCause) -> &'static [u8]
    ensures { result.now ≡ drop_word cause }
{
    match cause {
        DropCause::Dead => b"dead",
        DropCause::Evict => b"evict",
        DropCause::Ended => b"ended",
        DropCause::Damaged => b"damaged",
    }
}

pub fn end_text(cause: EndCause) -> &'static [u8]
    ensures { result.now ≡ end_word cause }
{
    match cause {
        EndCause::Compacted => b"compacted",
        EndCause::Evict => b"evict",
        EndCause::Fault => b"fault",
    }
}
