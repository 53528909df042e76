// What a call notes: its entries, and before them the drop of an item that is to be dropped.
ghost use Rattle.std.specs.Prelude.{◌≡◌, ◌∷◌, [], ◌++◌, OnOk, OnErr, IsTrue, IsOk};
ghost use Rattle.flash_names.specs.Told.{with_more};
ghost use Rattle.flash_entry.specs.Noted.{entry_of, entry_if};
ghost use Rattle.flash_core.specs.Noting.{entries_of_sweep};
ghost use Rattle.flash_core.specs.Sought.{cause_sought};

use crate::reading::BufferNotes;
use crate::sought::Sought;
use flash_entry::{Journal, Note};
use flash_names::Key;
use std::alloc::AllocError;

// The note of an item that is dropped, if one is.
pub fn dropped(key: &Key, sought: Sought) -> Option<Note<'_>>
    ensures { entry_if result ≡ entries_of_sweep key.now (cause_sought sought) }
{
    match sought {
        Sought::Leaving(_, cause) => Some(Note::Dropped(key, cause)),
        _ => None,
    }
}

// Notes an entry, and another before it if there is one.
pub fn note_behind<J: Journal>(
    journal: &mut J,
    first: Option<Note<'_>>,
    last: Note<'_>,
) -> Result<(), AllocError>
    ensures noted { OnOk result (J.told journal.new
        ≡ with_more (entry_if first.entry ++ entry_of last.entry ∷ []) (J.told journal.old)) }
    ensures refused { OnErr result (J.told journal.new ≡ J.told journal.old) }
    ensures ready { IsTrue (J.ready journal.old) → IsOk result × IsTrue (J.ready journal.new) }
{
    match first {
        None => journal.note(last, None, None, None),
        Some(first) => journal.note(first, Some(last), None, None),
    }
}

// Notes a lookup, before it a drop if there is one, and behind it what was read from a write buffer.
pub fn note_lookup<J: Journal>(
    journal: &mut J,
    first: Option<Note<'_>>,
    looked: Note<'_>,
    read: BufferNotes<'_>,
) -> Result<(), AllocError>
    ensures noted { OnOk result (J.told journal.new ≡ with_more
        (entry_if first.entry ++ entry_of looked.entry ∷ (entry_if read.entry.from_buffer ++ entry_if read.entry.closed))
        (J.told journal.old)) }
    ensures refused { OnErr result (J.told journal.new ≡ J.told journal.old) }
    ensures ready { IsTrue (J.ready journal.old) → IsOk result × IsTrue (J.ready journal.new) }
{
    match first {
        None => journal.note(looked, read.from_buffer, read.closed, None),
        Some(first) => journal.note(first, Some(looked), read.from_buffer, read.closed),
    }
}
