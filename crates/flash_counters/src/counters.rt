ghost use Rattle.std.specs.Prelude.{◌≡◌, ℕ, List, [], ◌∷◌};
ghost use Rattle.flash_names.specs.declared.place.Id.{Id};
ghost use Rattle.flash_entry.specs.declared.entry.Entry.{Entry};
ghost use Rattle.flash_entry.specs.Noted.{entry_of, entry_if};
ghost use Rattle.flash_counters.specs.Counters.{counters_of, sums};

use flash_entry::{CloseNote, Look, Note, Residence};

/// How often a store did what. Each number goes up to 2^64 - 1 and stays there.
#[derive(Clone, Copy, Debug, PartialEq, Eq)]
pub struct Counters {
    /// The values that were moved from memory to a page.
    pub moved: u64,
    /// The reads of the device that ended, with bytes or failed.
    pub read: u64,
    /// The lookups that were answered with an item.
    pub hits: u64,
    /// The lookups that were answered without one: none was there, or its value was lost.
    pub misses: u64,
}

impl Counters {
    // Those of a journal with no entry.
    pub(crate) fn none() -> Counters
        ensures { result ≡ counters_of [] }
    {
        Counters {
            moved: 0,
            read: 0,
            hits: 0,
            misses: 0,
        }
    }

    // Those after one entry more.
    pub(crate) fn with_note(self, note: &Note<'_>) -> Counters
        ensures { result ≡ sums self (counters_of (entry_of note.now ∷ [])) }
    {
        match note {
            Note::Looked(_, _, look, residence) => self.with_look(*look, *residence),
            Note::ReadEnded(_, _) => self.with_read(),
            Note::Closed(_, CloseNote::Hit(_)) => self.with_hit(),
            Note::Closed(_, CloseNote::Lost(_)) => self.with_miss(),
            Note::Moved(_, _, _) => self.with_move(),
            _ => self,
        }
    }

    // Those after the entry, where there is one.
    pub(crate) fn with_note_if(self, note: &Option<Note<'_>>) -> Counters
        ensures { result ≡ sums self (counters_of (entry_if note.now)) }
    {
        match note {
            None => self,
            Some(note) => self.with_note(note),
        }
    }

    // Those after a lookup. One that opens is counted when it is closed.
    fn with_look(self, look: Look, residence: Residence) -> Counters
        ensures { (id : Id) (key : List ℕ)
            → result ≡ sums self (counters_of (Entry.Looked id key look residence ∷ [])) }
    {
        match residence {
            Residence::Nothing => self.with_miss(),
            Residence::Here(_) => self.with_hit(),
            Residence::Away(_, _) if look.value => self,
            Residence::Away(_, _) => self.with_hit(),
        }
    }

    fn with_move(self) -> Counters
        ensures { result ≡ sums self (record { moved = 1; read = 0; hits = 0; misses = 0 }) }
    {
        Counters {
            moved: self.moved.saturating_add(1),
            ..self
        }
    }

    fn with_read(self) -> Counters
        ensures { result ≡ sums self (record { moved = 0; read = 1; hits = 0; misses = 0 }) }
    {
        Counters {
            read: self.read.saturating_add(1),
            ..self
        }
    }

    fn with_hit(self) -> Counters
        ensures { result ≡ sums self (record { moved = 0; read = 0; hits = 1; misses = 0 }) }
    {
        Counters {
            hits: self.hits.saturating_add(1),
            ..self
        }
    }

    fn with_miss(self) -> Counters
        ensures { result ≡ sums self (record { moved = 0; read = 0; hits = 0; misses = 1 }) }
    {
        Counters {
            misses: self.misses.saturating_add(1),
            ..self
        }
    }
}
