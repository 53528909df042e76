ghost use Rattle.std.specs.Prelude.{◌≡◌, [], OnOk, OnErr, IsTrue, IsOk};
ghost use Rattle.std.specs.Option.{ForSome};
ghost use Rattle.flash_names.specs.Told.{with_more};
ghost use Rattle.flash_entry.specs.Noted.{entries_of_notes};
ghost use Rattle.flash_counters.specs.Counters.{counters_of, sums};

use crate::Counters;
use flash_entry::{Journal, Note};
use std::alloc::AllocError;

/// A journal around another one, which counts the entries that the other one took.
#[derive(Debug, Drop)]
pub struct Counting<J: Journal> {
    journal: J,
    counters: Counters,
    ghost counted: { ForSome (J.told journal) (λ entries. counters ≡ counters_of entries) },
}

impl<J: Journal> Counting<J> {
    /// A journal around one that has no entry, if it tells them. Nothing is counted yet.
    pub fn new(journal: J) -> Counting<J>
        requires { ForSome (J.told journal) (λ entries. entries ≡ []) }
        ensures journal { result.journal ≡ journal }
        ensures counters { result.counters ≡ counters_of [] }
    {
        Counting {
            journal,
            counters: Counters::none(),
        }
    }

    /// What was counted. Where the journal tells its entries, these are the counters of its entries.
    pub fn counters(&self) -> Counters
        ensures exact { result ≡ self.now.counters }
        ensures told { ForSome (J.told self.now.journal) (λ entries. result ≡ counters_of entries) }
    {
        self.counters
    }

    /// The journal inside.
    pub fn journal(&self) -> &J
        ensures { result.now ≡ self.now.journal }
    {
        &self.journal
    }

    /// The journal inside, without the counters.
    pub fn into_journal(self) -> J
        ensures { result ≡ self.journal }
    {
        self.journal
    }
}

impl<J: Journal> Journal for Counting<J> {
    ghost told = { λ c. J.told c.journal };

    ghost ready = { λ c. J.ready c.journal };

    ghost always_ready = { J.always_ready };

    ghost is_ready = { λ always c. J.is_ready always c.journal };

    fn note(
        &mut self,
        first: Note<'_>,
        second: Option<Note<'_>>,
        third: Option<Note<'_>>,
        fourth: Option<Note<'_>>,
    ) -> Result<(), AllocError>
        ensures noted { OnOk result (J.told self.new.journal ≡ with_more
            (entries_of_notes first.entry second.entry third.entry fourth.entry) (J.told self.old.journal)) }
        ensures refused { OnErr result (J.told self.new.journal ≡ J.told self.old.journal) }
        ensures ready { IsTrue (J.ready self.old.journal) → IsOk result × IsTrue (J.ready self.new.journal) }

        // Each entry that was taken counts, whether the journal tells it or not, and no other does.
        ensures counted { OnOk result (self.new.counters ≡ sums self.old.counters
            (counters_of (entries_of_notes first.entry second.entry third.entry fourth.entry))) }
        ensures not_counted { OnErr result (self.new.counters ≡ self.old.counters) }
    {
        let counters = self
            .counters
            .with_note(&first)
            .with_note_if(&second)
            .with_note_if(&third)
            .with_note_if(&fourth);
        self.journal.note(first, second, third, fourth)?;
        self.counters = counters;
        Ok(())
    }
}
