ghost use Rattle.std.specs.Prelude.{◌≡◌, ℕ, ◌+◌, ◌-◌, ◌^◌, ◌<◌, ◌≤◌, min, Bool, true, false, List, [], ◌∷◌, ◌++◌, length, vec_len, vec_capacity, Option, Some, None, IsTrue, IsOk, IfOk, OnOk, OnErr, refl};
ghost use Rattle.std.specs.Option.{option_to_list};
ghost use Rattle.std.proofs.Common.{rules};
ghost use Rattle.flash_names.specs.Told.{with_more};
ghost use Rattle.flash_entry.specs.declared.entry.Entry.{Entry};
ghost use Rattle.flash_entry.specs.Noted.{entries_of_notes, entry_if};

use crate::{Entry, Note};
use std::alloc::{AllocError, Global};
use std::marker::Model;

/// Where the store notes what happens to it.
pub trait Journal {
    /// The entries so far, oldest first, where the journal tells them.
    ghost told: { Self → Option (List Entry) };

    /// Whether the next note is sure to be taken.
    ghost ready: { Self → Bool };

    /// Whether every journal of this type is ready.
    ghost always_ready: { Bool };

    /// Appends the entries that are there, in this order, or none of them where memory runs out. No call
    /// changes whether the journal tells. A ready journal takes them and is ready afterwards.
    fn note(
        &mut self,
        first: Note<'_>,
        second: Option<Note<'_>>,
        third: Option<Note<'_>>,
        fourth: Option<Note<'_>>,
    ) -> Result<(), AllocError>
        ensures noted { OnOk result (told self.new
            ≡ with_more (entries_of_notes first.entry second.entry third.entry fourth.entry) (told self.old)) }
        ensures refused { OnErr result (told self.new ≡ told self.old) }
        ensures ready { IsTrue (ready self.old) → IsOk result × IsTrue (ready self.new) };

    /// A journal of a type that is always ready is ready.
    ghost is_ready: { IsTrue always_ready → (journal : Self) → IsTrue (ready journal) };
}

/// A journal that keeps its entries in memory and tells them. It is never ready, since an entry takes memory.
#[derive(Debug, Drop)]
pub struct Kept {
    alloc: Global,
    entries: Vec<Entry>,
}

impl Model for Kept {
    ghost use Rattle.std.specs.Prelude.{List};
    ghost use Rattle.flash_entry.specs.declared.entry.Entry.{Entry};

    ghost Value = { List Entry };

    ghost view = { λ k. k.entries.items };
}

impl Kept {
    /// A journal with no entry.
    pub fn new(alloc: Global) -> Kept
        ensures { result ≡ [] }
    {
        Kept {
            alloc,
            entries: Vec::new(alloc),
        }
    }

    /// The entries, oldest first.
    pub fn entries(&self) -> &[Entry]
        ensures { result.now ≡ self.now }
    {
        &self.entries
    }
}

impl Journal for Kept {
    ghost told = { λ entries. Some entries };

    ghost ready = { λ _. false };

    ghost always_ready = { false };

    ghost is_ready = { Prim.search rules };

    fn note(
        &mut self,
        first: Note<'_>,
        second: Option<Note<'_>>,
        third: Option<Note<'_>>,
        fourth: Option<Note<'_>>,
    ) -> Result<(), AllocError> {
        let alloc = self.alloc;
        let first = first.to_entry(alloc)?;
        let second = entry_if(alloc, second)?;
        let third = entry_if(alloc, third)?;
        let fourth = entry_if(alloc, fourth)?;
        append(&mut self.entries, first, second, third, fourth)
    }
}

/// A journal that counts its entries and tells nothing. It is always ready.
#[derive(Debug, Drop)]
pub struct Counted {
    entries: u64,
}

impl Model for Counted {
    ghost use Rattle.std.specs.Prelude.{ℕ};

    ghost Value = { ℕ };

    ghost view = { λ c. c.entries };
}

impl Counted {
    /// A journal that has counted none.
    pub fn new() -> Counted
        ensures { result ≡ 0 }
    {
        Counted { entries: 0 }
    }

    /// How many entries were noted, up to 2^64 - 1.
    pub fn entries(&self) -> u64
        ensures { result ≡ self.now }
    {
        self.entries
    }
}

impl Journal for Counted {
    ghost told = { λ _. None };

    ghost ready = { λ _. true };

    ghost always_ready = { true };

    ghost is_ready = { λ _ _. refl };

    fn note(
        &mut self,
        _first: Note<'_>,
        second: Option<Note<'_>>,
        third: Option<Note<'_>>,
        fourth: Option<Note<'_>>,
    ) -> Result<(), AllocError>
        ensures ready { IsTrue true → IsOk result × IsTrue true }

        // Each entry counts once.
        ensures counted { self.new ≡ min
            (self.old + length (entries_of_notes _first.entry second.entry third.entry fourth.entry)) (2 ^ 64 - 1) }
    {
        let more = 1 + count_if(&second) + count_if(&third) + count_if(&fourth);
        self.entries = self.entries.saturating_add(more);
        Ok(())
    }
}

fn entry_if(alloc: Global, note: Option<Note<'_>>) -> Result<Option<Entry>, AllocError>
    ensures { IfOk result (λ entry. option_to_list entry ≡ entry_if note.entry) }
{
    match note {
        None => Ok(None),
        Some(note) => Ok(Some(note.to_entry(alloc)?)),
    }
}

fn count_if(note: &Option<Note<'_>>) -> u64
    ensures counted { result ≡ length (entry_if note.now) }
    ensures small { result ≤ 1 }
{
    match note {
        None => 0,
        Some(_) => 1,
    }
}

// Appends the entries that are there, or none where there is no room for them.
fn append(
    entries: &mut Vec<Entry>,
    first: Entry,
    second: Option<Entry>,
    third: Option<Entry>,
    fourth: Option<Entry>,
) -> Result<(), AllocError>
    ensures ok { OnOk result (entries.new.items
        ≡ entries.old.items ++ (first ∷ (option_to_list second ++ (option_to_list third ++ option_to_list fourth)))) }
    ensures err { OnErr result (entries.new.items ≡ entries.old.items) }
{
    entries.reserve(4)?;
    entries.push_reserved(first);
    push_if(entries, second);
    push_if(entries, third);
    push_if(entries, fourth);
    Ok(())
}

fn push_if(entries: &mut Vec<Entry>, entry: Option<Entry>)
    requires { vec_len entries.old < vec_capacity entries.old }
    ensures items { entries.new.items ≡ entries.old.items ++ option_to_list entry }
    ensures len { vec_len entries.new ≤ vec_len entries.old + 1 }
    ensures capacity { vec_capacity entries.new ≡ vec_capacity entries.old }
{
    if let Some(entry) = entry {
        entries.push_reserved(entry);
    }
}
