// A cursor over the words of a line, and the readings of its fields.
ghost use Rattle.std.specs.Prelude.{◌≡◌, MatchResult};
ghost use Rattle.flash_names.specs.Words.{words};
ghost use Rattle.flash_entry.specs.Readings.{Reads, ReadsInMemory, next_word, end_of_line};
ghost use Rattle.flash_entry.specs.FieldReading as fields;

use crate::kinds::{Kind, Verb};
use crate::{Cause, DropCause, EndCause, EntryFault, Gone, Touched, fixed, values};
use flash_names::{Blob, Id, Key, Label, Place, split_word};
use std::alloc::Global;
use std::marker::Model;

#[derive(Drop)]
pub struct Cursor<'a> {
    // What is after the last word that was read, where a space is.
    rest: Option<&'a [u8]>,
    // How many words were read.
    place: usize,
}

impl<'a> Model for Cursor<'a> {
    ghost use Rattle.flash_entry.specs.Readings.{Left, left_code};

    ghost Value = { Left };

    ghost coded = { left_code };

    ghost use Rattle.flash_entry.specs.Cursor.{left_of, IsCounted};

    ghost view = { left_of };

    ghost invariant = { IsCounted };
}

impl<'a> Cursor<'a> {
    pub fn new(line: &'a [u8]) -> Cursor<'a>
        ensures { result ≡ record { words = words line.now; place = 0 } }
    {
        Cursor {
            rest: Some(line),
            place: 0,
        }
    }

    #[tactic(auto, unfolding(crate::specs::Readings::next_word))]
    pub fn word(&mut self) -> Result<&'a [u8], EntryFault>
        ensures { MatchResult result (λ word. next_word self.old ≡ Ok (word.now, self.new))
            (λ fault. next_word self.old ≡ Err fault) }
    {
        let Some(rest) = self.rest else {
            return Err(EntryFault::Short);
        };
        let (word, rest) = split_word(rest);
        self.rest = rest;
        self.place += 1;
        Ok(word)
    }

    #[tactic(auto, unfolding(crate::specs::Readings::end_of_line))]
    pub fn end_of_line(&mut self) -> Result<(), EntryFault>
        ensures { Reads (end_of_line self.old) result self.new }
    {
        match self.rest {
            None => Ok(()),
            Some(_) => Err(EntryFault::BadWord(self.place + 1)),
        }
    }

    // The fault of the word that was read last, where no number may stand.
    pub fn bad_word(&self) -> EntryFault
        ensures { result ≡ EntryFault.BadWord self.now.place }
    {
        EntryFault::BadWord(self.place)
    }

    // The fault of the word that was read last, where a number may stand.
    fn bad_number(&self) -> EntryFault
        ensures { result ≡ EntryFault.BadNumber self.now.place }
    {
        EntryFault::BadNumber(self.place)
    }

    #[tactic(auto, unfolding(crate::specs::FieldReading::number))]
    pub fn number(&mut self) -> Result<u64, EntryFault>
        ensures { Reads (fields.number self.old) result self.new }
    {
        let word = self.word()?;
        values::plain_number(word).ok_or(self.bad_number())
    }

    #[tactic(auto, unfolding(crate::specs::FieldReading::narrow))]
    pub fn narrow(&mut self) -> Result<u32, EntryFault>
        ensures { Reads (fields.narrow self.old) result self.new }
    {
        let word = self.word()?;
        values::narrow_number(word).ok_or(self.bad_number())
    }

    #[tactic(auto, unfolding(crate::specs::FieldReading::signed))]
    pub fn signed(&mut self) -> Result<i64, EntryFault>
        ensures { Reads (fields.signed self.old) result self.new }
    {
        let word = self.word()?;
        values::signed_number(word).ok_or(self.bad_number())
    }

    #[tactic(auto, unfolding(crate::specs::FieldReading::number_if))]
    pub fn number_if(&mut self) -> Result<Option<u64>, EntryFault>
        ensures { Reads (fields.number_if self.old) result self.new }
    {
        let word = self.word()?;
        values::optional_number(word).ok_or(self.bad_number())
    }

    #[tactic(auto, unfolding(crate::specs::FieldReading::signed_if))]
    pub fn signed_if(&mut self) -> Result<Option<i64>, EntryFault>
        ensures { Reads (fields.signed_if self.old) result self.new }
    {
        let word = self.word()?;
        values::optional_signed(word).ok_or(self.bad_number())
    }

    #[tactic(auto, unfolding(crate::specs::FieldReading::number_or_none))]
    pub fn number_or_none(&mut self) -> Result<Option<u64>, EntryFault>
        ensures { Reads (fields.number_or_none self.old) result self.new }
    {
        let word = self.word()?;
        values::number_or_none(word).ok_or(self.bad_number())
    }

    #[tactic(auto, unfolding(crate::specs::FieldReading::narrow_or_here))]
    pub fn narrow_or_here(&mut self) -> Result<Option<u32>, EntryFault>
        ensures { Reads (fields.narrow_or_here self.old) result self.new }
    {
        let word = self.word()?;
        values::narrow_or_here(word).ok_or(self.bad_number())
    }

    #[tactic(auto, unfolding(crate::specs::FieldReading::key))]
    pub fn key(&mut self) -> Result<Key, EntryFault>
        ensures { Reads (fields.key self.old) result self.new }
    {
        let word = self.word()?;
        values::key_of_digits(word).ok_or(self.bad_word())
    }

    #[tactic(auto, unfolding(crate::specs::FieldReading::value))]
    pub fn value(&mut self, alloc: Global) -> Result<Blob, EntryFault>
        ensures { ReadsInMemory (fields.value self.old) result self.new }
    {
        let word = self.word()?;
        values::value_of_digits(alloc, word)?.ok_or(self.bad_word())
    }

    #[tactic(auto, unfolding(crate::specs::FieldReading::bytes_or_failed))]
    pub fn bytes_or_failed(&mut self, alloc: Global) -> Result<Option<Blob>, EntryFault>
        ensures { ReadsInMemory (fields.bytes_or_failed self.old) result self.new }
    {
        let word = self.word()?;
        values::bytes_or_failed(alloc, word)?.ok_or(self.bad_word())
    }

    #[tactic(auto, unfolding(crate::specs::FieldReading::kind))]
    pub fn kind(&mut self) -> Result<Kind, EntryFault>
        ensures { Reads (fields.kind self.old) result self.new }
    {
        let word = self.word()?;
        fixed::kind(word).ok_or(self.bad_word())
    }

    #[tactic(auto, unfolding(crate::specs::FieldReading::verb))]
    pub fn verb(&mut self) -> Result<Verb, EntryFault>
        ensures { Reads (fields.verb self.old) result self.new }
    {
        let word = self.word()?;
        fixed::verb(word).ok_or(self.bad_word())
    }

    // This word and no other.
    #[tactic(auto, unfolding(crate::specs::FieldReading::only))]
    fn only(&mut self, expected: &[u8]) -> Result<(), EntryFault>
        ensures { Reads (fields.only expected.now self.old) result self.new }
    {
        let word = self.word()?;
        fixed::only(expected, word).ok_or(self.bad_word())
    }

    pub fn equality(&mut self) -> Result<(), EntryFault>
        ensures { Reads (fields.equality self.old) result self.new }
    {
        self.only(b"=")
    }

    pub fn dash(&mut self) -> Result<(), EntryFault>
        ensures { Reads (fields.dash self.old) result self.new }
    {
        self.only(b"-")
    }

    pub fn done(&mut self) -> Result<(), EntryFault>
        ensures { Reads (fields.done self.old) result self.new }
    {
        self.only(b"ok")
    }

    #[tactic(auto, unfolding(crate::specs::FieldReading::gone))]
    pub fn gone(&mut self) -> Result<Gone, EntryFault>
        ensures { Reads (fields.gone self.old) result self.new }
    {
        let word = self.word()?;
        fixed::gone(word).ok_or(self.bad_word())
    }

    #[tactic(auto, unfolding(crate::specs::FieldReading::touched))]
    pub fn touched(&mut self) -> Result<Touched, EntryFault>
        ensures { Reads (fields.touched self.old) result self.new }
    {
        let word = self.word()?;
        fixed::touched(word).ok_or(self.bad_word())
    }

    #[tactic(auto, unfolding(crate::specs::FieldReading::wanted))]
    pub fn wanted(&mut self) -> Result<bool, EntryFault>
        ensures { Reads (fields.wanted self.old) result self.new }
    {
        let word = self.word()?;
        fixed::wanted(word).ok_or(self.bad_word())
    }

    #[tactic(auto, unfolding(crate::specs::FieldReading::cause))]
    pub fn cause(&mut self) -> Result<Cause, EntryFault>
        ensures { Reads (fields.cause self.old) result self.new }
    {
        let word = self.word()?;
        fixed::cause(word).ok_or(self.bad_word())
    }

    #[tactic(auto, unfolding(crate::specs::FieldReading::drop_cause))]
    pub fn drop_cause(&mut self) -> Result<DropCause, EntryFault>
        ensures { Reads (fields.drop_cause self.old) result self.new }
    {
        let word = self.word()?;
        fixed::drop_cause(word).ok_or(self.bad_word())
    }

    #[tactic(auto, unfolding(crate::specs::FieldReading::end_cause))]
    pub fn end_cause(&mut self) -> Result<EndCause, EntryFault>
        ensures { Reads (fields.end_cause self.old) result self.new }
    {
        let word = self.word()?;
        fixed::end_cause(word).ok_or(self.bad_word())
    }

    #[tactic(auto, unfolding(crate::specs::FieldReading::id))]
    pub fn id(&mut self) -> Result<Id, EntryFault>
        ensures { Reads (fields.id self.old) result self.new }
    {
        Ok(Id {
            pass: self.narrow()?,
            seq: self.number()?,
        })
    }

    #[tactic(auto, unfolding(crate::specs::FieldReading::label))]
    pub fn label(&mut self) -> Result<Label, EntryFault>
        ensures { Reads (fields.label self.old) result self.new }
    {
        Ok(Label {
            page: self.narrow()?,
            version: self.number()?,
        })
    }

    #[tactic(auto, unfolding(crate::specs::FieldReading::place))]
    pub fn place(&mut self) -> Result<Place, EntryFault>
        ensures { Reads (fields.place self.old) result self.new }
    {
        Ok(Place {
            label: self.label()?,
            offset: self.narrow()?,
            length: self.narrow()?,
        })
    }
}
