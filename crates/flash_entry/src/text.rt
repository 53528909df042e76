ghost use Rattle.std.specs.Prelude.{◌≡◌, [], ◌++◌, OnOk};
ghost use Rattle.flash_entry.specs.Text.{word, number, number_if, signed, signed_if, hexadecimal, id_text, label_text, place_text, line_end};

use flash_names::{Blob, Id, Label, Place};
use itoa::Buffer;
use std::alloc::{AllocError, Global};
use std::marker::Model;

// A line that is written word by word. Each method but `push` and `end_line` puts a space before its words.
#[derive(Drop)]
pub struct Text {
    alloc: Global,
    bytes: Vec<u8>,
}

impl Model for Text {
    ghost use Rattle.std.specs.Prelude.{ℕ, List};

    ghost Value = { List ℕ };

    ghost view = { λ t. t.bytes.items };
}

impl Text {
    pub fn new(alloc: Global) -> Text
        ensures { result ≡ [] }
    {
        Text {
            alloc,
            bytes: Vec::new(alloc),
        }
    }

    pub fn into_blob(self) -> Blob
        ensures { result ≡ self }
    {
        Blob::from(self.bytes)
    }

    // These bytes as they are.
    pub fn push(&mut self, bytes: &[u8]) -> Result<(), AllocError>
        ensures { OnOk result (self.new ≡ self.old ++ bytes.now) }
    {
        self.bytes.extend_from_slice(bytes)
    }

    pub fn end_line(&mut self) -> Result<(), AllocError>
        ensures { OnOk result (self.new ≡ self.old ++ line_end) }
    {
        self.push(b"\n")
    }

    pub fn word(&mut self, bytes: &[u8]) -> Result<(), AllocError>
        ensures { OnOk result (self.new ≡ self.old ++ word bytes.now) }
    {
        self.push(b" ")?;
        self.push(bytes)
    }

    pub fn number(&mut self, n: u64) -> Result<(), AllocError>
        ensures { OnOk result (self.new ≡ self.old ++ number n) }
    {
        self.word(Buffer::new().format(n).as_bytes())
    }

    pub fn number_if(&mut self, n: Option<u64>) -> Result<(), AllocError>
        ensures { OnOk result (self.new ≡ self.old ++ number_if n) }
    {
        match n {
            None => self.word(b"-"),
            Some(n) => self.number(n),
        }
    }

    pub fn signed(&mut self, n: i64) -> Result<(), AllocError>
        ensures { OnOk result (self.new ≡ self.old ++ signed n) }
    {
        self.word(Buffer::new().format(n).as_bytes())
    }

    pub fn signed_if(&mut self, n: Option<i64>) -> Result<(), AllocError>
        ensures { OnOk result (self.new ≡ self.old ++ signed_if n) }
    {
        match n {
            None => self.word(b"-"),
            Some(n) => self.signed(n),
        }
    }

    pub fn hexadecimal(&mut self, bytes: &[u8]) -> Result<(), AllocError>
        ensures { OnOk result (self.new ≡ self.old ++ hexadecimal bytes.now) }
    {
        if bytes.is_empty() {
            return self.word(b"-");
        }
        let digits = hex::encode(self.alloc, bytes)?;
        self.word(digits.as_bytes())
    }

    pub fn id(&mut self, id: Id) -> Result<(), AllocError>
        ensures { OnOk result (self.new ≡ self.old ++ id_text id) }
    {
        self.number(u64::from(id.pass))?;
        self.number(id.seq)
    }

    pub fn label(&mut self, label: Label) -> Result<(), AllocError>
        ensures { OnOk result (self.new ≡ self.old ++ label_text label) }
    {
        self.number(u64::from(label.page))?;
        self.number(label.version)
    }

    pub fn place(&mut self, place: Place) -> Result<(), AllocError>
        ensures { OnOk result (self.new ≡ self.old ++ place_text place) }
    {
        self.label(place.label)?;
        self.number(u64::from(place.offset))?;
        self.number(u64::from(place.length))
    }
}
