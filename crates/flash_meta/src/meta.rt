use flash_entry::Mode;
use flash_names::Key;
use flash_text::Refusal;
use std::marker::Model;

/// A command of the meta protocol (memcached's doc/protocol.txt, "Meta Commands").
#[derive(Clone, Copy, Debug, PartialEq)]
pub enum MetaVerb {
    /// `mg`: looks a key up.
    Get,
    /// `ms`: stores the data that follows.
    Set,
    /// `md`: removes an item.
    Delete,
    /// `ma`: adds to a number or takes away from it.
    Arith,
}

/// A line of the meta protocol. What its flags don't say has its default.
#[derive(Debug, Drop)]
pub struct Meta<'a> {
    /// The command.
    pub verb: MetaVerb,
    /// The key as it was sent, of 1 to 250 bytes.
    pub word: &'a [u8],
    /// The key that it means: the word, or with the flag `b` the bytes whose base64 it is.
    pub key: Key,
    /// How many bytes of data follow, at most 2,147,483,647; 0 where none do.
    pub length: u32,
    /// The line's bytes from the first flag's first to the last flag's last, as they were sent. Between two flags are
    /// one or more spaces; `flash_text::next_word` gives one flag after the other. No letter stands there twice.
    pub asked: &'a [u8],
    /// `b`: the word is base64.
    pub base64: bool,
    /// `q`: the common reply is left out.
    pub quiet: bool,
    /// `v`: the value is wanted.
    pub value: bool,
    /// `T`: the new exptime, of at most 18 digits (doc/protocol.txt, "Expiration times"). For `ms` none is 0.
    pub exptime: Option<i64>,
    /// `F`: what the client keeps beside the value; 0 where it isn't given.
    pub flags: u32,
    /// `C`: the CAS number that the item must have.
    pub compare: Option<u64>,
    /// `M` of `ms`: how the data is stored; `Mode::Set` where it isn't given.
    pub mode: Mode,
    /// `M` of `ma`: whether the number goes down; false where it isn't given.
    pub down: bool,
    /// `D`: by how much; 1 where it isn't given.
    pub delta: u64,
    /// `N`: the exptime of an item that is created where there is none.
    pub create: Option<i64>,
    /// `J`: the number that a created item begins with; 0 where it isn't given.
    pub start: u64,
}

impl<'a> Model for Meta<'a> {
    ghost use Rattle.flash_meta.specs.MetaSaid.{MetaSaid};

    ghost Value = { MetaSaid };

    ghost view = { λ meta. record {
      verb = meta.verb;
      word = meta.word.now;
      key = meta.key;
      length = meta.length;
      asked = meta.asked.now;
      base64 = meta.base64;
      quiet = meta.quiet;
      value = meta.value;
      exptime = meta.exptime;
      flags = meta.flags;
      compare = meta.compare;
      mode = meta.mode;
      down = meta.down;
      delta = meta.delta;
      create = meta.create;
      start = meta.start;
    } };
}

/// What a line of the meta protocol is read as.
#[derive(Debug, Drop)]
pub enum MetaLine<'a> {
    /// A command without data.
    Command(Meta<'a>),
    /// A command whose data follows the line: so many bytes, and then `\r\n`.
    Data(Meta<'a>, u32),
    /// A line that is refused, and how many bytes after its line feed are to be skipped.
    Bad(Refusal, u32),
}
