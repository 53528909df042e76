use flash_entry::Mode;
use std::marker::Model;

/// A command of the text protocol (memcached's doc/protocol.txt).
#[derive(Clone, Copy, Debug, PartialEq)]
pub enum Verb {
    /// `get`: looks keys up.
    Get,
    /// `gets`: the same, and gives each CAS number.
    Gets,
    /// `gat`: looks keys up and gives them a new exptime.
    Gat,
    /// `gats`: the same, and gives each CAS number.
    Gats,
    /// `set`, `add`, `replace`, `append` or `prepend`: stores the data that follows.
    Store(Mode),
    /// `cas`: stores the data that follows where the item has this CAS number.
    Cas,
    /// `delete`: removes an item.
    Delete,
    /// `incr`: adds to a number.
    Incr,
    /// `decr`: takes away from a number.
    Decr,
    /// `touch`: gives an item a new exptime.
    Touch,
    /// `flush_all`: expires all items, at once or after a delay.
    FlushAll,
    /// `verbosity`: takes a number and does nothing with it.
    Verbosity,
    /// `stats`: asks for counts.
    Stats,
    /// `version`: asks for the server's version.
    Version,
    /// `quit`: closes the session.
    Quit,
    /// `mn`: a command that does nothing, and is answered.
    Mn,
}

/// A line of the text protocol. What a line doesn't have is empty, 0 or false.
#[derive(Debug, Drop)]
pub struct Text<'a> {
    /// The command.
    pub verb: Verb,
    /// The line's bytes from the first key's first to the last key's last. Between two keys are one or more spaces;
    /// `next_word` gives one key after the other. Each has 1 to 250 bytes, above 0x20 and not 0x7f.
    pub keys: &'a [u8],
    /// What the client keeps beside the value.
    pub flags: u32,
    /// When the item expires: 0 never, below 0 at once, up to 2,592,000 in so many seconds, above at that Unix second
    /// (doc/protocol.txt, "Expiration times"). For `flush_all` its delay in the same form, never below 0. It has at
    /// most 18 digits.
    pub exptime: i64,
    /// How many bytes of data follow, at most 2,147,483,647.
    pub length: u32,
    /// The CAS number of `cas`, the delta of `incr` and `decr`, or the number of `verbosity`.
    pub number: u64,
    /// Whether `noreply` asks that the reply be left out.
    pub quiet: bool,
}

impl<'a> Model for Text<'a> {
    ghost use Rattle.flash_text.specs.Said.{Said};

    ghost Value = { Said };

    ghost view = { λ text. record {
      verb = text.verb;
      keys = text.keys.now;
      flags = text.flags;
      exptime = text.exptime;
      length = text.length;
      number = text.number;
      quiet = text.quiet;
    } };
}

/// Why a line or its data is refused. The text and meta protocols share it.
#[derive(Clone, Copy, Debug, PartialEq)]
pub enum Refusal {
    /// `ERROR`: an unknown command, another count of words, or a word in an optional place that isn't one.
    Unknown,
    /// `CLIENT_ERROR bad command line format`: a key or a number that can't be read.
    BadFormat,
    /// `CLIENT_ERROR invalid numeric delta argument`.
    BadDelta,
    /// `SERVER_ERROR object too large for cache`.
    TooLarge,
    /// `CLIENT_ERROR bad data chunk`: the data isn't followed by `\r\n`.
    BadChunk,
    /// `CLIENT_ERROR invalid flag`.
    BadFlag,
    /// `CLIENT_ERROR duplicate flag`.
    DuplicateFlag,
    /// `CLIENT_ERROR bad token in command line format`.
    BadToken,
    /// `SERVER_ERROR out of memory`.
    NoMemory,
}

/// What a line is read as.
#[derive(Debug, Drop)]
pub enum Line<'a> {
    /// A command without data.
    Command(Text<'a>),
    /// A command whose data follows the line: so many bytes, and then `\r\n`.
    Data(Text<'a>, u32),
    /// A line that is refused, and how many bytes after its line feed are to be skipped.
    Bad(Refusal, u32),
}
