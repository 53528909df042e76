// The lines of fixed words.
ghost use Rattle.std.specs.Prelude.{◌≡◌};
ghost use Rattle.flash_reply.specs.Lines.{refusal_line};
ghost use Rattle.flash_reply.specs.TextReplies.{stored_line, gone_line, touched_line, plain_line};

use flash_entry::{Gone, Stored, Touched};
use flash_text::{Refusal, Verb};

/// No live item is under the key.
pub const NOT_FOUND: &[u8] = b"NOT_FOUND\r\n";

/// The item has another CAS number than the one given.
pub const EXISTS: &[u8] = b"EXISTS\r\n";

/// The value has more bytes than an item may have.
pub const TOO_LARGE: &[u8] = b"SERVER_ERROR object too large for cache\r\n";

/// The last CAS number was given out.
pub const NO_NUMBER: &[u8] = b"SERVER_ERROR numbers used up\r\n";

/// The value is no number.
pub const NON_NUMERIC: &[u8] = b"CLIENT_ERROR cannot increment or decrement non-numeric value\r\n";

/// Memory ran out.
pub const NO_MEMORY: &[u8] = b"SERVER_ERROR out of memory\r\n";

/// The line of a refusal.
pub fn refusal_line(refusal: Refusal) -> &'static [u8]
    ensures { result.now ≡ refusal_line refusal }
{
    match refusal {
        Refusal::Unknown => b"ERROR\r\n",
        Refusal::BadFormat => b"CLIENT_ERROR bad command line format\r\n",
        Refusal::BadDelta => b"CLIENT_ERROR invalid numeric delta argument\r\n",
        Refusal::TooLarge => TOO_LARGE,
        Refusal::BadChunk => b"CLIENT_ERROR bad data chunk\r\n",
        Refusal::BadFlag => b"CLIENT_ERROR invalid flag\r\n",
        Refusal::DuplicateFlag => b"CLIENT_ERROR duplicate flag\r\n",
        Refusal::BadToken => b"CLIENT_ERROR bad token in command line format\r\n",
        Refusal::NoMemory => NO_MEMORY,
    }
}

/// The line on a value that was to be stored.
pub fn stored_line(stored: Stored) -> &'static [u8]
    ensures { result.now ≡ stored_line stored }
{
    match stored {
        Stored::Stored(_) => b"STORED\r\n",
        Stored::NotStored => b"NOT_STORED\r\n",
        Stored::Exists => EXISTS,
        Stored::NotFound => NOT_FOUND,
        Stored::TooLarge => TOO_LARGE,
        Stored::NoNumber => NO_NUMBER,
    }
}

/// The line on an item that was to be deleted.
pub fn gone_line(gone: Gone) -> &'static [u8]
    ensures { result.now ≡ gone_line gone }
{
    match gone {
        Gone::Deleted => b"DELETED\r\n",
        Gone::NotFound => NOT_FOUND,
        Gone::Exists => EXISTS,
    }
}

/// The line on an item that was to have another deadline.
pub fn touched_line(touched: Touched) -> &'static [u8]
    ensures { result.now ≡ touched_line touched }
{
    match touched {
        Touched::Touched => b"TOUCHED\r\n",
        Touched::NotFound => NOT_FOUND,
    }
}

/// The line of a command that has no other answer than that it was done.
pub fn plain_line(verb: Verb) -> &'static [u8]
    ensures { result.now ≡ plain_line verb }
{
    match verb {
        Verb::FlushAll | Verb::Verbosity => b"OK\r\n",
        Verb::Version => b"VERSION 1.6-flash\r\n",
        Verb::Mn => b"MN\r\n",
        _ => b"",
    }
}
