use flash_entry::Ask;
use flash_names::Id;

/// What a session needs next.
#[derive(Debug, Drop)]
pub enum Todo {
    /// Its replies are to be sent.
    Write,
    /// It has to be told the answer to the step that it asked last.
    Wait,
    /// The store has to be asked this, as the session's step of this number.
    Do(Id, Ask),
    /// It is over: it reads no more bytes and asks no more steps.
    Closed(Ending),
    /// It needs more bytes.
    Input,
}

/// Why a session is over.
#[derive(Clone, Copy, Debug, PartialEq, Eq)]
pub enum Ending {
    /// The client said `quit`.
    Quit,
    /// 65,536 bytes without a line feed came in a line's place, or in the place of bytes that are skipped up to one.
    LineTooLong,
    /// The step that is next would have a number above 2^64 - 1.
    UsedUp,
}
