use thiserror::Error;

/// Why a line of a script is bad.
#[derive(Clone, Copy, Debug, PartialEq, Eq, Error)]
pub enum Why {
    /// Its first word is unknown, or it has more or fewer words than that word asks for; or another
    /// byte than a line feed stands behind the bytes of a `feed`.
    #[error("a word is unknown, there are more or fewer than it asks for, or too many bytes")]
    BadWord,
    /// One of its numbers can't be read, or is out of its range; a session's is 1 to 16.
    #[error("a number can not be read, or is out of its range")]
    BadNumber,
    /// The first rule, from 1 to 10, that the geometry of line 1 breaks (`Geometry::check`).
    #[error("the geometry breaks rule {0}")]
    Geometry(u32),
    /// No line feed ends it; or the script ends within the bytes of a `feed`, or directly behind them.
    #[error("no line feed ends the line, or bytes behind it are missing")]
    Short,
    /// The script has too many bytes or too many steps.
    #[error("the script is too long")]
    TooLong,
}

/// The first bad line of a script.
#[derive(Clone, Copy, Debug, PartialEq, Eq, Error)]
#[error("line {line}: {why}")]
pub struct ScriptFault {
    /// The line's number, counted from 1; 0 where the script is too long.
    pub line: u32,
    /// Why it is bad: the first reason that applies.
    pub why: Why,
}
