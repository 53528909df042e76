/// The most bytes of a journal that is checked.
pub const MAX_BYTES: usize = 16_777_216;

/// How a check ended. Lines are counted from 1; the `store` line is line 1.
#[derive(Clone, Copy, Debug, PartialEq, Eq)]
pub enum CheckStatus {
    /// The journal is a run of the one-thread cache, and has so many entries.
    Legal(u32),
    /// An entry breaks a rule, and the lines before it are good and legal.
    Illegal {
        /// The line of the entry.
        line: u32,
        /// The lowest rule that it breaks, from 1 to 26.
        rule: u32,
    },
    /// This line can't be read, and the lines before it are good and legal; 0 where the journal has more than 16,777,216
    /// bytes.
    BadLine(u32),
    /// The words aren't `check` alone. Nothing was read or written.
    Usage,
    /// A read failed. Nothing was written.
    SourceFault,
    /// A write failed. The sink got a front part of the answer's line.
    SinkFault,
    /// Memory ran out. Nothing was written.
    NoMemory,
}
