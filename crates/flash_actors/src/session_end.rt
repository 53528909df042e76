/// How a session ends.
#[derive(Clone, Copy, Debug, PartialEq, Eq)]
pub enum SessionEnd {
    /// The client said `quit`.
    Quit,
    /// The source gave its end. Bytes that are no whole command are unanswered.
    End,
    /// 65,536 bytes came without a line feed.
    LineTooLong,
    /// A step was next, and its number would have been above 2^64 - 1.
    UsedUp,
    /// The source failed.
    SourceFault,
    /// The sink failed.
    SinkFault,
    /// Memory ran out.
    NoMemory,
}
