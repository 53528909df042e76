/// What the next bytes of a session are.
#[derive(Clone, Copy, Debug, PartialEq, Eq)]
pub enum Place {
    /// A line.
    InLine,
    /// What is skipped up to a line feed, after a bad data chunk.
    InSkip,
    /// Nothing more is read, after `quit`.
    AtQuit,
    /// Nothing more is read: 65,536 bytes had no line feed.
    TooLong,
}
