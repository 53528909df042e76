use thiserror::Error;

/// Why no record is at the front of some bytes.
#[derive(Clone, Copy, Debug, PartialEq, Eq, Error)]
pub enum NotRecord {
    /// There are no bytes, or the first is 0: the records of a block end here.
    #[error("no record begins here")]
    End,
    /// One of the first three bytes, as far as they are there, differs from `46 52 01`.
    #[error("the first bytes are not those of a record")]
    Magic,
    /// There are fewer than 32 bytes, or fewer than the record's lengths ask for.
    #[error("bytes of the record are lacking")]
    Short,
    /// The length of the key is 0 or above 250.
    #[error("the length of the key is out of its range")]
    Lengths,
    /// The checksum isn't that of the bytes before it.
    #[error("the checksum is another")]
    Sum,
}
