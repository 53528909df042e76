/// The first bytes of every record.
pub const MAGIC: [u8; 3] = [0x46, 0x52, 0x01];

/// How many bytes are before the key.
pub const HEAD_LENGTH: usize = 28;

/// How many bytes the checksum has, which ends the record.
pub const CHECKSUM_LENGTH: usize = 4;

/// Where the byte of the key's length is.
pub const KEY_LENGTH_OFFSET: usize = 3;

/// Where the flags begin, four bytes.
pub const FLAGS_OFFSET: usize = 4;

/// Where the value's length begins, four bytes.
pub const VALUE_LENGTH_OFFSET: usize = 8;

/// Where the CAS number begins, eight bytes.
pub const CAS_OFFSET: usize = 12;

/// Where the page's version begins, eight bytes.
pub const VERSION_OFFSET: usize = 20;
