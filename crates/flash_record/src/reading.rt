ghost use Rattle.std.specs.Prelude.{◌≡◌, ◌↔◌, ◌+◌, ◌≤◌, ℕ, List, ◌++◌, drop, length, Ok, IfOk, IsTrue, IsOk};
ghost use Rattle.std.specs.Int.{w32, w64};
ghost use Rattle.flash_record.specs.Record.{Parts, Fits, record_bytes, record_length};
ghost use Rattle.flash_record.specs.Reading.{parts_of, record_at_front, is_end, agrees_with_magic, agrees_at, number_at, key_length as key_length_at, checksum_offset as checksum_place_at, parts_at, has_checksum, Gives, IsRecordOf};

use crate::NotRecord;
use crate::layout::{
    CAS_OFFSET, CHECKSUM_LENGTH, FLAGS_OFFSET, HEAD_LENGTH, KEY_LENGTH_OFFSET, MAGIC,
    VALUE_LENGTH_OFFSET, VERSION_OFFSET,
};
use flash_crc::crc32c;
use flash_names::{Key, MAX_KEY_LEN};

/// A record that was read, with its parts lent by the bytes that it was read from.
#[derive(Clone, Copy, Debug)]
pub struct Record<'a> {
    /// The key, of 1 to 250 bytes.
    pub key: &'a [u8],
    /// The client's flags.
    pub flags: u32,
    /// The CAS number.
    pub cas: u64,
    /// The version of the page that it was written to.
    pub version: u64,
    /// The value.
    pub value: &'a [u8],
    /// How many bytes the whole record has.
    pub length: usize,
}

/// Reads the record at the front of these bytes. Others may follow it. The answer where there is none is
/// the first of these that applies: `End`, `Magic`, `Short` where there are fewer than 32 bytes, `Lengths`,
/// `Short` where there are fewer than the lengths ask for, `Sum`.
pub fn read_record(bytes: &[u8]) -> Result<Record<'_>, NotRecord>
    // What was read is at the front.
    ensures found { IfOk result (λ r. Fits (parts_of r)
        × (bytes.now ≡ record_bytes (parts_of r) ++ drop r.length bytes.now)) }
    ensures length { IfOk result (λ r. (r.length ≡ record_length (parts_of r)) × (r.length ≤ length bytes.now)) }

    // What is at the front is read.
    ensures only { (p : Parts) (rest : List ℕ) → Fits p → bytes.now ≡ record_bytes p ++ rest → Gives result (Ok p) }

    // Which answer it is.
    ensures exact { Gives result (record_at_front bytes.now) }
{
    first_of(bytes)
}

// The record at the front, or the first reason why there is none.
fn first_of(bytes: &[u8]) -> Result<Record<'_>, NotRecord>
    ensures exact { Gives result (record_at_front bytes.now) }
    ensures length { IfOk result (λ r. (r.length ≡ record_length (parts_of r)) × (r.length ≤ length bytes.now)) }
{
    if is_end(bytes) {
        return Err(NotRecord::End);
    }
    if !agrees_with_magic(bytes) {
        return Err(NotRecord::Magic);
    }
    if bytes.len() < HEAD_LENGTH + CHECKSUM_LENGTH {
        return Err(NotRecord::Short);
    }
    let key_length = bytes[KEY_LENGTH_OFFSET] as usize;
    if key_length < 1 || key_length > MAX_KEY_LEN {
        return Err(NotRecord::Lengths);
    }
    let value_length = u32_at(bytes, VALUE_LENGTH_OFFSET) as usize;
    let checksum_offset = HEAD_LENGTH + key_length + value_length;
    if bytes.len() < checksum_offset + CHECKSUM_LENGTH {
        return Err(NotRecord::Short);
    }
    if !has_checksum(bytes, checksum_offset) {
        return Err(NotRecord::Sum);
    }
    Ok(record_at(bytes, key_length, checksum_offset))
}

// The record whose checksum begins at `checksum_place`.
fn record_at(bytes: &[u8], key_length: usize, checksum_offset: usize) -> Record<'_>
    requires key { key_length ≡ key_length_at bytes.now }
    requires place { checksum_offset ≡ checksum_place_at bytes.now }
    requires room { checksum_offset + 4 ≤ length bytes.now }
    ensures parts { parts_of result ≡ parts_at bytes.now }
    ensures length { result.length ≡ record_length (parts_of result) }
    ensures within { result.length ≤ length bytes.now }
{
    Record {
        key: &bytes[HEAD_LENGTH..HEAD_LENGTH + key_length],
        flags: u32_at(bytes, FLAGS_OFFSET),
        cas: u64_at(bytes, CAS_OFFSET),
        version: u64_at(bytes, VERSION_OFFSET),
        value: &bytes[HEAD_LENGTH + key_length..checksum_offset],
        length: checksum_offset + CHECKSUM_LENGTH,
    }
}

// Whether the checksum there is that of the bytes before it.
fn has_checksum(bytes: &[u8], checksum_offset: usize) -> bool
    requires place { checksum_offset ≡ checksum_place_at bytes.now }
    requires room { checksum_offset + 4 ≤ length bytes.now }
    ensures { result ≡ has_checksum bytes.now }
{
    u32_at(bytes, checksum_offset) == crc32c(&bytes[..checksum_offset])
}

fn is_end(bytes: &[u8]) -> bool
    ensures { result ≡ is_end bytes.now }
{
    match bytes.first() {
        None => true,
        Some(byte) => *byte == 0,
    }
}

// Whether the first three bytes, as far as they are there, are those of every record.
fn agrees_with_magic(bytes: &[u8]) -> bool
    ensures { result ≡ agrees_with_magic bytes.now }
{
    agrees_at(bytes, 0, MAGIC[0]) && agrees_at(bytes, 1, MAGIC[1]) && agrees_at(bytes, 2, MAGIC[2])
}

fn agrees_at(bytes: &[u8], place: usize, byte: u8) -> bool
    ensures { result ≡ agrees_at bytes.now place byte }
{
    bytes.len() <= place || bytes[place] == byte
}

fn u32_at(bytes: &[u8], place: usize) -> u32
    requires { place + 4 ≤ length bytes.now }
    ensures { result ≡ number_at w32 place bytes.now }
{
    let b = &bytes[place..place + 4];
    u32::from_be_bytes([b[0], b[1], b[2], b[3]])
}

fn u64_at(bytes: &[u8], place: usize) -> u64
    requires { place + 8 ≤ length bytes.now }
    ensures { result ≡ number_at w64 place bytes.now }
{
    let b = &bytes[place..place + 8];
    u64::from_be_bytes([b[0], b[1], b[2], b[3], b[4], b[5], b[6], b[7]])
}

/// Whether these bytes, all of them, are a record of this key, CAS number and version.
pub fn is_record_of(bytes: &[u8], key: &Key, cas: u64, version: u64) -> bool
    ensures { IsTrue result ↔ IsRecordOf bytes.now key.now cas version }
{
    let Ok(found) = read_record(bytes) else {
        return false;
    };
    if found.length != bytes.len() {
        return false;
    }
    is_of(&found, key.bytes(), cas, version)
}

fn is_of(found: &Record<'_>, key: &[u8], cas: u64, version: u64) -> bool
    ensures { IsTrue result ↔ (found.now.key.now ≡ key.now) × (found.now.cas ≡ cas) × (found.now.version ≡ version) }
{
    found.key == key && found.cas == cas && found.version == version
}
