ghost use Rattle.std.specs.Prelude.{◌≡◌, ◌+◌, ◌^◌, ◌<◌, ◌≤◌, ◌++◌, Some, None, length, take, drop, IfSome, IfNone, if◌then◌else◌};
ghost use Rattle.flash_record.specs.Record.{parts_with, Parts, record_bytes, record_length, content};
ghost use Rattle.flash_record.specs.Writing.{has_room};

use crate::layout::{CHECKSUM_LENGTH, HEAD_LENGTH, MAGIC};
use flash_crc::crc32c;
use flash_names::Key;

/// Writes the record of these parts at the front of `into`, and answers its length in bytes. The answer is
/// `None`, and nothing is written, where the record is longer than `into`, or the value has 2^32 bytes or
/// more.
pub fn write_record(
    into: &mut [u8],
    key: &Key,
    flags: u32,
    cas: u64,
    version: u64,
    value: &[u8],
) -> Option<usize>
    ensures answer { let p = parts_with key.now flags cas version value.now in
        result ≡ (if has_room (length into.old) p then Some (record_length p) else None) }
    ensures written { let p = parts_with key.now flags cas version value.now in
        IfSome result (λ n. into.new ≡ record_bytes p ++ drop n into.old) }
    ensures refused { IfNone result (into.new ≡ into.old) }
{
    let key = key.bytes();
    if value.len() > u32::MAX as usize {
        return None;
    }
    let length = HEAD_LENGTH + CHECKSUM_LENGTH + key.len() + value.len();
    if length > into.len() {
        return None;
    }
    let checksum_offset = write_content(into, key, flags, cas, version, value);
    let sum = crc32c(&into[..checksum_offset]);
    Some(put(into, checksum_offset, &sum.to_be_bytes()))
}

// Writes all of the record but its checksum, and answers where that begins.
fn write_content(
    into: &mut [u8],
    key: &[u8],
    flags: u32,
    cas: u64,
    version: u64,
    value: &[u8],
) -> usize
    requires key { length key.now ≤ 250 }
    requires value { length value.now < 2 ^ 32 }
    requires room { 32 + length key.now + length value.now ≤ length into.old }
    ensures place { result ≡ 28 + length key.now + length value.now }
    ensures written { let p = parts_with key.now flags cas version value.now in
        take result into.new ≡ content p }
    ensures rest { drop result into.new ≡ drop result into.old }
{
    let flags_at = put(into, 0, &[MAGIC[0], MAGIC[1], MAGIC[2], key.len() as u8]);
    let length_at = put(into, flags_at, &flags.to_be_bytes());
    let cas_at = put(into, length_at, &(value.len() as u32).to_be_bytes());
    let version_at = put(into, cas_at, &cas.to_be_bytes());
    let key_at = put(into, version_at, &version.to_be_bytes());
    let value_at = put(into, key_at, key);
    put(into, value_at, value)
}

// Puts these bytes at a place, and answers the place after them.
fn put(into: &mut [u8], at: usize, bytes: &[u8]) -> usize
    requires { at + length bytes.now ≤ length into.old }
    ensures next { result ≡ at + length bytes.now }
    ensures written { take result into.new ≡ take at into.old ++ bytes.now }
    ensures rest { drop result into.new ≡ drop result into.old }
{
    let next = at + bytes.len();
    into[at..next].copy_from_slice(bytes);
    next
}
