// The values that a word may stand for.
ghost use Rattle.std.specs.Prelude.{◌≡◌, ◌*◌, ◌≤◌, IfOk, length};
ghost use Rattle.std.specs.List.{list_all};
ghost use Rattle.std.specs.Option.{option_and_then};
ghost use Rattle.std.specs.Result.{result_ok};
ghost use Rattle.hex.specs.Hex.{decode_of};
ghost use Rattle.flash_entry.specs.WordValues as values;

use flash_names::{Blob, Key, MAX_KEY_LEN, read_number};
use hex::FromHexError;
use std::alloc::{AllocError, Global};

#[tactic(auto, unfolding(crate::specs::WordValues::plain_number))]
pub fn plain_number(word: &[u8]) -> Option<u64>
    ensures { result ≡ values.plain_number word.now }
{
    match word {
        [b'0', _, ..] => None,
        _ => read_number(word),
    }
}

#[tactic(auto, unfolding(crate::specs::WordValues::narrow_number))]
pub fn narrow_number(word: &[u8]) -> Option<u32>
    ensures { result ≡ values.narrow_number word.now }
{
    u32::try_from(plain_number(word)?).ok()
}

#[tactic(auto, unfolding(crate::specs::WordValues::signed_number))]
pub fn signed_number(word: &[u8]) -> Option<i64>
    ensures { result ≡ values.signed_number word.now }
{
    match word {
        [] => None,
        [b'-', digits @ ..] => below_zero(plain_number(digits)?),
        _ => i64::try_from(plain_number(word)?).ok(),
    }
}

// The number that is this far below zero, where there is one.
fn below_zero(distance: u64) -> Option<i64>
    ensures { result ≡ values.below_zero distance }
{
    let more = i64::try_from(distance.checked_sub(1)?).ok()?;
    Some(-1 - more)
}

#[tactic(auto, unfolding(crate::specs::WordValues::optional_number))]
pub fn optional_number(word: &[u8]) -> Option<Option<u64>>
    ensures { result ≡ values.optional_number word.now }
{
    if word == b"-".as_slice() {
        return Some(None);
    }
    Some(Some(plain_number(word)?))
}

#[tactic(auto, unfolding(crate::specs::WordValues::optional_signed))]
pub fn optional_signed(word: &[u8]) -> Option<Option<i64>>
    ensures { result ≡ values.optional_signed word.now }
{
    if word == b"-".as_slice() {
        return Some(None);
    }
    Some(Some(signed_number(word)?))
}

#[tactic(auto, unfolding(crate::specs::WordValues::number_or_none))]
pub fn number_or_none(word: &[u8]) -> Option<Option<u64>>
    ensures { result ≡ values.number_or_none word.now }
{
    if word == b"none".as_slice() {
        return Some(None);
    }
    Some(Some(plain_number(word)?))
}

#[tactic(auto, unfolding(crate::specs::WordValues::narrow_or_here))]
pub fn narrow_or_here(word: &[u8]) -> Option<Option<u32>>
    ensures { result ≡ values.narrow_or_here word.now }
{
    if word == b"here".as_slice() {
        return Some(None);
    }
    Some(Some(narrow_number(word)?))
}

fn are_lower_digits(word: &[u8]) -> bool
    ensures { result ≡ list_all values.is_lower_digit word.now }
{
    word.iter()
        .all(|b| b.is_ascii_digit() || (*b >= b'a' && *b <= b'f'))
}

#[tactic(auto, unfolding(crate::specs::WordValues::key_of_digits, crate::specs::WordValues::bytes_of_digits))]
pub fn key_of_digits(word: &[u8]) -> Option<Key>
    ensures { result ≡ values.key_of_digits word.now }
{
    if word.is_empty() || !are_lower_digits(word) {
        return None;
    }
    key_of_some_digits(word)
}

// The key of one digit or more.
#[tactic(auto, using(crate::proofs::DigitLemmas::too_long))]
fn key_of_some_digits(word: &[u8]) -> Option<Key>
    requires { 1 ≤ length word.now }
    ensures { result ≡ option_and_then values.if_key (result_ok (decode_of word.now)) }
{
    if word.len() > 2 * MAX_KEY_LEN {
        return None;
    }
    let mut bytes = [0; MAX_KEY_LEN];
    let bytes = &mut bytes[..word.len() / 2];
    hex::decode_to_slice(word, bytes).ok()?;
    Key::from_bytes(bytes)
}

#[tactic(auto, unfolding(crate::specs::WordValues::bytes_of_digits))]
fn bytes_of_digits(alloc: Global, word: &[u8]) -> Result<Option<Blob>, AllocError>
    ensures { IfOk result (λ bytes. bytes ≡ values.bytes_of_digits word.now) }
{
    if word.is_empty() || !are_lower_digits(word) {
        return Ok(None);
    }
    match hex::decode(alloc, word) {
        Ok(bytes) => Ok(Some(Blob::from(bytes))),
        Err(FromHexError::OutOfMemory) => Err(AllocError),
        Err(_) => Ok(None),
    }
}

#[tactic(auto, unfolding(crate::specs::WordValues::value_of_digits))]
pub fn value_of_digits(alloc: Global, word: &[u8]) -> Result<Option<Blob>, AllocError>
    ensures { IfOk result (λ value. value ≡ values.value_of_digits word.now) }
{
    if word == b"-".as_slice() {
        return Ok(Some(Blob::from_slice(alloc, &[])?));
    }
    bytes_of_digits(alloc, word)
}

#[tactic(auto, unfolding(crate::specs::WordValues::bytes_or_failed))]
pub fn bytes_or_failed(alloc: Global, word: &[u8]) -> Result<Option<Option<Blob>>, AllocError>
    ensures { IfOk result (λ bytes. bytes ≡ values.bytes_or_failed word.now) }
{
    if word == b"failed".as_slice() {
        return Ok(Some(None));
    }
    Ok(value_of_digits(alloc, word)?.map(Some))
}
