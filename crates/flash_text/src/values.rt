ghost use Rattle.std.specs.Prelude.{◌≡◌, ◌+◌, pos};
ghost use Rattle.std.specs.Option.{option_map};
ghost use Rattle.flash_text.specs.Keys.{is_key, key_of};
ghost use Rattle.flash_text.specs.Numbers.{number_below, seconds_of, delay_of, exptime_of};

use flash_lanes::all_key_bytes;
use flash_names::{MAX_KEY_LEN, read_number};

// The most digits of an exptime.
const MAX_DIGITS: usize = 18;

/// Whether a word is a key of the text protocol: 1 to 250 bytes, each above 0x20 and none 0x7f.
pub fn is_key(word: &[u8]) -> bool
    ensures { result ≡ is_key word.now }
{
    !word.is_empty() && word.len() <= MAX_KEY_LEN && all_key_bytes(word)
}

// The word, where it is a key of the text protocol.
pub fn read_key(word: &[u8]) -> Option<&[u8]>
    ensures { option_map (λ key. key.now) result ≡ key_of word.now }
{
    if is_key(word) { Some(word) } else { None }
}

/// The number of a word of 1 to 20 decimal digits, where it is at most `most`. Leading zeros are allowed.
pub fn number_at_most(word: &[u8], most: u32) -> Option<u32>
    ensures { result ≡ number_below (most + 1) word.now }
{
    let number = u32::try_from(read_number(word)?).ok()?;
    (number <= most).then_some(number)
}

/// The exptime of a word of 1 to 18 decimal digits, with `-` before them where it is negative.
pub fn read_exptime(word: &[u8]) -> Option<i64>
    ensures { result ≡ exptime_of word.now }
{
    match word {
        [b'-', digits @ ..] => read_delay(digits).map(|seconds| 0 - seconds),
        _ => read_delay(word),
    }
}

// The flush delay of a word of 1 to 18 decimal digits.
pub fn read_delay(digits: &[u8]) -> Option<i64>
    ensures { result ≡ delay_of digits.now }
{
    if digits.len() > MAX_DIGITS {
        return None;
    }
    i64::try_from(read_number(digits)?).ok()
}
