ghost use Rattle.std.specs.Prelude.{◌≡◌, ◌+◌, ◌^◌, [], ◌∷◌, length, IfSome};
ghost use Rattle.std.specs.Option.{option_map};
ghost use Rattle.flash_names.specs.Cut.{cut_at};
ghost use Rattle.flash_names.specs.Words.{words, words_if};
ghost use Rattle.flash_names.specs.Numbers.{number_of, value_from, if_below};

use memchr::memchr;

/// The first word of a line whose words have one space between two, and what is after that space,
/// where there is one.
pub fn split_word(line: &[u8]) -> (&[u8], Option<&[u8]>)
    ensures { words line.now ≡ result.0.now ∷ words_if (option_map (λ rest. rest.now) result.1) }
{
    match cut_at_byte(b' ', line) {
        None => (line, None),
        Some((word, rest)) => (word, Some(rest)),
    }
}

/// What is before the first such byte and what is after it, where there is one.
pub fn cut_at_byte(byte: u8, bytes: &[u8]) -> Option<(&[u8], &[u8])>
    ensures parts { option_map (λ parts. (parts.0.now, parts.1.now)) result ≡ cut_at byte bytes.now }
    ensures lengths { IfSome result (λ parts. length parts.0.now + 1 + length parts.1.now ≡ length bytes.now) }
{
    match memchr(byte, bytes) {
        None => None,
        Some(at) => Some((&bytes[..at], &bytes[at + 1..])),
    }
}

/// The number of a word of 1 to 20 decimal digits that is below 2^64, or `None` where the word isn't one.
/// Leading zeros are allowed, a sign isn't.
pub fn read_number(word: &[u8]) -> Option<u64>
    ensures { result ≡ number_of word.now }
{
    if word.is_empty() || word.len() > 20 {
        return None;
    }
    value_of_digits(word)
}

fn value_of_digits(word: &[u8]) -> Option<u64>
    ensures { result ≡ if_below (2 ^ 64) (value_from 0 word.now) }
{
    let mut number: u64 = 0;
    'digits: for digit in word {
        match with_digit(number, *digit) {
            None => return None,
            Some(next) => number = next,
        }
    }
    Some(number)
}

fn with_digit(number: u64, digit: u8) -> Option<u64>
    ensures { result ≡ if_below (2 ^ 64) (value_from number (digit ∷ [])) }
{
    if !digit.is_ascii_digit() {
        return None;
    }
    let tens = number.checked_mul(10)?;
    tens.checked_add(u64::from(digit - b'0'))
}
