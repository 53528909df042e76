// The words of the flags, read from left to right.
ghost use Rattle.std.specs.Prelude.{◌≡◌, ◌||◌, ℕ, List, [], OnOk};
ghost use Rattle.std.specs.Str.{bytes_eq};
ghost use Rattle.flash_text.specs.Words.{spaced_words};
ghost use Rattle.flash_meta.specs.Flags.{is_bare as is_bare_flag};
ghost use Rattle.flash_meta.specs.FlagReading as reading;

use crate::MetaVerb;
use crate::flags::{Flag, Flags, flag_of};
use flash_entry::Mode;
use flash_names::{MAX_KEY_LEN, read_number};
use flash_text::{Refusal, next_word, number_at_most, read_exptime};

// How many letters a table has a place for.
const LETTERS: usize = 128;

fn no_flags() -> Flags
    ensures { result ≡ reading.no_flags }
{
    Flags {
        base64: false,
        quiet: false,
        value: false,
        exptime: None,
        flags: 0,
        compare: None,
        mode: Mode::Set,
        down: false,
        delta: 1,
        create: None,
        start: 0,
    }
}

// A table that no letter was noted in.
fn no_letters() -> [bool; LETTERS]
    ensures { reading.AreGiven [] result }
{
    [false; LETTERS]
}

// What the flags of a line say, or the first refusal.
#[tactic(auto, unfolding(crate::specs::FlagReading::flags_in))]
pub fn read_flags(verb: MetaVerb, asked: &[u8]) -> Result<Flags, Refusal>
    ensures { result ≡ reading.flags_in verb (spaced_words asked.now) }
{
    let mut flags = no_flags();
    let mut given = no_letters();
    let mut left = asked;
    'flags: while let Some((word, rest)) = next_word(left) {
        flags = with_word(verb, word, &mut given, flags)?;
        left = rest;
    }
    Ok(flags)
}

// The word of one flag more, whose letter is noted in the table of those that were given.
fn with_word(
    verb: MetaVerb,
    word: &[u8],
    given: &mut [bool; LETTERS],
    flags: Flags,
) -> Result<Flags, Refusal>
    ensures reads { (letters : List ℕ) → reading.AreGiven letters given.old
        → result ≡ reading.read_word verb letters word.now flags }
    ensures given { (letters : List ℕ) → reading.AreGiven letters given.old
        → OnOk result (reading.AreGiven (reading.given_with letters word.now) given.new) }
{
    let [letter, token @ ..] = word else {
        return Ok(flags);
    };
    let Some(flag) = flag_of(verb, *letter) else {
        return Err(Refusal::BadFlag);
    };
    if is_bare(flag) && !token.is_empty() {
        return Err(Refusal::BadFlag);
    }
    let at = *letter as usize;
    if given[at] {
        return Err(Refusal::DuplicateFlag);
    }
    given[at] = true;
    with_flag(flag, token, flags).ok_or(Refusal::BadToken)
}

fn is_bare(flag: Flag) -> bool
    ensures { result ≡ is_bare_flag flag }
{
    matches!(flag, Flag::Base64 | Flag::Quiet | Flag::Value | Flag::Shown)
}

// A flag with its token, where that can be read.
fn with_flag(flag: Flag, token: &[u8], flags: Flags) -> Option<Flags>
    ensures { result ≡ reading.with_flag flag token.now flags }
{
    let mut flags = flags;
    match flag {
        Flag::Base64 => flags.base64 = true,
        Flag::Quiet => flags.quiet = true,
        Flag::Value => flags.value = true,
        Flag::Shown => {}
        Flag::Opaque => {
            if token.is_empty() || token.len() > MAX_KEY_LEN {
                return None;
            }
        }
        Flag::Exptime => flags.exptime = Some(read_exptime(token)?),
        Flag::ClientFlags => flags.flags = number_at_most(token, u32::MAX)?,
        Flag::Compare => flags.compare = Some(read_number(token)?),
        Flag::StoreMode => flags.mode = mode_of(token)?,
        Flag::Direction => flags.down = down_of(token)?,
        Flag::Delta => flags.delta = read_number(token)?,
        Flag::Create => flags.create = Some(read_exptime(token)?),
        Flag::Start => flags.start = read_number(token)?,
    }
    Some(flags)
}

// How a value is stored, by its letter.
fn mode_of(token: &[u8]) -> Option<Mode>
    ensures { result ≡ reading.mode_of token.now }
{
    if is_either(token, b"S", b"s") {
        Some(Mode::Set)
    } else if is_either(token, b"E", b"e") {
        Some(Mode::Add)
    } else if is_either(token, b"A", b"a") {
        Some(Mode::Append)
    } else if is_either(token, b"P", b"p") {
        Some(Mode::Prepend)
    } else if is_either(token, b"R", b"r") {
        Some(Mode::Replace)
    } else {
        None
    }
}

// Whether a number goes down, by its letter.
fn down_of(token: &[u8]) -> Option<bool>
    ensures { result ≡ reading.down_of token.now }
{
    if is_either(token, b"I", b"i") || token == b"+".as_slice() {
        Some(false)
    } else if is_either(token, b"D", b"d") || token == b"-".as_slice() {
        Some(true)
    } else {
        None
    }
}

fn is_either(token: &[u8], one: &[u8], other: &[u8]) -> bool
    ensures { result ≡ (bytes_eq token.now one.now || bytes_eq token.now other.now) }
{
    token == one || token == other
}
