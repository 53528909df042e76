// The words behind a command, by the form of its line.
ghost use Rattle.std.specs.Prelude.{◌≡◌, [], ◌∷◌};
ghost use Rattle.std.specs.Option.{option_map};
ghost use Rattle.std.specs.List.{list_all};
ghost use Rattle.flash_text.specs.Keys.{is_key as is_key_word};
ghost use Rattle.flash_text.specs.Words.{spaced_words, trimmed as trimmed_line};
ghost use Rattle.flash_text.specs.Form as forms;
ghost use Rattle.flash_text.specs.Fields.{no_fields as none_read, with_optionals, keys_at_end, fields_of};

use crate::Verb;
use crate::values::{is_key, number_at_most, read_delay, read_exptime, read_key};
use crate::words::{next_word, trimmed};
use flash_names::read_number;
use std::marker::Model;

// The most bytes that a line may announce.
const MAX_LENGTH: u32 = 2_147_483_647;

// What the words behind a command give: none where a word isn't what its place asks for.
#[derive(Drop)]
pub struct Fields<'a> {
    pub keys: Option<&'a [u8]>,
    pub flags: Option<u32>,
    pub exptime: Option<i64>,
    pub length: Option<u32>,
    pub number: Option<u64>,
    pub quiet: bool,
}

impl<'a> Model for Fields<'a> {
    ghost use Rattle.std.specs.Prelude.{◌<◌, ◌^◌};
    ghost use Rattle.std.specs.Option.{option_map, ForSome};
    ghost use Rattle.flash_text.specs.Said.{FieldValues};

    ghost Value = { FieldValues };

    ghost view = { λ fields. record {
      keys = option_map (λ keys. keys.now) fields.keys;
      flags = fields.flags;
      exptime = fields.exptime;
      length = fields.length;
      number = fields.number;
      quiet = fields.quiet;
    } };

    ghost invariant = { λ fields. ForSome fields.length (λ n. n < 2 ^ 31) };
}

fn no_fields<'a>() -> Fields<'a>
    ensures { result ≡ none_read }
{
    Fields {
        keys: Some(&[]),
        flags: Some(0),
        exptime: Some(0),
        length: Some(0),
        number: Some(0),
        quiet: false,
    }
}

// Those of a line of this command.
pub fn fields_behind(verb: Verb, rest: &[u8]) -> Option<Fields<'_>>
    ensures { result ≡ fields_of (forms.form_of verb) rest.now }
{
    match verb {
        Verb::Get | Verb::Gets => keys_behind(rest),
        Verb::Gat | Verb::Gats => renewal_behind(rest),
        Verb::Store(_) => value_behind(rest),
        Verb::Cas => compare_behind(rest),
        Verb::Delete => delete_behind(rest),
        Verb::Incr | Verb::Decr => delta_behind(rest),
        Verb::Touch => touch_behind(rest),
        Verb::FlushAll => flush_behind(rest),
        Verb::Verbosity => verbosity_behind(rest),
        Verb::Stats | Verb::Version | Verb::Quit | Verb::Mn => nothing_behind(rest),
    }
}

// `<key>` once or more
#[tactic(auto, unfolding(crate::specs::Fields::fields_of))]
fn keys_behind(rest: &[u8]) -> Option<Fields<'_>>
    ensures { result ≡ fields_of forms.keys_form rest.now }
{
    let mut fields = no_fields();
    fields.keys = read_keys(rest)?;
    Some(fields)
}

// `<exptime> <key>`, the key once or more
#[tactic(auto, unfolding(crate::specs::Fields::fields_of))]
fn renewal_behind(rest: &[u8]) -> Option<Fields<'_>>
    ensures { result ≡ fields_of forms.renewal_form rest.now }
{
    let (exptime, rest) = next_word(rest)?;
    let mut fields = no_fields();
    fields.exptime = read_exptime(exptime);
    fields.keys = read_keys(rest)?;
    Some(fields)
}

// `<key> <flags> <exptime> <length>`, then `noreply`
#[tactic(auto, unfolding(crate::specs::Fields::fields_of))]
fn value_behind(rest: &[u8]) -> Option<Fields<'_>>
    ensures { result ≡ fields_of forms.value_form rest.now }
{
    let (key, rest) = next_word(rest)?;
    let (flags, rest) = next_word(rest)?;
    let (exptime, rest) = next_word(rest)?;
    let (length, rest) = next_word(rest)?;
    let fields = Fields {
        keys: read_key(key),
        flags: number_at_most(flags, u32::MAX),
        exptime: read_exptime(exptime),
        length: number_at_most(length, MAX_LENGTH),
        number: Some(0),
        quiet: false,
    };
    with_noreply(fields, rest)
}

// `<key> <flags> <exptime> <length> <cas>`, then `noreply`
#[tactic(auto, unfolding(crate::specs::Fields::fields_of))]
fn compare_behind(rest: &[u8]) -> Option<Fields<'_>>
    ensures { result ≡ fields_of forms.compare_form rest.now }
{
    let (key, rest) = next_word(rest)?;
    let (flags, rest) = next_word(rest)?;
    let (exptime, rest) = next_word(rest)?;
    let (length, rest) = next_word(rest)?;
    let (compare, rest) = next_word(rest)?;
    let fields = Fields {
        keys: read_key(key),
        flags: number_at_most(flags, u32::MAX),
        exptime: read_exptime(exptime),
        length: number_at_most(length, MAX_LENGTH),
        number: read_number(compare),
        quiet: false,
    };
    with_noreply(fields, rest)
}

// `<key>`, then `0`, then `noreply`
#[tactic(auto, unfolding(crate::specs::Fields::fields_of))]
fn delete_behind(rest: &[u8]) -> Option<Fields<'_>>
    ensures { result ≡ fields_of forms.delete_form rest.now }
{
    let (key, rest) = next_word(rest)?;
    let mut fields = no_fields();
    fields.keys = read_key(key);
    match next_word(rest) {
        Some((word, behind)) if word == b"0".as_slice() => with_noreply(fields, behind),
        _ => with_noreply(fields, rest),
    }
}

// `<key> <delta>`, then `noreply`
#[tactic(auto, unfolding(crate::specs::Fields::fields_of))]
fn delta_behind(rest: &[u8]) -> Option<Fields<'_>>
    ensures { result ≡ fields_of forms.delta_form rest.now }
{
    let (key, rest) = next_word(rest)?;
    let (delta, rest) = next_word(rest)?;
    let mut fields = no_fields();
    fields.keys = read_key(key);
    fields.number = read_number(delta);
    with_noreply(fields, rest)
}

// `<key> <exptime>`, then `noreply`
#[tactic(auto, unfolding(crate::specs::Fields::fields_of))]
fn touch_behind(rest: &[u8]) -> Option<Fields<'_>>
    ensures { result ≡ fields_of forms.touch_form rest.now }
{
    let (key, rest) = next_word(rest)?;
    let (exptime, rest) = next_word(rest)?;
    let mut fields = no_fields();
    fields.keys = read_key(key);
    fields.exptime = read_exptime(exptime);
    with_noreply(fields, rest)
}

// Nothing, then a delay, then `noreply`
#[tactic(auto, unfolding(crate::specs::Fields::fields_of))]
fn flush_behind(rest: &[u8]) -> Option<Fields<'_>>
    ensures { result ≡ fields_of forms.flush_form rest.now }
{
    let mut fields = no_fields();
    let Some((word, behind)) = next_word(rest) else {
        return Some(fields);
    };
    match read_delay(word) {
        None => with_noreply(fields, rest),
        Some(delay) => {
            fields.exptime = Some(delay);
            with_noreply(fields, behind)
        }
    }
}

// `<n>`, then `noreply`
#[tactic(auto, unfolding(crate::specs::Fields::fields_of))]
fn verbosity_behind(rest: &[u8]) -> Option<Fields<'_>>
    ensures { result ≡ fields_of forms.verbosity_form rest.now }
{
    let (number, rest) = next_word(rest)?;
    let mut fields = no_fields();
    fields.number = read_number(number);
    with_noreply(fields, rest)
}

#[tactic(auto, unfolding(crate::specs::Fields::fields_of))]
fn nothing_behind(rest: &[u8]) -> Option<Fields<'_>>
    ensures { result ≡ fields_of forms.bare_form rest.now }
{
    match next_word(rest) {
        None => Some(no_fields()),
        Some(_) => None,
    }
}

// The word `noreply` or none.
fn with_noreply<'a>(mut fields: Fields<'a>, rest: &[u8]) -> Option<Fields<'a>>
    ensures { result ≡ with_optionals (forms.Noreply ∷ []) (spaced_words rest.now) fields.entry }
{
    let Some((word, rest)) = next_word(rest) else {
        return Some(fields);
    };
    if word != b"noreply".as_slice() || next_word(rest).is_some() {
        return None;
    }
    fields.quiet = true;
    Some(fields)
}

// The bytes of one key or more, none where one of them isn't a key; none where there is no word.
fn read_keys(rest: &[u8]) -> Option<Option<&[u8]>>
    ensures { option_map (option_map (λ keys. keys.now)) result
        ≡ keys_at_end (trimmed_line rest.now) (spaced_words rest.now) }
{
    let (first, behind) = next_word(rest)?;
    if is_key(first) && all_keys(behind) {
        Some(Some(trimmed(rest)))
    } else {
        Some(None)
    }
}

fn all_keys(line: &[u8]) -> bool
    ensures { result ≡ list_all is_key_word (spaced_words line.now) }
{
    let mut left = line;
    'keys: while let Some((word, rest)) = next_word(left) {
        if !is_key(word) {
            return false;
        }
        left = rest;
    }
    true
}
