// The commands by their words.
ghost use Rattle.std.specs.Prelude.{◌≡◌};
ghost use Rattle.flash_text.specs.Form as forms;

use crate::Verb;
use flash_entry::Mode;

#[tactic(auto, unfolding(crate::specs::Form::lookup_verb))]
fn lookup_verb(word: &[u8]) -> Option<Verb>
    ensures { result ≡ forms.lookup_verb word.now }
{
    if word == b"get".as_slice() {
        Some(Verb::Get)
    } else if word == b"gets".as_slice() {
        Some(Verb::Gets)
    } else if word == b"gat".as_slice() {
        Some(Verb::Gat)
    } else if word == b"gats".as_slice() {
        Some(Verb::Gats)
    } else {
        None
    }
}

#[tactic(auto, unfolding(crate::specs::Form::storage_verb))]
fn storage_verb(word: &[u8]) -> Option<Verb>
    ensures { result ≡ forms.storage_verb word.now }
{
    if word == b"set".as_slice() {
        Some(Verb::Store(Mode::Set))
    } else if word == b"add".as_slice() {
        Some(Verb::Store(Mode::Add))
    } else if word == b"replace".as_slice() {
        Some(Verb::Store(Mode::Replace))
    } else if word == b"append".as_slice() {
        Some(Verb::Store(Mode::Append))
    } else if word == b"prepend".as_slice() {
        Some(Verb::Store(Mode::Prepend))
    } else if word == b"cas".as_slice() {
        Some(Verb::Cas)
    } else {
        None
    }
}

#[tactic(auto, unfolding(crate::specs::Form::change_verb))]
fn change_verb(word: &[u8]) -> Option<Verb>
    ensures { result ≡ forms.change_verb word.now }
{
    if word == b"delete".as_slice() {
        Some(Verb::Delete)
    } else if word == b"incr".as_slice() {
        Some(Verb::Incr)
    } else if word == b"decr".as_slice() {
        Some(Verb::Decr)
    } else if word == b"touch".as_slice() {
        Some(Verb::Touch)
    } else {
        None
    }
}

#[tactic(auto, unfolding(crate::specs::Form::keyless_verb))]
fn keyless_verb(word: &[u8]) -> Option<Verb>
    ensures { result ≡ forms.keyless_verb word.now }
{
    if word == b"flush_all".as_slice() {
        Some(Verb::FlushAll)
    } else if word == b"verbosity".as_slice() {
        Some(Verb::Verbosity)
    } else if word == b"stats".as_slice() {
        Some(Verb::Stats)
    } else if word == b"version".as_slice() {
        Some(Verb::Version)
    } else if word == b"quit".as_slice() {
        Some(Verb::Quit)
    } else if word == b"mn".as_slice() {
        Some(Verb::Mn)
    } else {
        None
    }
}

#[tactic(auto, unfolding(crate::specs::Form::verb_of))]
pub fn verb_of(word: &[u8]) -> Option<Verb>
    ensures { result ≡ forms.verb_of word.now }
{
    if let Some(verb) = lookup_verb(word) {
        return Some(verb);
    }
    if let Some(verb) = storage_verb(word) {
        return Some(verb);
    }
    if let Some(verb) = change_verb(word) {
        return Some(verb);
    }
    keyless_verb(word)
}

pub fn is_storage(verb: Verb) -> bool
    ensures { result ≡ forms.is_storage verb }
{
    matches!(verb, Verb::Store(_) | Verb::Cas)
}

pub fn takes_delta(verb: Verb) -> bool
    ensures { result ≡ forms.takes_delta verb }
{
    matches!(verb, Verb::Incr | Verb::Decr)
}
