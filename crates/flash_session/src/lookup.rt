// What is kept of a lookup that is under way, so that its line is read once, however many keys it has.
ghost use Rattle.std.specs.Prelude.{◌≡◌, ◌≤◌, ℤ, pos, is_some, length, drop, OnOk, IfOk, IfSome, IsNone};
ghost use Rattle.flash_text.specs.Words.{spaced_words};
ghost use Rattle.flash_commands.specs.Asks.{look_of};
ghost use Rattle.flash_session.specs.Lookups.{Keeps, is_lookup, rest_said, IsOneOn, IsPassed};

use flash_commands::Place;
use flash_reply::Command;
use flash_text::{Text, Verb, next_word};
use std::alloc::AllocError;

/// A lookup of the text protocol at a session's front. The bytes of all its keys are kept beside it.
#[derive(Clone, Copy)]
pub struct Lookup {
    /// The command.
    pub verb: Verb,
    /// The exptime that its keys get, as in `Text::exptime`.
    pub exptime: i64,
    /// Whether its replies are left out.
    pub quiet: bool,
    /// How many bytes of its keys are before the key of the step that is next.
    pub at: usize,
    /// How many bytes its front has.
    pub bytes: usize,
    /// The place after them.
    pub next: Place,
}

impl Lookup {
    /// The command without the keys of the steps that are done, by the bytes of all its keys.
    pub fn rest<'a>(&self, keys: &'a [u8]) -> Text<'a>
        requires { self.now.at ≤ length keys.now }
        ensures { result ≡ rest_said self.now keys.now }
    {
        Text {
            verb: self.verb,
            keys: keys.split_at(self.at).1,
            flags: 0,
            exptime: self.exptime,
            length: 0,
            number: 0,
            quiet: self.quiet,
        }
    }

    /// The same lookup after its next step, by the bytes of all its keys.
    pub fn after_key(self, keys: &[u8]) -> Lookup
        requires { self.at ≤ length keys.now }
        ensures { IsOneOn self result keys.now }
    {
        Lookup {
            at: self.at + first_key_end(keys.split_at(self.at).1),
            ..self
        }
    }
}

/// Keeps a command whose front has so many bytes, where it is a lookup, and its keys. Where memory runs out, no keys are
/// kept.
pub fn keep_lookup(
    keys: &mut Vec<u8>,
    command: &Command<'_>,
    bytes: usize,
    next: Place,
) -> Result<Option<Lookup>, AllocError>
    ensures keeps { IfOk result (λ found. IfSome found (λ lookup. Keeps lookup keys.new.items command.now bytes next)) }
    ensures found { IfOk result (λ found. is_some found ≡ is_lookup command.now) }
{
    let Command::Text(text) = command else {
        return Ok(None);
    };
    if !looks_up(text.verb) {
        return Ok(None);
    }
    keys.clear();
    keys.extend_from_slice(text.keys)?;
    Ok(Some(Lookup {
        verb: text.verb,
        exptime: text.exptime,
        quiet: text.quiet,
        at: 0,
        bytes,
        next,
    }))
}

// Whether a command looks its keys up.
fn looks_up(verb: Verb) -> bool
    ensures { (exptime : ℤ) → result ≡ is_some (look_of verb exptime) }
{
    matches!(verb, Verb::Get | Verb::Gets | Verb::Gat | Verb::Gats)
}

// How many bytes are before the second of these keys: the first key's and the space's that ends it.
fn first_key_end(keys: &[u8]) -> usize
    ensures { IsPassed result keys.now }
{
    match next_word(keys) {
        Some((_, rest)) => keys.len() - rest.len(),
        None => 0,
    }
}
