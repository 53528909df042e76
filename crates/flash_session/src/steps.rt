// The steps of a command.
ghost use Rattle.std.specs.Prelude.{◌≡◌, ℕ, List, [], ◌∷◌, is_some, slice_get, IfOk};
ghost use Rattle.std.specs.Option.{option_map};
ghost use Rattle.flash_text.specs.Words.{spaced_words};
ghost use Rattle.flash_text.specs.Said.{Said};
ghost use Rattle.flash_commands.specs.Asks.{asks_of, text_asks, key_ask};

use flash_commands::{key_ask, meta_ask, whole_ask};
use flash_entry::Ask;
use flash_names::{Blob, Key};
use flash_reply::Command;
use flash_text::{Text, Verb, next_word};
use std::alloc::{AllocError, Global};

/// The step of this number of a command, counted from 0, or `None` after the last one. It takes the memory of the block.
pub fn ask_at(
    alloc: Global,
    command: &Command<'_>,
    block: &[u8],
    step: usize,
) -> Result<Option<Ask>, AllocError>
    ensures { IfOk result (λ ask. ask ≡ slice_get (asks_of command.now block.now) step) }
{
    match command {
        Command::Text(text) => text_ask_at(alloc, text, block, step),
        Command::Meta(meta) => {
            if step > 0 {
                return Ok(None);
            }
            Ok(Some(meta_ask(meta, Blob::from_slice(alloc, block)?)))
        }
    }
}

/// Whether a command has a step of this number, counted from 0.
pub fn has_step(command: &Command<'_>, step: usize) -> bool
    ensures { (block : List ℕ) → result ≡ is_some (slice_get (asks_of command.now block) step) }
{
    match command {
        Command::Text(text) => has_text_step(text, step),
        Command::Meta(_) => step == 0,
    }
}

fn text_ask_at(
    alloc: Global,
    text: &Text<'_>,
    block: &[u8],
    step: usize,
) -> Result<Option<Ask>, AllocError>
    ensures { IfOk result (λ ask. ask ≡ slice_get (text_asks text.now block.now) step) }
{
    if let Some(whole) = whole_ask(text) {
        return Ok(only(whole, step));
    }
    let Some(word) = word_at(text.keys, step) else {
        return Ok(None);
    };
    let key = Key::from_bytes(word).ok_or(AllocError)?;
    Ok(key_ask(text, key, Blob::from_slice(alloc, block)?))
}

// The step of this number of a command that has one step.
fn only(ask: Ask, step: usize) -> Option<Ask>
    ensures { result ≡ slice_get (ask ∷ []) step }
{
    if step == 0 { Some(ask) } else { None }
}

fn has_text_step(text: &Text<'_>, step: usize) -> bool
    ensures { (block : List ℕ) → result ≡ is_some (slice_get (text_asks text.now block) step) }
{
    if whole_ask(text).is_some() {
        return step == 0;
    }
    asks_at_keys(text.verb) && word_at(text.keys, step).is_some()
}

// Whether a command asks something at a key.
fn asks_at_keys(verb: Verb) -> bool
    ensures { (said : Said) (key block : List ℕ) → said.verb ≡ verb → result ≡ is_some (key_ask said key block) }
{
    match verb {
        Verb::Get | Verb::Gets | Verb::Gat | Verb::Gats => true,
        Verb::Store(_) | Verb::Cas | Verb::Delete | Verb::Incr | Verb::Decr | Verb::Touch => true,
        _ => false,
    }
}

// The word of this number, counted from 0.
fn word_at(words: &[u8], number: usize) -> Option<&[u8]>
    ensures { option_map (λ word. word.now) result ≡ slice_get (spaced_words words.now) number }
{
    let mut left = words;
    let mut n = number;
    'words: while let Some((word, rest)) = next_word(left) {
        if n == 0 {
            return Some(word);
        }
        n -= 1;
        left = rest;
    }
    None
}
