// What commands ask of the store.
ghost use Rattle.std.specs.Prelude.{◌≡◌};
ghost use Rattle.std.specs.Option.{option_map};
ghost use Rattle.flash_commands.specs.Asks.{look_of, put_of, sum_of, change_of, key_ask, whole_ask, meta_ask};

use flash_entry::{Arith, Ask, Create, Look, Mode, Put};
use flash_meta::{Meta, MetaVerb};
use flash_names::{Blob, Key};
use flash_text::{Text, Verb};

/// What a command of the text protocol asks at one of its keys, or `None` where it asks nothing at a key. `block` is the
/// data that follows its line, and nothing for a command without data.
pub fn key_ask(text: &Text<'_>, key: Key, block: Blob) -> Option<Ask>
    ensures { result ≡ key_ask text.now key block }
{
    match look_of(text.verb, text.exptime) {
        Some(look) => Some(Ask::Look(key, look)),
        None => change_of(text, key, block),
    }
}

/// What a command of the text protocol without a key asks, or `None` where it asks nothing.
pub fn whole_ask(text: &Text<'_>) -> Option<Ask>
    ensures { result ≡ whole_ask text.now.verb text.now.exptime }
{
    match text.verb {
        Verb::FlushAll => Some(Ask::Flush(text.exptime)),
        Verb::Stats => Some(Ask::Stats),
        _ => None,
    }
}

/// What a command of the meta protocol asks. `block` is the data that follows its line, and nothing for a command without
/// data.
pub fn meta_ask(meta: &Meta<'_>, block: Blob) -> Ask
    ensures { result ≡ meta_ask meta.now.verb meta.now block }
{
    let key = meta.key.copy();
    match meta.verb {
        MetaVerb::Get => Ask::Look(
            key,
            Look {
                value: meta.value,
                renew: meta.exptime,
            },
        ),
        MetaVerb::Set => Ask::Store(Put {
            key,
            mode: meta.mode,
            flags: meta.flags,
            exptime: meta.exptime.unwrap_or(0),
            compare: meta.compare,
            value: block,
        }),
        MetaVerb::Delete => Ask::Delete(key, meta.compare),
        MetaVerb::Arith => Ask::Sum(Arith {
            key,
            down: meta.down,
            delta: meta.delta,
            compare: meta.compare,
            renew: meta.exptime,
            create: created(meta.create, meta.start),
        }),
    }
}

// What arithmetic stores where there is no item, if anything.
fn created(exptime: Option<i64>, start: u64) -> Option<Create>
    ensures { result ≡ option_map (λ exptime. record { exptime = exptime; start = start }) exptime }
{
    match exptime {
        None => None,
        Some(exptime) => Some(Create { exptime, start }),
    }
}

// How a key is looked up, where the command does that.
fn look_of(verb: Verb, exptime: i64) -> Option<Look>
    ensures { result ≡ look_of verb exptime }
{
    match verb {
        Verb::Get | Verb::Gets => Some(Look {
            value: true,
            renew: None,
        }),
        Verb::Gat | Verb::Gats => Some(Look {
            value: true,
            renew: Some(exptime),
        }),
        _ => None,
    }
}

// What a command that looks nothing up asks at its key.
fn change_of(text: &Text<'_>, key: Key, block: Blob) -> Option<Ask>
    ensures { result ≡ change_of text.now.verb text.now key block }
{
    match text.verb {
        Verb::Store(mode) => Some(put_of(text, mode, None, key, block)),
        Verb::Cas => Some(put_of(text, Mode::Set, Some(text.number), key, block)),
        Verb::Delete => Some(Ask::Delete(key, None)),
        Verb::Incr => Some(sum_of(text, false, key)),
        Verb::Decr => Some(sum_of(text, true, key)),
        Verb::Touch => Some(Ask::Touch(key, text.exptime)),
        _ => None,
    }
}

fn put_of(text: &Text<'_>, mode: Mode, compare: Option<u64>, key: Key, value: Blob) -> Ask
    ensures { result ≡ put_of text.now mode compare key value }
{
    Ask::Store(Put {
        key,
        mode,
        flags: text.flags,
        exptime: text.exptime,
        compare,
        value,
    })
}

fn sum_of(text: &Text<'_>, down: bool, key: Key) -> Ask
    ensures { result ≡ sum_of text.now down key }
{
    Ask::Sum(Arith {
        key,
        down,
        delta: text.number,
        compare: None,
        renew: None,
        create: None,
    })
}
