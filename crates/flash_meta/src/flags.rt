// The flags of a line, and what they say.
ghost use Rattle.std.specs.Prelude.{◌≡◌, ◌<◌, IfSome};
ghost use Rattle.flash_meta.specs.Flags as letters;

use crate::MetaVerb;
use flash_entry::Mode;

// What a flag's letter means.
#[derive(Clone, Copy, Debug)]
pub enum Flag {
    // The key is base64.
    Base64,
    // The common reply is left out.
    Quiet,
    // The value is wanted.
    Value,
    // It is only given back: the key, the CAS number, the item's flags, size or times.
    Shown,
    // A token that is given back.
    Opaque,
    Exptime,
    ClientFlags,
    Compare,
    StoreMode,
    Direction,
    Delta,
    // The exptime of an item that is created.
    Create,
    Start,
}

// What the flags of a line say.
#[derive(Clone, Copy)]
pub struct Flags {
    pub base64: bool,
    pub quiet: bool,
    pub value: bool,
    pub exptime: Option<i64>,
    pub flags: u32,
    pub compare: Option<u64>,
    pub mode: Mode,
    pub down: bool,
    pub delta: u64,
    pub create: Option<i64>,
    pub start: u64,
}

// What a letter means to a command, where it has it.
pub fn flag_of(verb: MetaVerb, letter: u8) -> Option<Flag>
    ensures flag { result ≡ letters.flag_of verb letter }
    ensures small { IfSome result (λ _. letter < 128) }
{
    match verb {
        MetaVerb::Get => get_flag(letter),
        MetaVerb::Set => set_flag(letter),
        MetaVerb::Delete => delete_flag(letter),
        MetaVerb::Arith => arith_flag(letter),
    }
}

#[tactic(auto, unfolding(crate::specs::Flags::flag_of))]
fn get_flag(letter: u8) -> Option<Flag>
    ensures flag { result ≡ letters.flag_of MetaVerb.Get letter }
    ensures small { IfSome result (λ _. letter < 128) }
{
    match letter {
        b'b' => Some(Flag::Base64),
        b'q' => Some(Flag::Quiet),
        b'v' => Some(Flag::Value),
        b'k' | b'c' | b'f' | b's' | b'h' | b'l' | b't' => Some(Flag::Shown),
        b'O' => Some(Flag::Opaque),
        b'T' => Some(Flag::Exptime),
        _ => None,
    }
}

#[tactic(auto, unfolding(crate::specs::Flags::flag_of))]
fn set_flag(letter: u8) -> Option<Flag>
    ensures flag { result ≡ letters.flag_of MetaVerb.Set letter }
    ensures small { IfSome result (λ _. letter < 128) }
{
    match letter {
        b'b' => Some(Flag::Base64),
        b'q' => Some(Flag::Quiet),
        b'k' | b'c' => Some(Flag::Shown),
        b'O' => Some(Flag::Opaque),
        b'T' => Some(Flag::Exptime),
        b'F' => Some(Flag::ClientFlags),
        b'C' => Some(Flag::Compare),
        b'M' => Some(Flag::StoreMode),
        _ => None,
    }
}

#[tactic(auto, unfolding(crate::specs::Flags::flag_of))]
fn delete_flag(letter: u8) -> Option<Flag>
    ensures flag { result ≡ letters.flag_of MetaVerb.Delete letter }
    ensures small { IfSome result (λ _. letter < 128) }
{
    match letter {
        b'b' => Some(Flag::Base64),
        b'q' => Some(Flag::Quiet),
        b'k' => Some(Flag::Shown),
        b'O' => Some(Flag::Opaque),
        b'C' => Some(Flag::Compare),
        _ => None,
    }
}

#[tactic(auto, unfolding(crate::specs::Flags::flag_of))]
fn arith_flag(letter: u8) -> Option<Flag>
    ensures flag { result ≡ letters.flag_of MetaVerb.Arith letter }
    ensures small { IfSome result (λ _. letter < 128) }
{
    match letter {
        b'b' => Some(Flag::Base64),
        b'q' => Some(Flag::Quiet),
        b'v' => Some(Flag::Value),
        b'k' | b'c' | b't' => Some(Flag::Shown),
        b'O' => Some(Flag::Opaque),
        b'T' => Some(Flag::Exptime),
        b'C' => Some(Flag::Compare),
        b'M' => Some(Flag::Direction),
        b'D' => Some(Flag::Delta),
        b'N' => Some(Flag::Create),
        b'J' => Some(Flag::Start),
        _ => None,
    }
}
