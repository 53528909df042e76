// What the fixed words of the journal stand for.
ghost use Rattle.std.specs.Prelude.{◌≡◌};
ghost use Rattle.flash_entry.specs.FixedWords as fixed;

use crate::kinds::{ItemKind, Kind, LookupKind, PageKind, StepKind, Verb};
use crate::{Cause, DropCause, EndCause, Gone, Mode, Stored, Sum, Touched};

#[tactic(auto, unfolding(crate::specs::FixedWords::step_kind))]
pub fn step_kind(word: &[u8]) -> Option<StepKind>
    ensures { result ≡ fixed.step_kind word.now }
{
    if word == b"clock".as_slice() {
        Some(StepKind::Clock)
    } else if word == b"did".as_slice() {
        Some(StepKind::Did)
    } else {
        None
    }
}

#[tactic(auto, unfolding(crate::specs::FixedWords::lookup_kind))]
pub fn lookup_kind(word: &[u8]) -> Option<LookupKind>
    ensures { result ≡ fixed.lookup_kind word.now }
{
    if word == b"looked".as_slice() {
        Some(LookupKind::Looked)
    } else if word == b"buffered".as_slice() {
        Some(LookupKind::FromBuffer)
    } else if word == b"read-began".as_slice() {
        Some(LookupKind::ReadBegan)
    } else if word == b"read-ended".as_slice() {
        Some(LookupKind::ReadEnded)
    } else if word == b"closed".as_slice() {
        Some(LookupKind::Closed)
    } else {
        None
    }
}

#[tactic(auto, unfolding(crate::specs::FixedWords::item_kind))]
pub fn item_kind(word: &[u8]) -> Option<ItemKind>
    ensures { result ≡ fixed.item_kind word.now }
{
    if word == b"moved".as_slice() {
        Some(ItemKind::Moved)
    } else if word == b"recached".as_slice() {
        Some(ItemKind::Recached)
    } else if word == b"dropped".as_slice() {
        Some(ItemKind::Dropped)
    } else {
        None
    }
}

#[tactic(auto, unfolding(crate::specs::FixedWords::page_kind))]
pub fn page_kind(word: &[u8]) -> Option<PageKind>
    ensures { result ≡ fixed.page_kind word.now }
{
    if word == b"write-began".as_slice() {
        Some(PageKind::WriteBegan)
    } else if word == b"write-ended".as_slice() {
        Some(PageKind::WriteEnded)
    } else if word == b"opened".as_slice() {
        Some(PageKind::Opened)
    } else if word == b"ended".as_slice() {
        Some(PageKind::Ended)
    } else if word == b"freed".as_slice() {
        Some(PageKind::Freed)
    } else {
        None
    }
}

#[tactic(auto, unfolding(crate::specs::FixedWords::kind))]
pub fn kind(word: &[u8]) -> Option<Kind>
    ensures { result ≡ fixed.kind word.now }
{
    if let Some(kind) = step_kind(word) {
        return Some(Kind::Step(kind));
    }
    if let Some(kind) = lookup_kind(word) {
        return Some(Kind::Lookup(kind));
    }
    if let Some(kind) = item_kind(word) {
        return Some(Kind::Item(kind));
    }
    Some(Kind::Page(page_kind(word)?))
}

#[tactic(auto, unfolding(crate::specs::FixedWords::mode))]
pub fn mode(word: &[u8]) -> Option<Mode>
    ensures { result ≡ fixed.mode word.now }
{
    if word == b"set".as_slice() {
        Some(Mode::Set)
    } else if word == b"add".as_slice() {
        Some(Mode::Add)
    } else if word == b"replace".as_slice() {
        Some(Mode::Replace)
    } else if word == b"append".as_slice() {
        Some(Mode::Append)
    } else if word == b"prepend".as_slice() {
        Some(Mode::Prepend)
    } else {
        None
    }
}

#[tactic(auto, unfolding(crate::specs::FixedWords::other_verb))]
pub fn other_verb(word: &[u8]) -> Option<Verb>
    ensures { result ≡ fixed.other_verb word.now }
{
    if word == b"delete".as_slice() {
        Some(Verb::Delete)
    } else if word == b"up".as_slice() {
        Some(Verb::Sum(false))
    } else if word == b"down".as_slice() {
        Some(Verb::Sum(true))
    } else if word == b"touch".as_slice() {
        Some(Verb::Touch)
    } else if word == b"flush".as_slice() {
        Some(Verb::Flush)
    } else if word == b"stats".as_slice() {
        Some(Verb::Stats)
    } else {
        None
    }
}

#[tactic(auto, unfolding(crate::specs::FixedWords::verb))]
pub fn verb(word: &[u8]) -> Option<Verb>
    ensures { result ≡ fixed.verb word.now }
{
    match mode(word) {
        Some(mode) => Some(Verb::Store(mode)),
        None => other_verb(word),
    }
}

// This word and no other.
#[tactic(auto, unfolding(crate::specs::FixedWords::only))]
pub fn only(expected: &[u8], word: &[u8]) -> Option<()>
    ensures { result ≡ fixed.only expected.now word.now }
{
    if word == expected { Some(()) } else { None }
}

#[tactic(auto, unfolding(crate::specs::FixedWords::refusal))]
pub fn refusal(word: &[u8]) -> Option<Stored>
    ensures { result ≡ fixed.refusal word.now }
{
    if word == b"not-stored".as_slice() {
        Some(Stored::NotStored)
    } else if word == b"exists".as_slice() {
        Some(Stored::Exists)
    } else if word == b"not-found".as_slice() {
        Some(Stored::NotFound)
    } else if word == b"too-large".as_slice() {
        Some(Stored::TooLarge)
    } else if word == b"no-number".as_slice() {
        Some(Stored::NoNumber)
    } else {
        None
    }
}

#[tactic(auto, unfolding(crate::specs::FixedWords::gone))]
pub fn gone(word: &[u8]) -> Option<Gone>
    ensures { result ≡ fixed.gone word.now }
{
    if word == b"deleted".as_slice() {
        Some(Gone::Deleted)
    } else if word == b"not-found".as_slice() {
        Some(Gone::NotFound)
    } else if word == b"exists".as_slice() {
        Some(Gone::Exists)
    } else {
        None
    }
}

#[tactic(auto, unfolding(crate::specs::FixedWords::sum_refusal))]
pub fn sum_refusal(word: &[u8]) -> Option<Sum>
    ensures { result ≡ fixed.sum_refusal word.now }
{
    if word == b"not-found".as_slice() {
        Some(Sum::NotFound)
    } else if word == b"non-numeric".as_slice() {
        Some(Sum::NonNumeric)
    } else if word == b"exists".as_slice() {
        Some(Sum::Exists)
    } else if word == b"no-number".as_slice() {
        Some(Sum::NoNumber)
    } else {
        None
    }
}

#[tactic(auto, unfolding(crate::specs::FixedWords::touched))]
pub fn touched(word: &[u8]) -> Option<Touched>
    ensures { result ≡ fixed.touched word.now }
{
    if word == b"touched".as_slice() {
        Some(Touched::Touched)
    } else if word == b"not-found".as_slice() {
        Some(Touched::NotFound)
    } else {
        None
    }
}

#[tactic(auto, unfolding(crate::specs::FixedWords::wanted))]
pub fn wanted(word: &[u8]) -> Option<bool>
    ensures { result ≡ fixed.wanted word.now }
{
    if word == b"v".as_slice() {
        Some(true)
    } else if word == b"h".as_slice() {
        Some(false)
    } else {
        None
    }
}

#[tactic(auto, unfolding(crate::specs::FixedWords::cause))]
pub fn cause(word: &[u8]) -> Option<Cause>
    ensures { result ≡ fixed.cause word.now }
{
    if word == b"ended".as_slice() {
        Some(Cause::Ended)
    } else if word == b"fault".as_slice() {
        Some(Cause::Fault)
    } else if word == b"damaged".as_slice() {
        Some(Cause::Damaged)
    } else {
        None
    }
}

#[tactic(auto, unfolding(crate::specs::FixedWords::drop_cause))]
pub fn drop_cause(word: &[u8]) -> Option<DropCause>
    ensures { result ≡ fixed.drop_cause word.now }
{
    if word == b"dead".as_slice() {
        Some(DropCause::Dead)
    } else if word == b"evict".as_slice() {
        Some(DropCause::Evict)
    } else if word == b"ended".as_slice() {
        Some(DropCause::Ended)
    } else if word == b"damaged".as_slice() {
        Some(DropCause::Damaged)
    } else {
        None
    }
}

#[tactic(auto, unfolding(crate::specs::FixedWords::end_cause))]
pub fn end_cause(word: &[u8]) -> Option<EndCause>
    ensures { result ≡ fixed.end_cause word.now }
{
    if word == b"compacted".as_slice() {
        Some(EndCause::Compacted)
    } else if word == b"evict".as_slice() {
        Some(EndCause::Evict)
    } else if word == b"fault".as_slice() {
        Some(EndCause::Fault)
    } else {
        None
    }
}
