// The commands by their words.
ghost use Rattle.std.specs.Prelude.{◌≡◌};
ghost use Rattle.flash_meta.specs.Flags as letters;
ghost use Rattle.flash_meta.specs.MetaLines.{is_meta_line};

use crate::MetaVerb;
use flash_text::{next_word, without_return};

pub fn verb_of(word: &[u8]) -> Option<MetaVerb>
    ensures { result ≡ letters.verb_of word.now }
{
    if word == b"mg".as_slice() {
        Some(MetaVerb::Get)
    } else if word == b"ms".as_slice() {
        Some(MetaVerb::Set)
    } else if word == b"md".as_slice() {
        Some(MetaVerb::Delete)
    } else if word == b"ma".as_slice() {
        Some(MetaVerb::Arith)
    } else {
        None
    }
}

/// Whether a line is of the meta protocol: its first word is `mg`, `ms`, `md` or `ma`. Any other is read by
/// `flash_text::read_line`.
pub fn is_meta(line: &[u8]) -> bool
    ensures { result ≡ is_meta_line line.now }
{
    match next_word(without_return(line)) {
        None => false,
        Some((command, _)) => verb_of(command).is_some(),
    }
}
