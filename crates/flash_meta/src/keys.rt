// The key that a word means.
ghost use Rattle.std.specs.Prelude.{◌≡◌};
ghost use Rattle.flash_meta.specs.Keys.{base64_key, key_of};

use base64::engine::general_purpose::STANDARD;
use flash_names::{Key, MAX_KEY_LEN};
use flash_text::is_key;

// Room for the bytes of a word of the greatest length.
const ROOM: usize = 192;

// The key of a word, which is base64 or the key itself.
pub fn read_key(is_base64: bool, word: &[u8]) -> Option<Key>
    ensures { result ≡ key_of is_base64 word.now }
{
    if is_base64 {
        read_base64_key(word)
    } else if is_key(word) {
        Key::from_bytes(word)
    } else {
        None
    }
}

// The key whose padded standard base64 a word is (RFC 4648, section 4).
#[tactic(auto, unfolding(crate::specs::Keys::base64_key))]
fn read_base64_key(word: &[u8]) -> Option<Key>
    ensures { result ≡ base64_key word.now }
{
    if word.len() > MAX_KEY_LEN {
        return None;
    }
    let mut bytes = [0; ROOM];
    let length = STANDARD.decode_slice_unchecked(word, &mut bytes).ok()?;
    Key::from_bytes(&bytes[..length])
}
