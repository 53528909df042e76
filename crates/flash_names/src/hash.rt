ghost use Rattle.std.specs.Prelude.{◌≡◌};
ghost use Rattle.flash_names.specs.KeyHash.{hash_of as the_hash_of};

use crate::key::Key;

/// The hash of a key: FNV-1a with 64 bits over its bytes. That of the key `a` is 0xaf63dc4c8601ec8c.
pub fn key_hash(key: &Key) -> u64
    ensures { result ≡ the_hash_of key.now }
{
    hash_of(key.bytes())
}

/// The hash of these bytes, as `key_hash` gives it for a key: FNV-1a with 64 bits.
#[tactic(auto, unfolding(crate::specs::KeyHash::hash_of))]
pub fn hash_of(bytes: &[u8]) -> u64
    ensures { result ≡ the_hash_of bytes.now }
{
    let mut hash: u64 = 14_695_981_039_346_656_037;
    'bytes: for byte in bytes {
        hash = (hash ^ u64::from(*byte)).wrapping_mul(1_099_511_628_211);
    }
    hash
}
