ghost use Rattle.std.specs.Prelude.{◌≡◌, ◌<◌, ◌↔◌, ℕ, IsTrue, length, IfSome, IfNone, Some};
ghost use Rattle.flash_keys.specs.Names.{named};
ghost use Rattle.flash_table.specs.Entries.{entry_at, IsFor};

use crate::group::Group;
use flash_keys::{KeyId, KeyStore};
use flash_lanes::same_bytes;

// Whether an id names these bytes.
pub fn names_key(keys: &KeyStore, id: KeyId, key: &[u8]) -> bool
    ensures { IsTrue result ↔ (named keys.now id.number ≡ Some key.now) }
{
    match keys.bytes(id) {
        Some(bytes) => same_bytes(bytes, key),
        None => false,
    }
}

// The slot of a group with this tag whose id names this key.
pub fn slot_in_group(group: &Group, keys: &KeyStore, tag: u8, key: &[u8]) -> Option<usize>
    ensures found { IfSome result (λ i. (i < 16) × IsFor keys.now tag key.now (entry_at group.now i)) }
    ensures none { IfNone result ((i : ℕ) → i < 16 → IsFor keys.now tag key.now (entry_at group.now i) → ⊥) }
    ensures whole { length group.now ≡ 16 }
{
    let first = group.first_tagged(tag);
    'slots: for slot in first..16 {
        let entry = group.at(slot);
        if entry.tag == tag && names_key(keys, entry.id, key) {
            return Some(slot);
        }
    }
    None
}
