// What is under a key, found once for a call.
ghost use Rattle.std.specs.Prelude.{◌≡◌, Some, List, ℕ, option_map};
ghost use Rattle.std.specs.Option.{ForSome, option_copied};
ghost use Rattle.std.specs.FinMap as map;
ghost use Rattle.flash_index.specs.IndexState.{Names, HasId};
ghost use Rattle.flash_index.specs.Places.{place_of};
ghost use Rattle.flash_machine.specs.Moments.{is_reached};
ghost use Rattle.flash_names.specs.declared.place.ItemId as ids;
ghost use Rattle.flash_core.specs.Items.{IsKey, known_live};
ghost use Rattle.flash_core.specs.Numbers.{cache_of_items};
ghost use Rattle.flash_calls.specs.Sweeps.{is_expired_at, sweep_cause};
ghost use Rattle.flash_core.specs.Desks.{AreFit, desk_of};
ghost use Rattle.flash_core.specs.Sought.{IsSought, id_sought, live_of};

use crate::dropping::has_ended;
use crate::numbers::Numbers;
use flash_blocks::Blocks;
use flash_entry::DropCause;
use flash_index::Index;
use flash_items::Parts;
use flash_names::{ItemId, Key};

/// What is under a key.
#[derive(Clone, Copy)]
pub enum Sought {
    /// No item.
    Absent,
    /// An item that is to be dropped, for this cause.
    Leaving(ItemId, DropCause),
    /// An item that isn't.
    Live(ItemId),
}

impl Sought {
    /// The id of the item, whether it is to be dropped or not.
    pub fn id(self) -> Option<ItemId>
        ensures { result ≡ id_sought self }
    {
        match self {
            Sought::Absent => None,
            Sought::Leaving(id, _) | Sought::Live(id) => Some(id),
        }
    }
}

/// A key has 1 to 250 bytes. It does nothing.
pub fn is_key(key: &Key)
    ensures { IsKey key.now }
{
    let _ = key.bytes();
}

/// What is under the key.
pub fn seek(index: &Index, blocks: &Blocks, numbers: &Numbers, key: &Key) -> Sought
    requires { AreFit index.now blocks.now }
    ensures { IsSought index.now blocks.now (cache_of_items index.now.items numbers.now) key.now result }
{
    match index.find(key) {
        None => Sought::Absent,
        Some(id) => match leaving_cause(index, blocks, numbers, id) {
            None => Sought::Live(id),
            Some(cause) => Sought::Leaving(id, cause),
        },
    }
}

/// Why the item is to be dropped, if it is: it is dead, or else the page of its record has ended. There has to be one.
pub fn leaving_cause(
    index: &Index,
    blocks: &Blocks,
    numbers: &Numbers,
    id: ItemId,
) -> Option<DropCause>
    requires id { HasId index.now id }
    requires fit { AreFit index.now blocks.now }
    ensures { (key : List ℕ) → Names index.now id key → result
        ≡ sweep_cause (cache_of_items index.now.items numbers.now) (desk_of index.now blocks.now) key }
{
    if is_dead(index, numbers, id) {
        return Some(DropCause::Dead);
    }
    if has_ended(blocks, index.place(id)) {
        return Some(DropCause::Ended);
    }
    None
}

// Whether the item's deadline was reached, or it was flushed. There has to be one.
fn is_dead(index: &Index, numbers: &Numbers, id: ItemId) -> bool
    requires { HasId index.now id }
    ensures { (key : List ℕ) → Names index.now id key
        → result ≡ is_expired_at (cache_of_items index.now.items numbers.now) (map.get index.now.items key) }
{
    let parts = index.item(id).parts;
    is_reached(parts.deadline, numbers.moment) || parts.cas <= numbers.flush_mark
}

// Whether a deadline was reached.
fn is_reached(deadline: Option<u64>, now: u64) -> bool
    ensures { result ≡ is_reached deadline now }
{
    match deadline {
        None => false,
        Some(moment) => moment <= now,
    }
}

/// The parts of the live item that is there, if one is.
pub fn live_parts(index: &Index, sought: Sought) -> Option<&Parts>
    requires { (id : ids.ItemId) → id_sought sought ≡ Some id → HasId index.now id }
    ensures found { (key : List ℕ) → option_map (λ id. id.key) (id_sought sought) ≡ map.get index.now.ids key
        → known_live key (option_copied result) ≡ live_of sought (map.get index.now.items key) }
    ensures place { (key : List ℕ) → option_map (λ id. id.key) (id_sought sought) ≡ map.get index.now.ids key
        → ForSome (option_copied result) (λ parts. place_of parts.body ≡ map.get index.now.places key) }
{
    match sought {
        Sought::Live(id) => Some(index.item(id).parts),
        _ => None,
    }
}
