// How an item is taken out of the index, and its record given up.
ghost use Rattle.std.specs.Prelude.{◌≡◌, ℕ, List, Some, option_map};
ghost use Rattle.std.specs.Option.{ForSome};
ghost use Rattle.std.specs.FinMap as map;
ghost use Rattle.flash_names.specs.declared.place.ItemId as ids;
ghost use Rattle.flash_index.specs.IndexState.{Names, HasId};
ghost use Rattle.flash_calls.specs.Changes.{without_key};
ghost use Rattle.flash_calls.specs.Places.{given_back, place_has_ended};
ghost use Rattle.flash_core.specs.Changes.{AreLeft, swept_items, swept_desk};
ghost use Rattle.flash_core.specs.Desks.{AreFit, MayBeGiven, desk_of};
ghost use Rattle.flash_core.specs.Sought.{id_sought, cause_sought};

use crate::sought::Sought;
use flash_blocks::Blocks;
use flash_index::Index;
use flash_names::{ItemId, Place};

/// Whether the label of a place has ended, where there is one.
pub fn has_ended(blocks: &Blocks, place: Option<Place>) -> bool
    requires { ForSome place (MayBeGiven blocks.now.pages) }
    ensures { result ≡ place_has_ended blocks.now.pages place }
{
    match place {
        None => false,
        Some(place) => blocks.has_ended(place.label),
    }
}

/// Gives up the record at a place, where there is one: a label that hasn't ended has one live record fewer.
pub fn give_back(blocks: &mut Blocks, place: Option<Place>)
    requires { ForSome place (MayBeGiven blocks.old.pages) }
    ensures { blocks.new ≡ given_back place blocks.old }
{
    if let Some(place) = place {
        if !blocks.has_ended(place.label) {
            blocks.take_live(place);
        }
    }
}

/// Takes an item out of the index, and gives its record back where it has one. There has to be one.
pub fn take_out(index: &mut Index, blocks: &mut Blocks, id: ItemId)
    requires id { HasId index.old id }
    requires fit { AreFit index.old blocks.old }
    ensures { (key : List ℕ) → Names index.old id key
        → AreLeft index.old.memory (map.remove index.old.items key) (without_key key (desk_of index.old blocks.old))
        index.new blocks.new }
{
    let place = index.place(id);
    index.remove(id);
    give_back(blocks, place);
}

/// Drops what is under the key, where it is to be dropped.
pub fn drop_leaving(index: &mut Index, blocks: &mut Blocks, sought: Sought)
    requires id { (id : ids.ItemId) → id_sought sought ≡ Some id → HasId index.old id }
    requires fit { AreFit index.old blocks.old }
    ensures { (key : List ℕ) → option_map (λ id. id.key) (id_sought sought) ≡ map.get index.old.ids key
        → AreLeft index.old.memory (swept_items (cause_sought sought) key index.old.items)
        (swept_desk (cause_sought sought) key (desk_of index.old blocks.old)) index.new blocks.new }
{
    if let Sought::Leaving(id, _) = sought {
        take_out(index, blocks, id);
    }
}
