ghost use Rattle.std.specs.Prelude.{◌≡◌, ◌≤◌, ℕ, List, None, Some, IfOk, OnOk, OnErr, IsTrue, option_map};
ghost use Rattle.std.specs.Option.{ForSome};
ghost use Rattle.std.specs.FinMap as map;
ghost use Rattle.flash_names.specs.declared.place.ItemId as ids;
ghost use Rattle.flash_items.specs.Item.{IsSmall};
ghost use Rattle.flash_index.specs.IndexState.{HasId};
ghost use Rattle.flash_index.specs.Places.{place_of};
ghost use Rattle.flash_calls.specs.Calls.{store_call};
ghost use Rattle.flash_calls.specs.Store.{Becomes, Stays};
ghost use Rattle.flash_core.specs.Changes.{AreLeft, items_after_store, desk_after_store};
ghost use Rattle.flash_core.specs.Desks.{AreFit, desk_of};
ghost use Rattle.flash_core.specs.Sound.{IsNewTold};
ghost use Rattle.flash_core.specs.Sought.{id_sought, cause_sought};

use crate::choice::choose;
use crate::dropping::{drop_leaving, give_back};
use crate::noting::{dropped, note_behind};
use crate::sought::{Sought, is_key, live_parts, seek};
use crate::state::Core;
use flash_blocks::Blocks;
use flash_calls::each_store_goes_on;
use flash_entry::{DoneNote, Journal, Note, Put, Stored};
use flash_index::Index;
use flash_items::Item;
use flash_names::{Id, Place};
use std::alloc::{AllocError, Global};

impl<J: Journal> Core<J> {
    /// Stores a value, or answers the first refusal: by the mode, the CAS number given, the value's size, and
    /// the last CAS number. A stored item's key is at HOT's front. An item under the key that is dead, or whose page
    /// has ended, is dropped first. Where memory runs out nothing changes. `id` has to be new: its pass isn't 0, and each step of that pass in the journal
    /// has a smaller number, where the journal tells its entries.
    pub fn store(&mut self, alloc: Global, id: Id, put: &Put) -> Result<Stored, AllocError>
        requires { IsNewTold self.old.told id }
        ensures ok { OnOk result (Becomes self.old
            (store_call self.old.geometry self.old.cache self.old.desk id put.now) self.new) }
        ensures answer { IfOk result (λ answer. answer
            ≡ (store_call self.old.geometry self.old.cache self.old.desk id put.now).answer) }
        ensures err { OnErr result (Stays self.old self.new) }
        ensures ready { IsTrue self.old.ready → IsTrue self.new.ready }
    {
        each_store_goes_on();
        is_key(&put.key);
        let sought = seek(&self.index, &self.blocks, &self.numbers, &put.key);
        let live = live_parts(&self.index, sought);
        let choice = choose(alloc, &self.geometry, &self.numbers, put, live)?;
        self.index.reserve_one(alloc)?;
        let did = Note::Did(id, DoneNote::Store(put, choice.answer));
        note_behind(&mut self.journal, dropped(&put.key, sought), did)?;
        put_or_drop(&mut self.index, &mut self.blocks, sought, choice.item);
        self.numbers.last_cas = choice.last_cas;
        Ok(choice.answer)
    }
}

/// Puts the item that is stored, if one is, and gives back the record of the one before it; else it drops one that is to
/// be dropped.
pub fn put_or_drop(index: &mut Index, blocks: &mut Blocks, sought: Sought, item: Option<Item>)
    requires id { (id : ids.ItemId) → id_sought sought ≡ Some id → HasId index.old id }
    requires fit { AreFit index.old blocks.old }
    requires room { 1 ≤ index.old.spare }
    requires key { ForSome item
        (λ item. option_map (λ id. id.key) (id_sought sought) ≡ map.get index.old.ids item.key) }
    requires absent { ForSome item (λ item. sought ≡ Sought.Absent → map.get index.old.items item.key ≡ None) }
    requires small { ForSome item (λ item. IsSmall item.body × (place_of item.body ≡ None)) }
    ensures { (key : List ℕ) → option_map (λ id. id.key) (id_sought sought) ≡ map.get index.old.ids key
        → ForSome item (λ item. item.key ≡ key)
        → AreLeft index.old.memory (items_after_store key (cause_sought sought) item index.old.items)
        (desk_after_store key (cause_sought sought) item (desk_of index.old blocks.old)) index.new blocks.new }
{
    if let Some(item) = item {
        let place = place_sought(index, sought);
        index.put(sought.id(), item);
        give_back(blocks, place);
    } else {
        drop_leaving(index, blocks, sought);
    }
}

// The place of the value that is there, where it is on flash.
fn place_sought(index: &Index, sought: Sought) -> Option<Place>
    requires { (id : ids.ItemId) → id_sought sought ≡ Some id → HasId index.now id }
    ensures { (key : List ℕ) → option_map (λ id. id.key) (id_sought sought) ≡ map.get index.now.ids key
        → (sought ≡ Sought.Absent → map.get index.now.places key ≡ None)
        → result ≡ map.get index.now.places key }
{
    match sought.id() {
        None => None,
        Some(id) => index.place(id),
    }
}
