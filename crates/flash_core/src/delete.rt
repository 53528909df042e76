ghost use Rattle.std.specs.Prelude.{◌≡◌, ℕ, List, option_map, IfOk, OnOk, OnErr, IsOk, IsTrue, Some};
ghost use Rattle.std.specs.Option.{option_copied};
ghost use Rattle.std.specs.FinMap as map;
ghost use Rattle.flash_names.specs.declared.place.ItemId as ids;
ghost use Rattle.flash_machine.specs.Cache.{Cache};
ghost use Rattle.flash_machine.specs.Deleting.{compare_fails, delete_step};
ghost use Rattle.flash_index.specs.IndexState.{HasId};
ghost use Rattle.flash_calls.specs.Calls.{delete_call};
ghost use Rattle.flash_calls.specs.Store.{Becomes, Stays};
ghost use Rattle.flash_core.specs.Changes.{AreLeft, is_going, items_if_going, desk_if_going};
ghost use Rattle.flash_core.specs.Desks.{AreFit, desk_of};
ghost use Rattle.flash_core.specs.Items.{known_live};
ghost use Rattle.flash_core.specs.Sought.{id_sought};
ghost use Rattle.flash_core.specs.Sound.{IsNewTold};

use crate::dropping::take_out;
use crate::noting::{dropped, note_behind};
use crate::sought::{Sought, live_parts, seek};
use crate::state::Core;
use flash_blocks::Blocks;
use flash_calls::each_delete_goes_on;
use flash_entry::{DoneNote, Gone, Journal, Note};
use flash_index::Index;
use flash_items::Parts;
use flash_names::{Id, Key};
use std::alloc::AllocError;

impl<J: Journal> Core<J> {
    /// Deletes the key's live item: `NotFound` where there is none, and `Exists` where a CAS number is given and the
    /// item has another. An item under the key that is dead, or whose page has ended, is dropped first. Memory runs out
    /// only where the journal isn't ready, and changes nothing. `id` has to be new: its pass isn't 0, and each step of
    /// that pass in the journal has a smaller number, where the journal tells its entries.
    pub fn delete(&mut self, id: Id, key: &Key, compare: Option<u64>) -> Result<Gone, AllocError>
        requires { IsNewTold self.old.told id }
        ensures ok { OnOk result (Becomes self.old
            (delete_call self.old.cache self.old.desk id key.now compare) self.new) }
        ensures answer { IfOk result (λ answer. answer
            ≡ (delete_call self.old.cache self.old.desk id key.now compare).answer) }
        ensures err { OnErr result (Stays self.old self.new) }
        ensures ready { IsTrue self.old.ready → IsOk result × IsTrue self.new.ready }
    {
        each_delete_goes_on();
        let sought = seek(&self.index, &self.blocks, &self.numbers, key);
        let answer = gone_of(compare, live_parts(&self.index, sought));
        let did = Note::Did(id, DoneNote::Delete(key, compare, answer));
        note_behind(&mut self.journal, dropped(key, sought), did)?;
        delete_or_drop(&mut self.index, &mut self.blocks, sought, answer);
        Ok(answer)
    }
}

// The answer to a delete, by the live item under its key.
fn gone_of(compare: Option<u64>, live: Option<&Parts>) -> Gone
    ensures { (c : Cache) (key : List ℕ) → result
        ≡ (delete_step c key compare (known_live key (option_copied live.entry))).0 }
{
    match live {
        None => Gone::NotFound,
        Some(parts) => {
            if compare_fails(compare, parts.cas) {
                Gone::Exists
            } else {
                Gone::Deleted
            }
        }
    }
}

/// Whether a CAS number was given, and the item's isn't that one.
pub fn compare_fails(compare: Option<u64>, cas: u64) -> bool
    ensures { result ≡ compare_fails compare cas }
{
    match compare {
        None => false,
        Some(compare) => cas != compare,
    }
}

// Takes out an item that is to be dropped, or that was deleted.
fn delete_or_drop(index: &mut Index, blocks: &mut Blocks, sought: Sought, answer: Gone)
    requires id { (id : ids.ItemId) → id_sought sought ≡ Some id → HasId index.old id }
    requires fit { AreFit index.old blocks.old }
    ensures { (key : List ℕ) → option_map (λ id. id.key) (id_sought sought) ≡ map.get index.old.ids key
        → AreLeft index.old.memory (items_if_going (is_going sought answer) key index.old.items)
        (desk_if_going (is_going sought answer) key (desk_of index.old blocks.old)) index.new blocks.new }
{
    match (sought, answer) {
        (Sought::Leaving(id, _), _) | (Sought::Live(id), Gone::Deleted) => {
            take_out(index, blocks, id);
        }
        _ => {}
    }
}
