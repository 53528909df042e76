ghost use Rattle.std.specs.Prelude.{◌≡◌, ℕ, ℤ, List, option_map, IfOk, OnOk, OnErr, IsOk, IsTrue, Some};
ghost use Rattle.std.specs.FinMap as map;
ghost use Rattle.flash_names.specs.declared.place.ItemId as ids;
ghost use Rattle.flash_machine.specs.Cache.{Cache};
ghost use Rattle.flash_machine.specs.Item as machine;
ghost use Rattle.flash_machine.specs.Touching.{touch_step};
ghost use Rattle.flash_index.specs.IndexState.{HasId};
ghost use Rattle.flash_calls.specs.Calls.{touch_call};
ghost use Rattle.flash_calls.specs.Store.{Becomes, Stays};
ghost use Rattle.flash_core.specs.Changes.{AreLeft, items_after_touch, swept_desk};
ghost use Rattle.flash_core.specs.Desks.{AreFit, desk_of};
ghost use Rattle.flash_core.specs.Sought.{id_sought, cause_sought, live_of};
ghost use Rattle.flash_core.specs.Sound.{IsNewTold};

use crate::choice::deadline_of;
use crate::dropping::take_out;
use crate::noting::{dropped, note_behind};
use crate::sought::{Sought, seek};
use crate::state::Core;
use flash_blocks::Blocks;
use flash_calls::each_touch_goes_on;
use flash_entry::{DoneNote, Journal, Note, Touched};
use flash_index::Index;
use flash_names::{Id, Key};
use std::alloc::AllocError;

impl<J: Journal> Core<J> {
    /// Gives the key's live item the deadline of this exptime, as `Put::exptime`, and changes nothing else of it:
    /// `NotFound` where there is none. An item under the key that is dead, or whose page has ended, is dropped first.
    /// Memory runs out only where the journal isn't ready, and changes nothing. `id` has to be new: its pass isn't 0,
    /// and each step of that pass in the journal has a smaller number, where the journal tells its entries.
    pub fn touch(&mut self, id: Id, key: &Key, exptime: i64) -> Result<Touched, AllocError>
        requires { IsNewTold self.old.told id }
        ensures ok { OnOk result (Becomes self.old
            (touch_call self.old.cache self.old.desk id key.now exptime) self.new) }
        ensures answer { IfOk result (λ answer. answer
            ≡ (touch_call self.old.cache self.old.desk id key.now exptime).answer) }
        ensures err { OnErr result (Stays self.old self.new) }
        ensures ready { IsTrue self.old.ready → IsOk result × IsTrue self.new.ready }
    {
        each_touch_goes_on();
        let sought = seek(&self.index, &self.blocks, &self.numbers, key);
        let answer = touched_at(sought);
        let deadline = deadline_of(exptime, self.numbers.moment);
        let did = Note::Did(id, DoneNote::Touch(key, exptime, answer));
        note_behind(&mut self.journal, dropped(key, sought), did)?;
        renew_or_drop(&mut self.index, &mut self.blocks, sought, deadline);
        Ok(answer)
    }
}

// The answer to a touch.
fn touched_at(sought: Sought) -> Touched
    ensures { (c : Cache) (key : List ℕ) (exptime : ℤ) (item : machine.Item)
        → result ≡ (touch_step c key exptime (live_of sought (Some item))).0 }
{
    match sought {
        Sought::Live(_) => Touched::Touched,
        _ => Touched::NotFound,
    }
}

// Drops an item that is to be dropped, and gives a live one this deadline.
fn renew_or_drop(index: &mut Index, blocks: &mut Blocks, sought: Sought, deadline: Option<u64>)
    requires id { (id : ids.ItemId) → id_sought sought ≡ Some id → HasId index.old id }
    requires fit { AreFit index.old blocks.old }
    ensures { (key : List ℕ) → option_map (λ id. id.key) (id_sought sought) ≡ map.get index.old.ids key
        → AreLeft index.old.memory (items_after_touch deadline key sought index.old.items)
        (swept_desk (cause_sought sought) key (desk_of index.old blocks.old)) index.new blocks.new }
{
    match sought {
        Sought::Absent => {}
        Sought::Leaving(id, _) => take_out(index, blocks, id),
        Sought::Live(id) => {
            let parts = index.item(id).parts;
            let (fetched, access) = (parts.fetched, parts.access);
            index.set_use(id, deadline, fetched, access);
        }
    }
}
