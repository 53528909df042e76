ghost use Rattle.std.specs.Prelude.{◌≡◌, ℕ, ◌^◌, ◌<◌, ◌≤◌, List, Option, Some, false, IfOk, OnOk, OnErr, IsOk, IsTrue, option_map};
ghost use Rattle.std.specs.Option.{ForSome, option_copied};
ghost use Rattle.std.specs.FinMap as map;
ghost use Rattle.flash_index.specs.IndexState.{HasId};
ghost use Rattle.flash_machine.specs.Item as machine;
ghost use Rattle.flash_machine.specs.Looking.{residence_of, left_to, deadline_after};
ghost use Rattle.flash_calls.specs.Lookups.{look_call};
ghost use Rattle.flash_calls.specs.Store.{Becomes, Stays};
ghost use Rattle.flash_core.specs.Changes.{AreLeft, items_after_look, desk_after_look};
ghost use Rattle.flash_core.specs.Desks.{AreFit, desk_of};
ghost use Rattle.flash_core.specs.Items.{HasDeadline, known_live};
ghost use Rattle.flash_core.specs.Sought.{id_sought};
ghost use Rattle.flash_core.specs.Sound.{IsNewTold};
ghost use Rattle.flash_names.specs.declared.place.ItemId as ids;

use crate::choice::deadline_of;
use crate::dropping::take_out;
use crate::noting::{dropped, note_lookup};
use crate::reading::{found_at, notes_of_buffer};
use crate::sought::{Sought, is_key, live_parts, seek};
use crate::state::Core;
use flash_blocks::Blocks;
use flash_calls::{Found, each_lookup_goes_on};
use flash_entry::{Journal, Look, Note, Residence};
use flash_index::Index;
use flash_items::{Body, Parts};
use flash_names::{Id, Key};
use std::alloc::{AllocError, Global};

impl<J: Journal> Core<J> {
    /// Looks a key up. A live item gets the renewed deadline, counts as fetched, was accessed now, and is active in
    /// its list. One that is dead, or whose page has ended, is dropped first. A value that is wanted and is on flash comes
    /// from the write buffer that has it; `Found::Away` where none has. Where memory runs out nothing changes; it doesn't
    /// run out where the value isn't wanted and the journal is ready. `id` has to be new: its pass isn't 0, and each step
    /// of that pass in the journal has a smaller number, where the journal tells its entries.
    pub fn look(
        &mut self,
        alloc: Global,
        id: Id,
        key: &Key,
        look: Look,
    ) -> Result<Found, AllocError>
        requires { IsNewTold self.old.told id }
        ensures ok { OnOk result (Becomes self.old (look_call self.old.cache self.old.desk id key.now look) self.new) }
        ensures answer { IfOk result (λ answer. answer
            ≡ (look_call self.old.cache self.old.desk id key.now look).answer) }
        ensures err { OnErr result (Stays self.old self.new) }
        ensures ready { IsTrue self.old.ready → IsTrue self.new.ready }
        ensures sure { IsTrue self.old.ready → look.value ≡ false → IsOk result }
    {
        each_lookup_goes_on();
        renewal_is_below(look.renew, self.numbers.moment);
        is_key(key);
        let sought = seek(&self.index, &self.blocks, &self.numbers, key);
        let live = live_parts(&self.index, sought);
        let found = found_at(alloc, &self.blocks, self.numbers.moment, key, live, look)?;
        let looked = Note::Looked(id, key, look, residence_at(live));
        let read = notes_of_buffer(id, live, &found);
        note_lookup(&mut self.journal, dropped(key, sought), looked, read)?;
        drop_or_mark(
            &mut self.index,
            &mut self.blocks,
            sought,
            look.renew,
            self.numbers.moment,
        );
        Ok(found)
    }
}

/// A deadline below 2^63 stays below it where it is renewed. It does nothing.
pub fn renewal_is_below(renew: Option<i64>, moment: u64)
    requires { moment ≤ 2 ^ 62 }
    ensures { (was : Option ℕ) → HasDeadline was → HasDeadline (deadline_after renew was moment) }
{
    if let Some(exptime) = renew {
        let _ = deadline_of(exptime, moment);
    }
}

/// The deadline that an item has after it was found.
pub fn renewed_at(moment: u64, deadline: Option<u64>, renew: Option<i64>) -> Option<u64>
    requires moment { moment ≤ 2 ^ 62 }
    requires below { HasDeadline deadline }
    ensures exact { result ≡ deadline_after renew deadline moment }
    ensures below { HasDeadline result }
{
    match renew {
        None => deadline,
        Some(exptime) => deadline_of(exptime, moment),
    }
}

/// The seconds that are left to a deadline, 0 where it was reached, and -1 where there is none.
pub fn left_of(deadline: Option<u64>, moment: u64) -> i64
    requires { ForSome deadline (λ d. d < 2 ^ 63) }
    ensures { result ≡ left_to deadline moment }
{
    match deadline {
        None => -1,
        Some(deadline) => deadline.saturating_sub(moment) as i64,
    }
}

// What the journal is told of the live item.
fn residence_at(live: Option<&Parts>) -> Residence
    ensures { (key : List ℕ) → result ≡ residence_of (known_live key (option_copied live.entry)) }
{
    match live {
        None => Residence::Nothing,
        Some(parts) => match &parts.body {
            Body::Here(_) => Residence::Here(parts.cas),
            Body::Away(place) => Residence::Away(parts.cas, place.label),
        },
    }
}

// Drops an item that is to be dropped, and marks a live one as found.
fn drop_or_mark(
    index: &mut Index,
    blocks: &mut Blocks,
    sought: Sought,
    renew: Option<i64>,
    moment: u64,
)
    requires id { (id : ids.ItemId) → id_sought sought ≡ Some id → HasId index.old id }
    requires fit { AreFit index.old blocks.old }
    requires moment { moment ≤ 2 ^ 62 }
    requires deadline { (key : List ℕ) (item : machine.Item) → map.get index.old.items key ≡ Some item
        → HasDeadline item.deadline }
    ensures { (key : List ℕ) → option_map (λ id. id.key) (id_sought sought) ≡ map.get index.old.ids key
        → AreLeft index.old.memory (items_after_look renew moment key sought index.old.items)
        (desk_after_look key sought (desk_of index.old blocks.old)) index.new blocks.new }
{
    match sought {
        Sought::Absent => {}
        Sought::Leaving(id, _) => take_out(index, blocks, id),
        Sought::Live(id) => {
            let deadline = renewed_at(moment, index.item(id).parts.deadline, renew);
            index.set_use(id, deadline, true, moment);
            index.touch(id);
        }
    }
}
