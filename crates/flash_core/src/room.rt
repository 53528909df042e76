// What keeps a store within its memory.
ghost use Rattle.std.specs.Prelude.{◌≡◌, List, ℕ, None, Option, IfOk, OnOk, OnErr, IsOk, IsTrue, nat_lt, option_map, if◌then◌else◌};
ghost use Rattle.flash_entry.specs.declared.entry.DropCause.TheVariants as causes;
ghost use Rattle.flash_machine.specs.Load.{load_of};
ghost use Rattle.flash_index.specs.KeyEnds.{last_key, last_out};
ghost use Rattle.flash_index.specs.KeyLists.{list_of};
ghost use Rattle.flash_calls.specs.Rooms as calls;
ghost use Rattle.flash_calls.specs.Rooms.{room_call, reap_call, juggle_call, if_swept, to_reap};
ghost use Rattle.flash_calls.specs.Store.{Becomes, Stays};
ghost use Rattle.flash_core.specs.Desks.{AreFit, desk_of};
ghost use Rattle.flash_core.specs.Items.{AreKeys};
ghost use Rattle.flash_core.specs.Numbers.{cache_of_items};
ghost use Rattle.flash_core.specs.Rooms.{AreLeavers, HasDropped};

use crate::dropping::take_out;
use crate::numbers::Numbers;
use crate::sought::leaving_cause;
use crate::state::Core;
use flash_blocks::Blocks;
use flash_calls::{each_juggling_goes_on, each_reaping_goes_on, each_room_goes_on};
use flash_entry::{DropCause, Journal, Note};
use flash_index::Index;
use flash_lru::Segment;
use flash_names::{ItemId, Key};
use std::alloc::AllocError;

/// An item that is to be dropped, and why.
#[derive(Clone, Copy)]
pub struct Leaver {
    /// The item's id.
    pub id: ItemId,
    /// Why it is dropped.
    pub cause: DropCause,
}

impl<J: Journal> Core<J> {
    /// Where the items take more than the memory, drops the one that is to leave next, the last of COLD, else of WARM,
    /// else of HOT, and gives its key. Memory runs out only where the journal isn't ready, and changes nothing.
    pub fn make_room(&mut self) -> Result<Option<Key>, AllocError>
        ensures ok { OnOk result (Becomes self.old
            (room_call self.old.geometry self.old.cache self.old.desk) self.new) }
        ensures answer { IfOk result (λ answer. answer
            ≡ (room_call self.old.geometry self.old.cache self.old.desk).answer) }
        ensures err { OnErr result (Stays self.old self.new) }
        ensures ready { IsTrue self.old.ready → IsOk result × IsTrue self.new.ready }
    {
        each_room_goes_on();
        let leaver = leaving_next(&self.index, self.geometry.memory);
        drop_item(&mut self.journal, &mut self.index, &mut self.blocks, leaver)
    }

    /// Drops the first of the last items of COLD, WARM and HOT that is dead, or whose page has ended, and gives its key;
    /// `None` where none is. Memory runs out only where the journal isn't ready, and changes nothing.
    pub fn reap_one(&mut self) -> Result<Option<Key>, AllocError>
        ensures ok { OnOk result (Becomes self.old (reap_call self.old.cache self.old.desk) self.new) }
        ensures answer { IfOk result (λ answer. answer ≡ (reap_call self.old.cache self.old.desk).answer) }
        ensures err { OnErr result (Stays self.old self.new) }
        ensures ready { IsTrue self.old.ready → IsOk result × IsTrue self.new.ready }
    {
        each_reaping_goes_on();
        let leaver = leaving_last(&self.index, &self.blocks, &self.numbers);
        drop_item(&mut self.journal, &mut self.index, &mut self.blocks, leaver)
    }

    /// Makes the first move of a key between the three lists that applies, and answers whether there is one: from a
    /// HOT above 20 % of the memory, from a WARM above 40 %, or of an active last of COLD. An active key goes to
    /// WARM's front, and another to COLD's.
    pub fn juggle_one(&mut self) -> bool
        ensures done { Becomes self.old (juggle_call self.old.geometry self.old.cache self.old.desk) self.new }
        ensures answer { result ≡ (juggle_call self.old.geometry self.old.cache self.old.desk).answer }
        ensures ready { self.new.ready ≡ self.old.ready }
    {
        each_juggling_goes_on();
        self.index.juggle_one()
    }
}

// The item that is to leave next, where the items take more than the memory.
fn leaving_next(index: &Index, memory: u64) -> Option<Leaver>
    ensures { AreLeavers index.now result (if nat_lt memory (load_of index.now.items) then option_map
        (λ key. record { key = key; cause = causes.Evict }) (last_out index.now.lists) else None) }
{
    if index.load() <= memory {
        return None;
    }
    let Some(id) = index.last_out() else {
        return None;
    };
    Some(Leaver {
        id,
        cause: DropCause::Evict,
    })
}

// The first of the last items of COLD, WARM and HOT that is to be dropped.
fn leaving_last(index: &Index, blocks: &Blocks, numbers: &Numbers) -> Option<Leaver>
    requires { AreFit index.now blocks.now }
    ensures { AreLeavers index.now result
        (to_reap (cache_of_items index.now.items numbers.now) (desk_of index.now blocks.now)) }
{
    if let Some(leaver) = leaving_last_of(index, blocks, numbers, Segment::Cold) {
        return Some(leaver);
    }
    if let Some(leaver) = leaving_last_of(index, blocks, numbers, Segment::Warm) {
        return Some(leaver);
    }
    leaving_last_of(index, blocks, numbers, Segment::Hot)
}

// The last item of a segment, where it is to be dropped.
fn leaving_last_of(
    index: &Index,
    blocks: &Blocks,
    numbers: &Numbers,
    segment: Segment,
) -> Option<Leaver>
    requires { AreFit index.now blocks.now }
    ensures { AreLeavers index.now result (if_swept (cache_of_items index.now.items numbers.now)
        (desk_of index.now blocks.now) (last_key (list_of segment index.now.lists))) }
{
    let Some(id) = index.last_of(segment) else {
        return None;
    };
    match leaving_cause(index, blocks, numbers, id) {
        None => None,
        Some(cause) => Some(Leaver { id, cause }),
    }
}

// Notes that the item is dropped, where there is one, drops it, and gives its key.
fn drop_item<J: Journal>(
    journal: &mut J,
    index: &mut Index,
    blocks: &mut Blocks,
    leaver: Option<Leaver>,
) -> Result<Option<Key>, AllocError>
    requires keys { AreKeys index.old.items }
    requires fit { AreFit index.old blocks.old }
    requires id { (is : Option calls.Leaver) × AreLeavers index.old leaver is }
    ensures dropped { OnOk result ((is : Option calls.Leaver) → AreLeavers index.old leaver is
        → HasDropped is (J.told journal.old) (J.told journal.new) index.old blocks.old index.new blocks.new) }
    ensures answer { IfOk result (λ answer. (is : Option calls.Leaver) → AreLeavers index.old leaver is
        → answer ≡ option_map (λ one. one.key) is) }
    ensures told { OnErr result (J.told journal.new ≡ J.told journal.old) }
    ensures index { OnErr result (index.new ≡ index.old) }
    ensures blocks { OnErr result (blocks.new ≡ blocks.old) }
    ensures ready { IsTrue (J.ready journal.old) → IsOk result × IsTrue (J.ready journal.new) }
{
    let Some(Leaver { id, cause }) = leaver else {
        return Ok(None);
    };
    let Some(key) = Key::from_bytes(index.item(id).key) else {
        return Ok(None);
    };
    journal.note(Note::Dropped(&key, cause), None, None, None)?;
    take_out(index, blocks, id);
    Ok(Some(key))
}
