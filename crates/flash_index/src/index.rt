ghost use Rattle.std.specs.Prelude.{◌≡◌, ◌≤◌, ◌+◌, ℕ, List, length, Some, IfOk, OnOk, is_some, option_map, nat_eq};
ghost use Rattle.std.specs.FinMap as map;
ghost use Rattle.flash_items.specs.Item.{IsSmall};
ghost use Rattle.flash_lru.specs.declared.segment.Segment.TheVariants.{Hot};
ghost use Rattle.flash_machine.specs.Item as machine;
ghost use Rattle.flash_machine.specs.Load.{item_load, load_of};
ghost use Rattle.flash_index.specs.Known.{known_item, known_parts};
ghost use Rattle.flash_index.specs.Places.{place_of, with_place};
ghost use Rattle.flash_index.specs.KeyLists.{empty_lists, list_of, moved, removed, touched, resized};
ghost use Rattle.flash_index.specs.KeyEnds.{last_key, last_out, before};
ghost use Rattle.flash_index.specs.KeyJuggle.{next_move, with_move};
ghost use Rattle.flash_index.specs.NextToMove.{next_key_to_move};
ghost use Rattle.flash_index.specs.IndexState.{IndexState, Names, HasId, AreNamed};
ghost use Rattle.flash_index.specs.Listed.{IsListed};

use crate::marks::Marks;
use crate::move_rule::{MoveBounds, MoveRule};
use crate::moving::{marked, next_to_move};
use flash_items::{Body, Item, ItemView, Items};
use flash_lru::Segment;
use flash_names::{ItemId, Key, Place};
use std::alloc::{AllocError, Global};
use std::marker::Model;

// The bounds before the first search.
const NO_BOUNDS: MoveBounds = MoveBounds { least: 0, most: 0 };

/// The items under their keys, and the three lists of the keys.
#[derive(Drop)]
pub struct Index {
    items: Items,
    marks: Marks,
}

impl Model for Index {
    ghost use Rattle.flash_index.specs.IndexState.{IndexState};
    ghost use Rattle.flash_index.specs.Codes.{index_code};

    ghost Value = { IndexState };

    ghost coded = { index_code };

    ghost use Rattle.flash_index.specs.Seen.{seen};
    ghost use Rattle.flash_index.specs.Marking.{AreMarks};

    ghost view = { λ s. seen s.items };

    ghost invariant = { λ s. AreMarks s.marks s.items };
}

impl Index {
    /// An index without items, or out of memory. `memory` is the number of bytes of which HOT and WARM have their
    /// shares.
    pub fn open(alloc: Global, memory: u64) -> Result<Index, AllocError>
        ensures { IfOk result (λ index. index ≡ record {
          items = map.empty;
          places = map.empty;
          lists = empty_lists;
          memory = memory;
          ids = map.empty;
          spare = index.spare;
        }) }
    {
        Ok(Index {
            items: Items::open(alloc, memory)?,
            marks: Marks::none(NO_BOUNDS),
        })
    }

    /// The id of the key's item, where it has one.
    pub fn find(&self, key: &Key) -> Option<ItemId>
        ensures id { option_map (λ id. id.key) result ≡ map.get self.now.ids key.now }
        ensures there { is_some result ≡ is_some (map.get self.now.items key.now) }
    {
        self.items.is_in_step();
        self.items.find(key)
    }

    /// The item of this id, lent for reading. There has to be one.
    pub fn item(&self, id: ItemId) -> ItemView<'_>
        requires { HasId self.now id }
        ensures key { (key : List ℕ) → Names self.now id key → result.key.now ≡ key }
        ensures item { (key : List ℕ) → Names self.now id key
            → map.get self.now.items key ≡ Some (known_parts (length key) result.parts.now) }
        ensures place { (key : List ℕ) → Names self.now id key
            → place_of result.parts.now.body ≡ map.get self.now.places key }
    {
        self.items.is_in_step();
        self.items.item(id)
    }

    /// The place of the value of this id's item, where it is on flash. There has to be an item.
    pub fn place(&self, id: ItemId) -> Option<Place>
        requires { HasId self.now id }
        ensures { (key : List ℕ) → Names self.now id key → result ≡ map.get self.now.places key }
    {
        self.items.is_in_step();
        match &self.items.item(id).parts.body {
            Body::Here(_) => None,
            Body::Away(place) => Some(*place),
        }
    }

    /// Makes room for one item more, or answers that it is out of memory. The items and the lists stay.
    pub fn reserve_one(&mut self, alloc: Global) -> Result<(), AllocError>
        ensures room { OnOk result (1 ≤ self.new.spare) }
        ensures same { self.new ≡ record self.old { spare = self.new.spare } }
    {
        self.items.reserve_one(alloc)
    }

    /// Puts an item under its key, and the key at HOT's front. `id` is that of the key's item before, where there is
    /// one; it has to be that of `find`. There has to be room for one item more.
    pub fn put(&mut self, id: Option<ItemId>, item: Item)
        requires room { 1 ≤ self.old.spare }
        requires id { option_map (λ id. id.key) id ≡ map.get self.old.ids item.key }
        requires small { IsSmall item.body }
        ensures items { self.new.items ≡ map.insert self.old.items item.key (known_item item) }
        ensures places { self.new.places ≡ with_place item.key (place_of item.body) self.old.places }
        ensures lists { self.new.lists ≡ moved Hot item.key (item_load item.key (known_item item)) self.old.lists }
        ensures memory { self.new.memory ≡ self.old.memory }
    {
        self.items.is_in_step();
        match id {
            None => {
                let _ = self.items.insert(item);
            }
            Some(id) => {
                self.marks = self.marks.after(Some(id), None);
                let _ = self.items.replace(id, item);
            }
        }
    }

    /// Takes the item of this id out of the index and its lists. There has to be one.
    pub fn remove(&mut self, id: ItemId)
        requires { HasId self.old id }
        ensures items { (key : List ℕ) → Names self.old id key → self.new.items ≡ map.remove self.old.items key }
        ensures places { (key : List ℕ) → Names self.old id key → self.new.places ≡ map.remove self.old.places key }
        ensures lists { (key : List ℕ) → Names self.old id key → self.new.lists ≡ removed key self.old.lists }
        ensures memory { self.new.memory ≡ self.old.memory }
        ensures spare { self.old.spare ≤ self.new.spare }
    {
        self.items.is_in_step();
        self.marks = self.marks.after(Some(id), None);
        let _ = self.items.remove(id);
    }

    /// Gives the item of this id another deadline, mark of a fetch and moment of use, and leaves the rest. There has
    /// to be one.
    pub fn set_use(&mut self, id: ItemId, deadline: Option<u64>, fetched: bool, access: u64)
        requires { HasId self.old id }
        ensures { (key : List ℕ) (item : machine.Item) → Names self.old id key → map.get self.old.items key ≡ Some item
            → self.new ≡ record self.old {
              items = map.insert self.old.items key (record item {
                deadline = deadline;
                fetched = fetched;
                access = access;
              });
            } }
    {
        self.items.is_in_step();
        self.items.set_use(id, deadline, fetched, access)
    }

    /// Gives the memory of the value of this id's item back: from now on the value is in a record on flash, at this
    /// place. The item's card stays where it is, and has the size that the item has then. There has to be an item, and
    /// the record has 32 bytes beside the key and the value.
    pub fn move_away(&mut self, id: ItemId, place: Place)
        requires there { HasId self.old id }
        requires length { (key : List ℕ) (item : machine.Item) → Names self.old id key
            → map.get self.old.items key ≡ Some item → place.length ≡ 32 + length key + length item.value }
        ensures { (key : List ℕ) (item : machine.Item) → Names self.old id key → map.get self.old.items key ≡ Some item
            → self.new ≡ record self.old {
              items = map.insert self.old.items key (machine.moved_head place.label item);
              places = map.insert self.old.places key place;
              lists = resized key (item_load key (machine.moved_head place.label item)) self.old.lists;
            } }
    {
        self.items.is_in_step();
        let _ = self.items.set_body(id, Body::Away(place));
    }

    /// Marks the item of this id as active in its list. There has to be one.
    pub fn touch(&mut self, id: ItemId)
        requires { HasId self.old id }
        ensures { (key : List ℕ) → Names self.old id key
            → self.new ≡ record self.old { lists = touched key self.old.lists } }
    {
        self.items.is_in_step();
        self.items.touch(id)
    }

    /// The item that leaves memory next: the last of COLD, else of WARM, else of HOT.
    pub fn last_out(&self) -> Option<ItemId>
        ensures { AreNamed self.now result (last_out self.now.lists) }
    {
        self.items.is_in_step();
        self.items.last_out()
    }

    /// The last item of a segment's list.
    pub fn last_of(&self, segment: Segment) -> Option<ItemId>
        ensures { AreNamed self.now result (last_key (list_of segment self.now.lists)) }
    {
        self.items.is_in_step();
        self.items.last_of(segment)
    }

    /// The item directly before this one in its list; `None` where this one is the first. There has to be one.
    pub fn before(&self, id: ItemId) -> Option<ItemId>
        requires { HasId self.now id }
        ensures { (key : List ℕ) → Names self.now id key → AreNamed self.now result (before key self.now.lists) }
    {
        self.items.is_in_step();
        self.items.before(id)
    }

    /// The item that moves to flash next: the first, from the last of COLD, then of WARM, then of HOT, towards the
    /// front, that may move by the rule.
    ///
    /// What can't move while it stays in its list, because its value is on flash or its sizes aren't within the rule's
    /// bounds, is passed over once, and not again by the next search with the same bounds.
    pub fn next_to_move(&mut self, rule: &MoveRule) -> Option<ItemId>
        ensures named { AreNamed self.old result (next_key_to_move rule.now self.old.items self.old.lists) }
        ensures same { self.new ≡ self.old }
    {
        self.items.is_in_step();
        self.marks = marked(&self.items, &self.marks, rule.bounds());
        next_to_move(&self.items, &self.marks, rule)
    }

    /// Makes the first move of a key between the lists that applies, and answers whether there is one: from a HOT
    /// above 20 % of the memory, from a WARM above 40 %, or of an active last of COLD.
    pub fn juggle_one(&mut self) -> bool
        ensures moved { result ≡ is_some (next_move self.old.memory self.old.lists) }
        ensures lists { self.new
            ≡ record self.old { lists = with_move (next_move self.old.memory self.old.lists) self.old.lists } }
    {
        self.items.is_in_step();
        let moved = self.items.juggle_one();
        self.marks = self.marks.after(moved, None);
        moved.is_some()
    }

    /// How many items there are.
    pub fn len(&self) -> u64
        ensures { result ≡ map.len self.now.items }
    {
        self.items.is_in_step();
        self.items.len()
    }

    /// Whether there are no items.
    pub fn is_empty(&self) -> bool
        ensures { result ≡ nat_eq (map.len self.now.items) 0 }
    {
        self.len() == 0
    }

    /// What the items take of the memory, in bytes: 64 for each, its key, and its value where that is in memory.
    pub fn load(&self) -> u64
        ensures { result ≡ load_of self.now.items }
    {
        self.items.is_in_step();
        self.items.load()
    }

    /// The three lists have each key of an item once, with the item's size. It does nothing.
    pub fn is_listed(&self)
        ensures { IsListed self.now.items self.now.lists }
    {
        self.items.is_in_step();
    }
}
