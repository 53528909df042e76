ghost use Rattle.std.specs.Prelude.{◌≡◌, ◌+◌, ◌*◌, ◌^◌, ◌<◌, ◌≤◌, ◌↔◌, ℕ, List, None, Some, IsTrue, IfSome, IfOk, OnOk, IsOk, option_map, length, nat_eq};
ghost use Rattle.std.specs.FinMap as map;
ghost use Rattle.flash_names.specs.declared.place.ItemId.{ItemId};
ghost use Rattle.flash_lru.specs.Lists.{SegmentLists, empty_lists, list_of};
ghost use Rattle.flash_lru.specs.Moves.{touched};
ghost use Rattle.flash_lru.specs.Ends.{last_item, last_out, before};
ghost use Rattle.flash_lru.specs.Juggle.{next_move, move_item, with_move};
ghost use Rattle.flash_items.specs.declared.item.Item.{Item};
ghost use Rattle.flash_items.specs.Item.{IsSmall, with_key, parts_of as the_parts};
ghost use Rattle.flash_items.specs.ItemsState.{ItemsState, item_at, HasItem, IsAt, load_of};
ghost use Rattle.flash_items.specs.Calls.{IsAdded, IsTaken, body_set, use_set, replaced, with_lists};
ghost use Rattle.flash_items.specs.Law.{IsInStep};

use crate::item::{Body, Entry, Item, ItemView, Parts, parts_of, size_of};
use flash_lru::{Segment, Segments};
use flash_names::{ItemId, Key};
use flash_table::Table;
use slab::Slab;
use std::alloc::{AllocError, Global};
use std::marker::Model;
use std::mem;

/// The items, by key and by id, and the lists of their cards.
#[derive(Drop)]
pub struct Items {
    table: Table,
    entries: Slab<Entry>,
    segments: Segments,
}

impl Model for Items {
    ghost use Rattle.flash_items.specs.ItemsState.{ItemsState};
    ghost use Rattle.flash_items.specs.Codes.{items_code};

    ghost Value = { ItemsState };

    ghost coded = { items_code };

    ghost use Rattle.flash_items.specs.Joined.{state_of, IsJoined};

    ghost view = { λ s. state_of s.table s.entries s.segments };

    ghost invariant = { λ s. IsJoined s.table s.entries s.segments };
}

impl Items {
    /// No items, or out of memory. `memory` is the number of bytes of which HOT and WARM have their shares.
    pub fn open(alloc: Global, memory: u64) -> Result<Items, AllocError>
        ensures ids { IfOk result (λ items. items.ids ≡ map.empty) }
        ensures items { IfOk result (λ items. items.items ≡ map.empty) }
        ensures lists { IfOk result (λ items. items.lists ≡ empty_lists memory) }
    {
        Ok(Items {
            table: Table::open(alloc)?,
            entries: Slab::new(alloc),
            segments: Segments::open(alloc, memory),
        })
    }

    /// The id of the key's item.
    pub fn find(&self, key: &Key) -> Option<ItemId>
        ensures { option_map (λ id. id.key) result ≡ map.get self.now.ids key.now }
    {
        self.table.find(key)
    }

    /// The item, lent for reading. There has to be one.
    pub fn item(&self, id: ItemId) -> ItemView<'_>
        requires { HasItem self.now id }
        ensures { IsAt self.now id (with_key result.key.now result.parts.now) }
    {
        let entry = &self.entries[id.key];
        ItemView {
            key: self.table.key(entry.key),
            parts: &entry.parts,
        }
    }

    /// Makes room for one item more, or answers that it is out of memory. The items and the lists stay.
    pub fn reserve_one(&mut self, alloc: Global) -> Result<(), AllocError>
        ensures room { OnOk result (1 ≤ self.new.spare) }
        ensures spare { self.old.spare ≤ self.new.spare }
        ensures ids { self.new.ids ≡ self.old.ids }
        ensures items { self.new.items ≡ self.old.items }
        ensures lists { self.new.lists ≡ record self.old.lists { spare = self.new.lists.spare } }
    {
        self.table.reserve_one(alloc)?;
        self.entries.reserve(1)?;
        let next = ItemId {
            key: self.entries.vacant_key(),
        };
        self.segments.reserve_one(next)
    }

    /// Adds an item at HOT's front, and gives its id. There has to be room for it, and its key may not be there.
    pub fn insert(&mut self, item: Item) -> ItemId
        requires room { 1 ≤ self.old.spare }
        requires absent { map.get self.old.ids item.key ≡ None }
        requires small { IsSmall item.body }
        ensures fresh { item_at self.old result ≡ None }
        ensures added { IsAdded self.old self.new result item }
    {
        let size = size_of(item.key.bytes().len(), &item.body);
        let id = ItemId {
            key: self.entries.vacant_key(),
        };
        self.segments.has_one_each();
        let name = self.table.insert(&item.key, id);
        let _ = self.entries.insert_reserved(Entry {
            key: name,
            parts: parts_of(item),
        });
        self.segments.put_hot(id, size);
        id
    }

    /// Puts another item in the place of the one with this id, at HOT's front, and gives the old one's parts
    /// back. There has to be one, and both have the same key.
    pub fn replace(&mut self, id: ItemId, item: Item) -> Parts
        requires there { HasItem self.old id }
        requires same { (was : Item) → IsAt self.old id was → was.key ≡ item.key }
        requires small { IsSmall item.body }
        ensures was { IsAt self.old id (with_key item.key result) }
        ensures now { self.new ≡ replaced id item self.old }
    {
        let new_size = size_of(item.key.bytes().len(), &item.body);
        self.segments.has_one_each();
        let entry = &mut self.entries[id.key];
        let was = mem::replace(&mut entry.parts, parts_of(item));
        self.segments.put_hot(id, new_size);
        was
    }

    /// Takes the item out of the map and the lists, and gives its parts back. There has to be one.
    pub fn remove(&mut self, id: ItemId) -> Parts
        requires { HasItem self.old id }
        ensures was { (item : Item) → IsAt self.old id item → result ≡ the_parts item }
        ensures taken { (item : Item) → IsAt self.old id item → IsTaken self.old self.new id item }
        ensures spare { self.old.spare ≤ self.new.spare }
    {
        self.segments.has_one_each();
        self.segments.remove(id);
        let entry = self.entries.remove(id.key);
        let _ = self.table.take(entry.key);
        entry.parts
    }

    /// Gives the item another value, and its card the size that it has then; gives the old value back. There
    /// has to be one.
    pub fn set_body(&mut self, id: ItemId, body: Body) -> Body
        requires there { HasItem self.old id }
        requires small { IsSmall body }
        ensures was { (item : Item) → IsAt self.old id item → result ≡ item.body }
        ensures now { (item : Item) → IsAt self.old id item → self.new ≡ body_set id item body self.old }
    {
        let size = size_of(self.table.key(self.entries[id.key].key).len(), &body);
        let entry = &mut self.entries[id.key];
        let was = mem::replace(&mut entry.parts.body, body);
        self.segments.resize(id, size);
        was
    }

    /// Gives the item another deadline, mark of a fetch and moment of use, and leaves the rest. There has to be
    /// one.
    pub fn set_use(&mut self, id: ItemId, deadline: Option<u64>, fetched: bool, access: u64)
        requires { HasItem self.old id }
        ensures { (item : Item) → IsAt self.old id item → self.new ≡ use_set id item deadline fetched access self.old }
    {
        let entry = &mut self.entries[id.key];
        entry.parts.deadline = deadline;
        entry.parts.fetched = fetched;
        entry.parts.access = access;
    }

    /// Marks the item's card as active. There has to be one.
    pub fn touch(&mut self, id: ItemId)
        requires { HasItem self.old id }
        ensures { self.new ≡ with_lists (touched id self.old.lists) self.old }
    {
        self.segments.touch(id);
    }

    /// The item that leaves memory next: the last of COLD, else of WARM, else of HOT.
    pub fn last_out(&self) -> Option<ItemId>
        ensures { result ≡ last_out self.now.lists }
    {
        self.segments.last_out()
    }

    /// The last item of a segment's list.
    pub fn last_of(&self, segment: Segment) -> Option<ItemId>
        ensures { result ≡ last_item (list_of segment self.now.lists) }
    {
        self.segments.last_of(segment)
    }

    /// The item directly before this one in its list; `None` where this one is the first. There has to be one.
    pub fn before(&self, id: ItemId) -> Option<ItemId>
        requires { HasItem self.now id }
        ensures { result ≡ before id self.now.lists }
    {
        self.segments.before(id)
    }

    /// Makes the first move of a card that applies, as `Segments::juggle_one`, and gives the item that moved.
    pub fn juggle_one(&mut self) -> Option<ItemId>
        ensures item { result ≡ move_item (next_move self.old.lists) }
        ensures lists { self.new ≡ with_lists (with_move (next_move self.old.lists) self.old.lists) self.old }
    {
        self.segments.juggle_one()
    }

    /// How many items there are.
    pub fn len(&self) -> u64
        ensures { result ≡ map.len self.now.items }
    {
        self.entries.len() as u64
    }

    /// Whether there are no items.
    pub fn is_empty(&self) -> bool
        ensures { result ≡ nat_eq (map.len self.now.items) 0 }
    {
        self.len() == 0
    }

    /// The sum of the items' sizes, in bytes.
    pub fn load(&self) -> u64
        ensures { result ≡ load_of self.now }
    {
        self.segments.load()
    }

    /// A key's id has the item of that key, an item's key has its id, and each item has one card, of its size.
    /// It does nothing.
    pub fn is_in_step(&self)
        ensures { IsInStep self.now }
    {
        self.segments.has_one_each();
    }
}
