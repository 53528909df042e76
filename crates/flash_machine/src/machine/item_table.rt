ghost use Rattle.std.specs.Prelude.{◌≡◌, OnOk, OnErr};
ghost use Rattle.std.specs.List.{filter};
ghost use Rattle.std.specs.Option.{option_copied};
ghost use Rattle.std.specs.FinMap as map;
ghost use Rattle.flash_machine.specs.Cache.{Items};
ghost use Rattle.flash_machine.specs.Live.{is_behind};
ghost use Rattle.flash_machine.specs.Load.{load_of, item_load};
ghost use Rattle.flash_machine.specs.Followed.{FollowsItems, labelled_count, label_of_found, counted};

use crate::machine::item::Item;
use crate::machine::label_counts::LabelCounts;
use crate::machine::map_key::MapKey;
use flash_names::{Key, Label};
use std::alloc::{AllocError, Global};
use std::collections::BTreeMap;
use std::collections::btree_map::Range;
use std::ops::Bound;

// The items by their keys, what they take of the memory, and how many have each label.
#[derive(Drop)]
pub struct ItemTable {
    items: BTreeMap<MapKey, Item>,
    load: u64,
    labelled: LabelCounts,
}

impl ItemTable {
    pub fn new(alloc: Global) -> ItemTable
        ensures { FollowsItems result map.empty }
    {
        ItemTable {
            items: BTreeMap::new(alloc),
            load: 0,
            labelled: LabelCounts::new(alloc),
        }
    }

    pub fn get(&self, key: &Key) -> Option<&Item>
        ensures { (items : Items) → FollowsItems self.now items → option_copied result ≡ map.get items key.now }
    {
        self.items.get(&MapKey::of(key))
    }

    // The items behind a key in the order of the bytes, or all of them.
    pub fn behind(&self, after: Option<&Key>) -> Range<'_, MapKey, Item>
        ensures { (items : Items) → FollowsItems self.now items
            → result ≡ filter (λ entry. is_behind (option_copied after.entry) entry.0) (map.entries items) }
    {
        let start = match after {
            None => Bound::Unbounded,
            Some(key) => Bound::Excluded(MapKey::of(key)),
        };
        self.items.range((start, Bound::Unbounded))
    }

    pub fn len(&self) -> usize
        ensures { (items : Items) → FollowsItems self.now items → result ≡ map.len items }
    {
        self.items.len()
    }

    pub fn load(&self) -> u64
        ensures { (items : Items) → FollowsItems self.now items → result ≡ load_of items }
    {
        self.load
    }

    // How many items have the label.
    pub fn labelled(&self, label: Label) -> u64
        ensures { (items : Items) → FollowsItems self.now items → result ≡ labelled_count label items }
    {
        self.labelled.count(label)
    }

    // The label of the key's item, if it has one.
    fn label_of(&self, key: &Key) -> Option<Label>
        ensures { (items : Items) → FollowsItems self.now items → result ≡ label_of_found (map.get items key.now) }
    {
        self.get(key).and_then(|item| item.label)
    }

    // What the key's item takes of the memory.
    fn load_of(&self, key: &Key) -> u64
        ensures { (items : Items) → FollowsItems self.now items
            → result ≡ counted (λ e. item_load e.0 e.1) key.now (map.get items key.now) }
    {
        match self.get(key) {
            None => 0,
            Some(item) => item_load(key, item),
        }
    }

    // Puts the item under the key, in place of the one that is there.
    pub fn put(&mut self, key: &Key, item: Item) -> Result<(), AllocError>
        ensures put { OnOk result ((items : Items) → FollowsItems self.old items
            → FollowsItems self.new (map.insert items key.now item)) }
        ensures refused { OnErr result ((items : Items) → FollowsItems self.old items → FollowsItems self.new items) }
    {
        let old_label = self.label_of(key);
        let others = self.load.saturating_sub(self.load_of(key));
        let load = others.checked_add(item_load(key, &item)).ok_or(AllocError)?;
        let label = item.label;
        self.labelled.raise(label)?;
        if self.items.insert(MapKey::of(key), item).is_err() {
            self.labelled.lower(label);
            return Err(AllocError);
        }
        self.labelled.lower(old_label);
        self.load = load;
        Ok(())
    }

    // Takes the key's item out, if there is one.
    pub fn remove(&mut self, key: &Key)
        ensures { (items : Items) → FollowsItems self.old items → FollowsItems self.new (map.remove items key.now) }
    {
        let old_label = self.label_of(key);
        self.load = self.load.saturating_sub(self.load_of(key));
        let _ = self.items.remove(&MapKey::of(key));
        self.labelled.lower(old_label);
    }
}

// What an item takes of the memory under a key.
fn item_load(key: &Key, item: &Item) -> u64
    ensures { result ≡ item_load key.now item.now }
{
    64 + key.bytes().len() as u64 + item.bytes_here() as u64
}
