ghost use Rattle.std.specs.Prelude.{◌≡◌, ℕ, List};
ghost use Rattle.std.specs.FinMap as map;
ghost use Rattle.flash_names.specs.declared.place.ItemId.{ItemId};
ghost use Rattle.flash_items.specs.declared.item.Item.{Item};
ghost use Rattle.flash_items.specs.ItemsState.{ItemsState};
ghost use Rattle.flash_items.specs.Calls.{IsAdded, IsTaken};
ghost use Rattle.flash_items.specs.Law.{IsInStep};
ghost use Rattle.flash_items.specs.History.{Call, inserts, removes, after, after_all, AllAllowed, last_id, IsListed};

/// A key is found exactly where it was inserted and not removed since, over any list of calls. It does nothing.
pub fn finds_the_inserted()
    // After any calls the key has the id of its last insert, or none where a remove of it came after.
    ensures found { (s : ItemsState) (key : List ℕ) (calls : List Call) →
        map.get (after_all calls s).ids key ≡ last_id key calls (map.get s.ids key) }

    // `insert` and `remove` are the calls of the list.
    ensures added { (old new : ItemsState) (id : ItemId) (item : Item) →
        IsAdded old new id item → new ≡ after (inserts id item new.spare) old }
    ensures taken { (old new : ItemsState) (id : ItemId) (item : Item) →
        IsTaken old new id item → new ≡ after (removes id item new.spare) old }
{}

/// The lists have exactly the items, each once and with its size, over any list of calls that each may be made. It
/// does nothing.
pub fn lists_each_once()
    ensures start { (s : ItemsState) → IsInStep s → IsListed s }
    ensures kept { (s : ItemsState) (calls : List Call) →
        IsListed s → AllAllowed s calls → IsListed (after_all calls s) }
{}
