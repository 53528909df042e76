// Laws of what the heads have of a cache. Each function has no body: its contract is the law.
ghost use Rattle.flash_heads.specs.Kept.{AnItemInMemoryIsKnown, EachItemKeepsItsSize, AnItemIsHiddenOnce};
ghost use Rattle.flash_heads.specs.Kept.{EachKeyHasItsHead, EachEntryHasItsHead, EachPutIsHidden, EachRemovalIsHidden};
ghost use Rattle.flash_heads.specs.Kept.{EachHeadIsOfAnItem, EachCacheKeepsItsNumbers, EachCacheKeepsItsCasNumbers};
ghost use Rattle.flash_heads.specs.Kept.{ACacheInMemoryIsKnown, ACacheIsHiddenOnce, TheFirstCacheIsKnown};

/// An item in memory is its own head.
pub fn an_item_in_memory_is_known()
    ensures { AnItemInMemoryIsKnown }
{}

/// An item's head has a value of the same length, and takes the same of the memory.
pub fn each_item_keeps_its_size()
    ensures { EachItemKeepsItsSize }
{}

/// The head of an item's head is that head.
pub fn an_item_is_hidden_once()
    ensures { AnItemIsHiddenOnce }
{}

/// Under each key the heads have the head of the key's item.
pub fn each_key_has_its_head()
    ensures { EachKeyHasItsHead }
{}

/// What the heads have under a key is the head of the key's item.
pub fn each_head_is_of_an_item()
    ensures { EachHeadIsOfAnItem }
{}

/// The heads have the cache's keys in their order.
pub fn each_entry_has_its_head()
    ensures { EachEntryHasItsHead }
{}

/// An item that is put in is put into the heads by its head.
pub fn each_put_is_hidden()
    ensures { EachPutIsHidden }
{}

/// An item that is taken out is taken out of the heads.
pub fn each_removal_is_hidden()
    ensures { EachRemovalIsHidden }
{}

/// The heads have as many items, the same load, the same moment, the same last CAS number and the same flushes.
pub fn each_cache_keeps_its_numbers()
    ensures { EachCacheKeepsItsNumbers }
{}

/// The heads' items have the CAS numbers of the cache's.
pub fn each_cache_keeps_its_cas_numbers()
    ensures { EachCacheKeepsItsCasNumbers }
{}

/// A cache whose items are all in memory is its own heads.
pub fn a_cache_in_memory_is_known()
    ensures { ACacheInMemoryIsKnown }
{}

/// The heads of heads are those heads.
pub fn a_cache_is_hidden_once()
    ensures { ACacheIsHiddenOnce }
{}

/// The first cache is its own heads.
pub fn the_first_cache_is_known()
    ensures { TheFirstCacheIsKnown }
{}
