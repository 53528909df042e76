// Laws of which items are live. Each function has no body: its contract is the law.
ghost use Rattle.flash_heads.specs.Living.{EachItemLivesAlike, EachLiveItemIsHidden, TheNextLiveKeyIsTheSame};

/// An item is dead by the heads where it is dead, and live where it is live.
pub fn each_item_lives_alike()
    ensures { EachItemLivesAlike }
{}

/// The live item under a key by the heads is the head of the key's live item.
pub fn each_live_item_is_hidden()
    ensures { EachLiveItemIsHidden }
{}

/// Behind each key the next one with a live item is the same.
pub fn the_next_live_key_is_the_same()
    ensures { TheNextLiveKeyIsTheSame }
{}
