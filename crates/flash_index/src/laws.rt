// Laws of the three lists. Each function has no body: its contract is the law.
ghost use Rattle.flash_index.specs.Laws.{NoItemsAreListed, EachPutIsListed, EachRemovalIsListed, EachChangeIsListed};
ghost use Rattle.flash_index.specs.Laws.{EachResizeIsListed, EachUseIsListed, EachMoveIsListed, TheLoadIsThatOfTheLists};
ghost use Rattle.flash_index.specs.Laws.{EachLastHasAnItem, NoLastIsNoLoad};

/// No items have empty lists.
pub fn no_items_are_listed()
    ensures { NoItemsAreListed }
{}

/// An item that is put under its key goes to HOT's front.
pub fn each_put_is_listed()
    ensures { EachPutIsListed }
{}

/// An item that is taken out leaves the lists.
pub fn each_removal_is_listed()
    ensures { EachRemovalIsListed }
{}

/// An item that changes and keeps its size stays where it is.
pub fn each_change_is_listed()
    ensures { EachChangeIsListed }
{}

/// An item that changes its size stays where it is, and its card has the size.
pub fn each_resize_is_listed()
    ensures { EachResizeIsListed }
{}

/// A card that becomes active stays where it is.
pub fn each_use_is_listed()
    ensures { EachUseIsListed }
{}

/// A card that moves is in the lists once.
pub fn each_move_is_listed()
    ensures { EachMoveIsListed }
{}

/// The load is the sum of the cards' sizes.
pub fn the_load_is_that_of_the_lists()
    ensures { TheLoadIsThatOfTheLists }
{}

/// The last key of a list has an item.
pub fn each_last_has_an_item()
    ensures { EachLastHasAnItem }
{}

/// Where no item would leave memory next there is none.
pub fn no_last_is_no_load()
    ensures { NoLastIsNoLoad }
{}
