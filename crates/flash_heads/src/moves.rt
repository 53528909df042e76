// Laws of items whose value moves to a page, or back into memory. Each function has no body: its contract is the law.
ghost use Rattle.flash_heads.specs.Moves.{EachMoveIsHidden, EachMoveIsThatOfTheHeads, EachRecachedItemIsKnown};

/// After a move the heads have the item with its new label, and zeros in place of its value.
pub fn each_move_is_hidden()
    ensures { EachMoveIsHidden }
{}

/// A move of the heads leaves what has the heads that the move leaves.
pub fn each_move_is_that_of_the_heads()
    ensures { EachMoveIsThatOfTheHeads }
{}

/// An item whose value is in memory again stands in the heads with that value.
pub fn each_recached_item_is_known()
    ensures { EachRecachedItemIsKnown }
{}
