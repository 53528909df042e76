// How far the lists are known to have no item that can move to flash.
ghost use Rattle.std.specs.Prelude.{◌≡◌};
ghost use Rattle.flash_index.specs.Marking.{mark_of, no_marks, passed, marks_after};

use crate::move_rule::MoveBounds;
use flash_lru::Segment;
use flash_names::ItemId;

/// For each list an item of it, from whose card on, to the last one, no item can move to flash while it stays there:
/// its value is on flash, or its sizes aren't within the bounds.
#[derive(Clone, Copy)]
pub struct Marks {
    /// The bounds.
    pub bounds: MoveBounds,
    /// The item of HOT; `None` where nothing is known of HOT.
    pub hot: Option<ItemId>,
    /// The item of WARM.
    pub warm: Option<ItemId>,
    /// The item of COLD.
    pub cold: Option<ItemId>,
}

impl Marks {
    /// Nothing is known.
    pub fn none(bounds: MoveBounds) -> Marks
        ensures { result ≡ no_marks bounds }
    {
        Marks {
            bounds,
            hot: None,
            warm: None,
            cold: None,
        }
    }

    /// The item of a segment's list.
    pub fn of(&self, segment: Segment) -> Option<ItemId>
        ensures { result ≡ mark_of segment self.now }
    {
        match segment {
            Segment::Hot => self.hot,
            Segment::Warm => self.warm,
            Segment::Cold => self.cold,
        }
    }

    /// The marks after the card of an item, where there is one, left its list. Where the item is a mark, another one
    /// is given in its place.
    pub fn after(self, item: Option<ItemId>, other: Option<ItemId>) -> Marks
        ensures { result ≡ marks_after item other self }
    {
        match item {
            None => self,
            Some(item) => Marks {
                bounds: self.bounds,
                hot: passed(item, other, self.hot),
                warm: passed(item, other, self.warm),
                cold: passed(item, other, self.cold),
            },
        }
    }
}

// A mark after the card of an item left its list.
fn passed(item: ItemId, other: Option<ItemId>, mark: Option<ItemId>) -> Option<ItemId>
    ensures { result ≡ passed item other mark }
{
    match mark {
        None => None,
        Some(mark) => {
            if mark.key == item.key {
                other
            } else {
                Some(mark)
            }
        }
    }
}
