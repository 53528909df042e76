// The search for the item that moves to flash next.
ghost use Rattle.std.specs.Prelude.{◌≡◌, option_map};
ghost use Rattle.std.specs.Option.{option_or};
ghost use Rattle.flash_lru.specs.Lists.{list_of};
ghost use Rattle.flash_index.specs.NextToMove.{bounds_of};
ghost use Rattle.flash_index.specs.Walk.{last_passing, card_may_move, item_before};
ghost use Rattle.flash_index.specs.Marking.{IsMark, AreMarks, mark_of};

use crate::marks::Marks;
use crate::move_rule::{MoveBounds, MoveRule};
use flash_items::Items;
use flash_lru::Segment;
use flash_names::ItemId;

/// The marks for these bounds, each as far to the front as all items from there to the last can't move.
pub fn marked(items: &Items, marks: &Marks, bounds: MoveBounds) -> Marks
    requires { AreMarks marks.now items.now }
    ensures bounds { result.bounds ≡ bounds }
    ensures marks { AreMarks result items.now }
{
    let known = known_marks(items, marks, bounds);
    Marks {
        bounds,
        hot: mark_on(items, Segment::Hot, bounds, known.hot),
        warm: mark_on(items, Segment::Warm, bounds, known.warm),
        cold: mark_on(items, Segment::Cold, bounds, known.cold),
    }
}

// The marks where they are for these bounds, and else none.
fn known_marks(items: &Items, marks: &Marks, bounds: MoveBounds) -> Marks
    requires { AreMarks marks.now items.now }
    ensures bounds { result.bounds ≡ bounds }
    ensures marks { AreMarks result items.now }
{
    if marks.bounds.least == bounds.least && marks.bounds.most == bounds.most {
        *marks
    } else {
        Marks::none(bounds)
    }
}

// The mark of a segment's list moved to the front as far as it goes.
fn mark_on(
    items: &Items,
    segment: Segment,
    bounds: MoveBounds,
    known: Option<ItemId>,
) -> Option<ItemId>
    requires { IsMark bounds items.now.items known (list_of segment items.now.lists) }
    ensures { IsMark bounds items.now.items result (list_of segment items.now.lists) }
{
    items.is_in_step();
    let mut mark = known;
    let mut next = before_mark(items, segment, bounds, known);
    'cards: while let Some(id) = next {
        let item = items.item(id);
        if bounds.allow(item.key, item.parts) {
            return mark;
        }
        mark = Some(id);
        next = items.before(id);
    }
    mark
}

// The item before a segment's mark, or its last one where there is no mark.
fn before_mark(
    items: &Items,
    segment: Segment,
    bounds: MoveBounds,
    mark: Option<ItemId>,
) -> Option<ItemId>
    requires { IsMark bounds items.now.items mark (list_of segment items.now.lists) }
    ensures { result ≡ item_before mark (list_of segment items.now.lists) }
{
    items.is_in_step();
    match mark {
        None => items.last_of(segment),
        Some(id) => {
            let previous = items.before(id);
            previous
        }
    }
}

/// The first item, from the last of COLD, then of WARM, then of HOT, towards the front, that may move.
pub fn next_to_move(items: &Items, marks: &Marks, rule: &MoveRule) -> Option<ItemId>
    requires bounds { marks.now.bounds ≡ bounds_of rule.now }
    requires marks { AreMarks marks.now items.now }
    ensures { let test = card_may_move rule.now items.now.items in
        result ≡ option_map (λ card. card.item) (option_or (last_passing test items.now.lists.cold)
        (option_or (last_passing test items.now.lists.warm) (last_passing test items.now.lists.hot))) }
{
    let cold = last_to_move(items, Segment::Cold, marks, rule);
    if cold.is_some() {
        return cold;
    }
    let warm = last_to_move(items, Segment::Warm, marks, rule);
    if warm.is_some() {
        return warm;
    }
    last_to_move(items, Segment::Hot, marks, rule)
}

// The last item of a segment that may move. It is in front of the mark.
fn last_to_move(items: &Items, segment: Segment, marks: &Marks, rule: &MoveRule) -> Option<ItemId>
    requires bounds { marks.now.bounds ≡ bounds_of rule.now }
    requires marks { AreMarks marks.now items.now }
    ensures { result ≡ option_map (λ card. card.item)
        (last_passing (card_may_move rule.now items.now.items) (list_of segment items.now.lists)) }
{
    items.is_in_step();
    let mut next = before_mark(items, segment, marks.bounds, marks.of(segment));
    'cards: while let Some(id) = next {
        let item = items.item(id);
        if rule.allows(item.key, item.parts) {
            return Some(id);
        }
        next = items.before(id);
    }
    None
}
