use crate::segment::Segment;
use flash_names::ItemId;

/// What a list holds of an item.
#[derive(Clone, Copy, Debug, PartialEq, Eq)]
pub struct Card {
    /// The item.
    pub item: ItemId,
    /// Its size in bytes.
    pub size: u32,
    /// Whether it was used since the card was put where it is.
    pub active: bool,
}

/// A card, and the segment to whose front it goes.
#[derive(Clone, Copy, Debug, PartialEq, Eq)]
pub struct Move {
    /// The card.
    pub card: Card,
    /// The segment.
    pub to: Segment,
}
