ghost use Rattle.std.specs.Prelude.{◌≡◌, ◌*◌, ◌/◌};
ghost use Rattle.flash_lru.specs.Juggle.{from_full, from_cold, goes_to};

use crate::card::{Card, Move};
use crate::segment::Segment;

/// HOT's share of the memory: 20 percent.
pub fn hot_share(memory: u64) -> u64
    ensures { result ≡ memory * 20 / 100 }
{
    memory / 5
}

/// WARM's share of the memory: 40 percent.
pub fn warm_share(memory: u64) -> u64
    ensures { result ≡ memory * 40 / 100 }
{
    memory / 5 * 2 + memory % 5 * 2 / 5
}

/// Where the last card of a full segment goes: an active one to WARM, another to COLD.
pub fn goes_to(active: bool) -> Segment
    ensures { result ≡ goes_to active }
{
    if active { Segment::Warm } else { Segment::Cold }
}

/// The move of the last card of a full segment.
pub fn from_full(last: Option<Card>) -> Option<Move>
    ensures { result ≡ from_full last }
{
    let card = last?;
    Some(Move {
        card,
        to: goes_to(card.active),
    })
}

/// The move of the last card of COLD, which only an active one makes.
pub fn from_cold(last: Option<Card>) -> Option<Move>
    ensures { result ≡ from_cold last }
{
    let card = last?;
    if !card.active {
        return None;
    }
    Some(Move {
        card,
        to: Segment::Warm,
    })
}
