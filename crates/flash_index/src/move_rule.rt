// Which items may move to flash.
ghost use Rattle.std.specs.Prelude.{◌≡◌, length};
ghost use Rattle.flash_machine.specs.Moments.{is_reached};
ghost use Rattle.flash_index.specs.Known.{known_parts};
ghost use Rattle.flash_index.specs.NextToMove.{bounds_of, is_within, can_move, may_move};

use flash_items::{Body, Parts};

/// Which items may move to flash: those that aren't dead, whose value is in memory, and whose sizes are within bounds.
#[derive(Clone, Copy, Debug, PartialEq, Eq)]
pub struct MoveRule {
    /// The moment, in Unix seconds. An item whose deadline isn't above it is dead.
    pub moment: u64,
    /// The last CAS number that was flushed. An item whose number isn't above it is dead.
    pub flush_mark: u64,
    /// The least number of bytes of a value.
    pub least: u32,
    /// The most bytes of a record. It has 32 bytes beside the key and the value.
    pub most: u32,
}

/// The sizes with which an item can move to flash.
#[derive(Clone, Copy)]
pub struct MoveBounds {
    /// The least number of bytes of a value.
    pub least: u32,
    /// The most bytes of a record.
    pub most: u32,
}

impl MoveRule {
    /// The bounds of the sizes.
    pub(crate) fn bounds(&self) -> MoveBounds
        ensures { result ≡ bounds_of self.now }
    {
        MoveBounds {
            least: self.least,
            most: self.most,
        }
    }

    /// Whether the item with this key and these parts may move.
    pub(crate) fn allows(&self, key: &[u8], parts: &Parts) -> bool
        ensures { result ≡ may_move self.now key.now (known_parts (length key.now) parts.now) }
    {
        let is_dead = is_reached(parts.deadline, self.moment) || parts.cas <= self.flush_mark;
        !is_dead && self.bounds().allow(key, parts)
    }
}

impl MoveBounds {
    /// Whether the item with this key and these parts can move as long as it lives.
    pub(crate) fn allow(&self, key: &[u8], parts: &Parts) -> bool
        ensures { result ≡ can_move self.now key.now (known_parts (length key.now) parts.now) }
    {
        match &parts.body {
            Body::Away(_) => false,
            Body::Here(value) => self.include(key.len(), value.bytes().len()),
        }
    }

    // Whether a key and a value of so many bytes are within the bounds.
    fn include(&self, key: usize, value: usize) -> bool
        ensures { result ≡ is_within self.now key value }
    {
        value >= self.least as usize
            && key.saturating_add(value).saturating_add(32) <= self.most as usize
    }
}

// Whether a deadline was reached.
fn is_reached(deadline: Option<u64>, now: u64) -> bool
    ensures { result ≡ is_reached deadline now }
{
    match deadline {
        None => false,
        Some(moment) => moment <= now,
    }
}
