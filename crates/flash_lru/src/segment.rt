ghost use Rattle.std.specs.Prelude.{◌≡◌};
ghost use Rattle.flash_lru.specs.Ring.{home_in, end_of, end_after};

use crate::node::Home;

/// One of the three lists.
#[derive(Clone, Copy, Debug, PartialEq, Eq)]
pub enum Segment {
    /// Items that were stored last.
    Hot,
    /// Items that were used again.
    Warm,
    /// Items that were not used again, from whose end items are dropped.
    Cold,
}

impl Segment {
    // The home of the nodes that are in the list.
    pub(crate) fn home(self) -> Home
        ensures { result ≡ home_in self }
    {
        match self {
            Segment::Hot => Home::InHot,
            Segment::Warm => Home::InWarm,
            Segment::Cold => Home::InCold,
        }
    }

    // The number of the node that ends the list.
    pub(crate) fn end(self) -> u32
        ensures { result ≡ end_of self }
    {
        match self {
            Segment::Hot => 0,
            Segment::Warm => 1,
            Segment::Cold => 2,
        }
    }

    // The number of the node that ends the list after.
    pub(crate) fn end_after(self) -> u32
        ensures { result ≡ end_after self }
    {
        match self {
            Segment::Hot => 1,
            Segment::Warm => 2,
            Segment::Cold => 0,
        }
    }
}
