ghost use Rattle.std.specs.Prelude.{◌≡◌};
ghost use Rattle.flash_machine.specs.Live.{told_of};
ghost use Rattle.flash_machine.specs.Told.{told};

use crate::machine::item::Item;

/// A live item of a journal's cache.
#[derive(Clone, Copy, Debug, PartialEq, Eq)]
pub struct Live<'a> {
    /// The flags that it was stored with.
    pub flags: u32,
    /// Its CAS number.
    pub cas: u64,
    /// The moment, in Unix seconds, from which it is expired; `None`: it has no deadline.
    pub deadline: Option<u64>,
    /// The bytes of its value, in memory or moved to a page.
    pub value: &'a [u8],
}

impl<'a> Live<'a> {
    pub fn of(item: &'a Item) -> Live<'a>
        ensures { told result ≡ told_of item.now }
    {
        Live {
            flags: item.flags,
            cas: item.cas,
            deadline: item.deadline,
            value: item.value(),
        }
    }
}
