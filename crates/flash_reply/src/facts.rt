ghost use Rattle.std.specs.Prelude.{◌≡◌};
ghost use Rattle.flash_reply.specs.GivenBack.{no_facts, head_facts, stored_facts, sum_facts};

use flash_entry::{Head, Summed};

/// What a reply tells of an item, for the flags that ask for it; `None` where it tells nothing.
#[derive(Clone, Copy, Debug, PartialEq)]
pub struct Facts {
    /// The CAS number (flag `c`).
    pub cas: Option<u64>,
    /// The client's own number (flag `f`).
    pub flags: Option<u32>,
    /// The number of the value's bytes (flag `s`).
    pub size: Option<u32>,
    /// The whole seconds to the deadline, -1 where there is none (flag `t`).
    pub left: Option<i64>,
    /// Whether it was fetched before (flag `h`).
    pub before: Option<bool>,
    /// The whole seconds since the last access (flag `l`).
    pub idle: Option<u64>,
}

impl Facts {
    /// Nothing of an item.
    pub fn none() -> Facts
        ensures { result ≡ no_facts }
    {
        Facts {
            cas: None,
            flags: None,
            size: None,
            left: None,
            before: None,
            idle: None,
        }
    }

    /// What is told of an item that was found.
    pub fn of_head(head: &Head) -> Facts
        ensures { result ≡ head_facts head.now }
    {
        Facts {
            cas: Some(head.cas),
            flags: Some(head.flags),
            size: Some(head.size),
            left: Some(head.left),
            before: Some(head.before),
            idle: Some(head.idle),
        }
    }

    /// What is told of a value that was stored under this CAS number.
    pub fn of_stored(cas: u64) -> Facts
        ensures { result ≡ stored_facts cas }
    {
        Facts {
            cas: Some(cas),
            ..Facts::none()
        }
    }

    /// What is told of a number that was changed or created.
    pub fn of_sum(summed: Summed) -> Facts
        ensures { result ≡ sum_facts summed }
    {
        Facts {
            cas: Some(summed.cas),
            left: Some(summed.left),
            ..Facts::none()
        }
    }
}
