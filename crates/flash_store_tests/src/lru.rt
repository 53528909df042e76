use flash_lru::{Segment, Segments};
use flash_names::ItemId;
use std::test::Fail;

// Memory for fewer than four items of this size.
const MEMORY: u64 = 4096;

const SIZE: u32 = 1065;

#[test]
fn moves_what_was_used_to_warm(rt: HostRuntime) -> Result<(), Fail> {
    let first = ItemId { key: 0 };
    let second = ItemId { key: 1 };
    let mut segments = Segments::open(rt.alloc(), MEMORY);
    segments.reserve_one(second)?;
    segments.put_hot(first, SIZE);
    segments.put_hot(second, SIZE);
    segments.touch(first);
    assert_eq!(rt; segments.before(first), Some(second));
    assert_eq!(rt; segments.juggle_one(), Some(first));
    assert_eq!(rt; segments.last_of(Segment::Warm), Some(first));
    assert_eq!(rt; segments.juggle_one(), Some(second));
    assert_eq!(rt; segments.last_out(), Some(second));
    assert_eq!(rt; segments.juggle_one(), None);
    Ok(())
}

#[test]
fn drops_and_resizes(rt: HostRuntime) -> Result<(), Fail> {
    let only = ItemId { key: 7 };
    let mut segments = Segments::open(rt.alloc(), MEMORY);
    segments.reserve_one(only)?;
    segments.put_hot(only, 100);
    assert_eq!(rt; segments.juggle_one(), None);
    segments.put_hot(only, 100);
    segments.resize(only, SIZE);
    segments.remove(only);
    segments.has_one_each();
    assert_eq!(rt; segments.last_out(), None);
    Ok(())
}
