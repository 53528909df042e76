use flash_blocks::{Blocks, Put, Room};
use flash_names::{Geometry, Key, Label, Place};
use flash_pages::Bucket;
use std::test::Fail;

// A page has two blocks.
const GEOMETRY: Geometry = Geometry {
    memory: 4096,
    item_size: 64,
    item_max: 1024,
    pages: 3,
    page_size: 512,
    buffer_size: 256,
    buffers: 3,
    compact_under: 1,
    drop_under: 3,
    max_frag: 80,
    recache: 0,
};

const FIRST: Label = Label {
    page: 0,
    version: 1,
};

const PUT: Put = Put {
    place: Place {
        label: FIRST,
        offset: 0,
        length: 133,
    },
    opened: Some(FIRST),
};

#[test]
fn puts_a_record(rt: HostRuntime) -> Result<(), Fail> {
    let Ok(()) = GEOMETRY.check() else {
        return Err(Fail::from("geometry"));
    };
    let mut blocks = Blocks::open(rt.alloc(), &GEOMETRY)?;
    let key = Key::from_bytes(b"a").ok_or("key")?;
    let bucket = Bucket::Default;
    let answer = blocks.put(bucket, &key, 0, 1, &[b'x'; 100]);
    assert_eq!(rt; answer, Ok(PUT));
    assert_eq!(rt; blocks.room(bucket, 123), Room::Here);
    assert_eq!(rt; blocks.room(bucket, 124), Room::Next);
    assert_eq!(rt; blocks.free_pages(), 2);
    assert!(rt; blocks.seal(bucket));
    assert!(rt; !blocks.seal(bucket));
    Ok(())
}
