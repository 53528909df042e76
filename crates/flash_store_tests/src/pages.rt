use flash_names::{Geometry, Label};
use flash_pages::{Bucket, Opened, Pages, Pinned};
use std::test::Fail;

const GEOMETRY: Geometry = Geometry {
    memory: 4096,
    item_size: 64,
    item_max: 1024,
    pages: 3,
    page_size: 512,
    buffer_size: 256,
    buffers: 3,
    compact_under: 1,
    drop_under: 3,
    max_frag: 80,
    recache: 0,
};

const FIRST: Label = Label {
    page: 0,
    version: 1,
};

#[test]
fn opens_a_page(rt: HostRuntime) -> Result<(), Fail> {
    let mut pages = Pages::open(rt.alloc(), &GEOMETRY)?;
    assert_eq!(rt; pages.free_pages(), 3);
    assert_eq!(rt; pages.open_page(Bucket::Default), Opened::Page(FIRST));
    assert_eq!(rt; pages.free_pages(), 2);
    pages.add_live(FIRST, 133);
    assert_eq!(rt; pages.live(FIRST), 1);
    assert_eq!(rt; pages.pin(FIRST), Pinned::Yes);
    pages.filled(FIRST);
    assert_eq!(rt; pages.victim_evict(), Some(FIRST));
    pages.end(FIRST);
    assert_eq!(rt; pages.freeable(), None);
    pages.unpin(FIRST);
    assert_eq!(rt; pages.freeable(), Some(FIRST));
    pages.free(FIRST);
    assert_eq!(rt;
        pages.open_page(Bucket::Compact),
        Opened::Page(Label {
            page: 0,
            version: 2
        })
    );
    Ok(())
}

#[test]
fn chooses_victims(rt: HostRuntime) -> Result<(), Fail> {
    let second = Label {
        page: 1,
        version: 2,
    };
    let third = Label {
        page: 2,
        version: 3,
    };
    let mut pages = Pages::open(rt.alloc(), &GEOMETRY)?;
    assert_eq!(rt; pages.open_page(Bucket::Default), Opened::Page(FIRST));
    assert_eq!(rt; pages.open_page(Bucket::Default), Opened::Page(second));
    assert_eq!(rt; pages.open_page(Bucket::Default), Opened::NoPage);
    assert_eq!(rt; pages.next_page(Bucket::Compact), Opened::Page(third));
    assert_eq!(rt; pages.victim_compact(), None);
    pages.filled(FIRST);
    pages.filled(second);
    assert_eq!(rt; pages.victim_compact(), Some(FIRST));
    pages.add_live(FIRST, 100);
    assert_eq!(rt; pages.victim_compact(), Some(second));
    pages.compact_on(FIRST);
    assert_eq!(rt; pages.victim_evict(), Some(second));
    pages.compact_off();
    assert_eq!(rt; pages.victim_evict(), Some(FIRST));
    pages.spare(second);
    pages.take_live(FIRST, 100);
    assert_eq!(rt; pages.victim_compact(), Some(FIRST));
    assert!(rt; pages.has_ended(third));
    Ok(())
}
