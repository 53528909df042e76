use flash_buffers::{BufferId, Buffers};
use flash_names::{Key, Label, Place};
use std::test::Fail;

const LABEL: Label = Label {
    page: 0,
    version: 1,
};

// The record of key a, flags 0, value hello, CAS 1 and version 1.
const RECORD: [u8; 38] = [
    0x46, 0x52, 0x01, 0x01, 0, 0, 0, 0, 0, 0, 0, 5, 0, 0, 0, 0, 0, 0, 0, 1, 0, 0, 0, 0, 0, 0, 0, 1,
    0x61, 0x68, 0x65, 0x6c, 0x6c, 0x6f, 0x90, 0x88, 0x8c, 0x62,
];

const PLACE: Place = Place {
    label: LABEL,
    offset: 64,
    length: 38,
};

#[test]
fn writes_a_block(rt: HostRuntime) -> Result<(), Fail> {
    let mut buffers = Buffers::open(rt.alloc(), 2, 64)?;
    let key = Key::from_bytes(b"a").ok_or("key")?;
    let Some(id) = buffers.take(LABEL, 64) else {
        return Err(Fail::from("no buffer"));
    };
    assert!(rt; buffers.fits(id, 64));
    assert_eq!(rt; buffers.append(id, &key, 0, 1, b"hello"), Some(PLACE));
    assert_eq!(rt; buffers.append(id, &key, 0, 2, b"hello"), None);
    assert!(rt; buffers.fits(id, 26));
    assert!(rt; !buffers.fits(id, 27));
    buffers.seal(id);
    let Some(job) = buffers.write_begin() else {
        return Err(Fail::from("no job"));
    };
    assert_eq!(rt; job.place.offset, 64);
    assert_eq!(rt; job.bytes.bytes().len(), 64);
    assert!(rt; buffers.write_begin().is_none());
    assert!(rt; job.bytes.bytes().starts_with(&RECORD));
    buffers.unwritten(job);
    assert_eq!(rt; buffers.read(PLACE), Some(RECORD.as_slice()));
    Ok(())
}

#[test]
fn frees_buffers(rt: HostRuntime) -> Result<(), Fail> {
    let mut buffers = Buffers::open(rt.alloc(), 2, 64)?;
    let key = Key::from_bytes(b"a").ok_or("key")?;
    let (Some(first), Some(second)) = (buffers.take(LABEL, 0), buffers.take(LABEL, 64)) else {
        return Err(Fail::from("no buffer"));
    };
    assert!(rt; !buffers.has_free());
    assert_eq!(rt; buffers.append(second, &key, 0, 1, b"hello"), Some(PLACE));
    buffers.seal(second);
    buffers.seal(first);
    let Some(job) = buffers.write_begin() else {
        return Err(Fail::from("no job"));
    };
    assert_eq!(rt; job.place.offset, 64);
    buffers.written(job);
    assert!(rt; buffers.has_free());
    assert_eq!(rt; buffers.read(PLACE), None);
    buffers.drop_of(LABEL);
    assert_eq!(rt; buffers.take(LABEL, 0), Some(BufferId { number: 0 }));
    Ok(())
}
