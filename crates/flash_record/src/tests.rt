use super::*;
use flash_names::Key;
use std::test::Fail;

// The record of the key a, flags 0, the value hello, CAS 1 and version 1.
const HELLO: [u8; 38] = [
    0x46, 0x52, 0x01, 0x01, 0, 0, 0, 0, 0, 0, 0, 5, 0, 0, 0, 0, 0, 0, 0, 1, 0, 0, 0, 0, 0, 0, 0, 1,
    b'a', b'h', b'e', b'l', b'l', b'o', 0x90, 0x88, 0x8c, 0x62,
];

fn key_of(bytes: &[u8]) -> Result<Key, Fail> {
    Ok(Key::from_bytes(bytes).ok_or("no key")?)
}

#[test]
fn writes_the_stated_bytes(rt: HostRuntime) -> Result<(), Fail> {
    let key = key_of(b"a")?;
    let mut exact = [0xee; 38];
    assert_eq!(rt; write_record(&mut exact, &key, 0, 1, 1, b"hello"), Some(38));
    assert_eq!(rt; exact, HELLO);
    let mut longer = [0xee; 39];
    assert_eq!(rt;
        write_record(&mut longer, &key, 0, 1, 1, b"hello"),
        Some(38)
    );
    assert_eq!(rt; longer[38], 0xee);
    let mut shorter = [0xee; 37];
    assert_eq!(rt; write_record(&mut shorter, &key, 0, 1, 1, b"hello"), None);
    assert_eq!(rt; shorter, [0xee; 37]);
    Ok(())
}

#[test]
fn writes_each_field_in_its_place(rt: HostRuntime) -> Result<(), Fail> {
    let key = key_of(b"k")?;
    let mut into = [0; 33];
    let written = write_record(&mut into, &key, 0x0102_0304, 0x0506, 0x0708, b"");
    assert_eq!(rt; written, Some(33));
    assert_eq!(rt; &into[..8], &[0x46, 0x52, 0x01, 1, 1, 2, 3, 4][..]);
    assert_eq!(rt; &into[8..20], &[0, 0, 0, 0, 0, 0, 0, 0, 0, 0, 5, 6][..]);
    assert_eq!(rt; &into[20..29], &[0, 0, 0, 0, 0, 0, 7, 8, b'k'][..]);
    Ok(())
}

#[test]
fn reads_the_parts(rt: HostRuntime) -> Result<(), Fail> {
    let mut bytes = [7; 45];
    bytes[..38].copy_from_slice(&HELLO);
    let found = read_record(&bytes).ok().ok_or("no record")?;
    assert_eq!(rt; found.key, &b"a"[..]);
    assert_eq!(rt; found.value, &b"hello"[..]);
    assert_eq!(rt;
        (found.flags, found.cas, found.version, found.length),
        (0, 1, 1, 38)
    );
    Ok(())
}

// What is read of HELLO where one of its bytes is another.
fn with_byte(place: usize, byte: u8) -> Option<NotRecord> {
    let mut bytes = HELLO;
    if place < 38 {
        bytes[place] = byte;
    }
    read_record(&bytes).err()
}

#[test]
fn names_the_first_reason(rt: HostRuntime) {
    assert_eq!(rt; read_record(b"").err(), Some(NotRecord::End));
    assert_eq!(rt; read_record(b"\0R").err(), Some(NotRecord::End));
    assert_eq!(rt; read_record(b"FS").err(), Some(NotRecord::Magic));
    assert_eq!(rt; read_record(b"FR\x02").err(), Some(NotRecord::Magic));
    assert_eq!(rt; read_record(b"F").err(), Some(NotRecord::Short));
    assert_eq!(rt; read_record(&HELLO[..31]).err(), Some(NotRecord::Short));
    assert_eq!(rt; read_record(&HELLO[..37]).err(), Some(NotRecord::Short));
    assert_eq!(rt; with_byte(3, 0), Some(NotRecord::Lengths));
    assert_eq!(rt; with_byte(3, 251), Some(NotRecord::Lengths));
    assert_eq!(rt; with_byte(3, 250), Some(NotRecord::Short));
    assert_eq!(rt; with_byte(8, 255), Some(NotRecord::Short));
    assert_eq!(rt; with_byte(37, 0), Some(NotRecord::Sum));
}

#[test]
fn refuses_each_changed_byte(rt: HostRuntime) {
    for place in 0..HELLO.len() {
        assert!(rt; with_byte(place, HELLO[place] ^ 1).is_some());
    }
}

#[test]
fn tells_whose_record_it_is(rt: HostRuntime) -> Result<(), Fail> {
    let (a, b) = (key_of(b"a")?, key_of(b"b")?);
    assert!(rt; is_record_of(&HELLO, &a, 1, 1));
    assert!(rt; !is_record_of(&HELLO, &b, 1, 1));
    assert!(rt; !is_record_of(&HELLO, &a, 2, 1));
    assert!(rt; !is_record_of(&HELLO, &a, 1, 2));
    assert!(rt; !is_record_of(&HELLO[..37], &a, 1, 1));
    let mut longer = [0; 39];
    longer[..38].copy_from_slice(&HELLO);
    assert!(rt; !is_record_of(&longer, &a, 1, 1));
    Ok(())
}
