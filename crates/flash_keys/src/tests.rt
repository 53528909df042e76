use super::*;
use std::test::Fail;

// A key at each border of a size class is kept whole, and the others stay when one is given back.
#[test]
fn keeps_keys_of_each_class(rt: HostRuntime) -> Result<(), Fail> {
    assert_eq!(rt; size_of::<KeyId>(), 4);
    let letters = [b'k'; 250];
    let lengths = [
        1, 14, 15, 22, 23, 30, 31, 46, 47, 62, 63, 94, 95, 126, 127, 250,
    ];
    let mut store = KeyStore::open(rt.alloc());
    store.reserve_one()?;
    let first = store.keep(b"first");
    for length in lengths {
        store.reserve_one()?;
        let id = store.keep(&letters[..length]);
        assert!(rt; store.bytes(id) == Some(&letters[..length]));
        store.give_back(id);
        assert!(rt; store.bytes(id).is_none());
    }
    assert!(rt; store.bytes(first) == Some(b"first".as_slice()));
    Ok(())
}
