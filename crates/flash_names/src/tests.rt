use super::*;
use std::io;
use std::io::{Read, Write};
use std::test::Fail;

// A geometry at the lower border of each rule that has one.
const SMALL: Geometry = Geometry {
    memory: 2048,
    item_size: 64,
    item_max: 1024,
    pages: 3,
    page_size: 64,
    buffer_size: 64,
    buffers: 3,
    compact_under: 3,
    drop_under: 3,
    max_frag: 100,
    recache: 0,
};

// A geometry at the upper border of each rule that has one.
const LARGE: Geometry = Geometry {
    memory: 4_294_967_296,
    item_size: 4_294_967_295,
    item_max: 1_047_552,
    pages: 4096,
    page_size: 67_108_864,
    buffer_size: 4_194_304,
    buffers: 64,
    compact_under: 4096,
    drop_under: 4096,
    max_frag: 100,
    recache: 4_294_967_295,
};

// The number of the first rule that the geometry breaks.
fn first_broken(geometry: &Geometry) -> Option<u32> {
    geometry.check().err().map(|bad| bad.rule)
}

#[test]
fn takes_the_borders(rt: HostRuntime) {
    assert_eq!(rt; first_broken(&SMALL), None);
    assert_eq!(rt; first_broken(&LARGE), None);
}

fn sized(item_size: u32, buffer_size: u32, page_size: u32) -> Geometry {
    Geometry {
        item_size,
        buffer_size,
        page_size,
        ..LARGE
    }
}

#[test]
fn bounds_the_sizes(rt: HostRuntime) {
    let table = [
        (sized(63, 63, 64), 1),
        (sized(64, 63, 64), 2),
        (sized(64, 0, 64), 2),
        (sized(64, 4_194_305, 67_108_864), 2),
        (sized(64, 64, 96), 3),
        (sized(64, 64, 0), 3),
        (sized(64, 4_194_304, 71_303_168), 3),
    ];
    for (geometry, broken) in table {
        assert_eq!(rt; first_broken(&geometry), Some(broken), "{geometry:?}");
    }
}

fn counted(pages: u32, buffers: u32, item_max: u32, memory: u64) -> Geometry {
    Geometry {
        pages,
        buffers,
        item_max,
        memory,
        ..SMALL
    }
}

#[test]
fn bounds_the_counts(rt: HostRuntime) {
    let table = [
        (counted(2, 3, 1024, 2048), 4),
        (counted(4097, 3, 1024, 2048), 4),
        (counted(3, 2, 1024, 2048), 5),
        (counted(3, 65, 1024, 2048), 5),
        (counted(3, 3, 1025, 2048), 6),
        (counted(3, 3, 1_047_553, 4_294_967_296), 6),
        (counted(3, 3, 1024, 4_294_967_297), 7),
    ];
    for (geometry, broken) in table {
        assert_eq!(rt; first_broken(&geometry), Some(broken), "{geometry:?}");
    }
}

fn divided(compact_under: u32, drop_under: u32, max_frag: u32) -> Geometry {
    Geometry {
        compact_under,
        drop_under,
        max_frag,
        ..SMALL
    }
}

#[test]
fn bounds_the_parts(rt: HostRuntime) {
    let table = [
        (divided(4, 3, 100), 8),
        (divided(3, 4, 100), 9),
        (divided(3, 3, 101), 10),
    ];
    for (geometry, broken) in table {
        assert_eq!(rt; first_broken(&geometry), Some(broken), "{geometry:?}");
    }
}

#[test]
fn bounds_a_key(rt: HostRuntime) {
    let letters = [b'k'; 251];
    assert!(rt; Key::from_bytes(&[]).is_none());
    assert!(rt; Key::from_bytes(&letters).is_none());
    let longest = Key::from_bytes(&letters[..250]);
    assert!(rt; longest.is_some_and(|key| key.copy().bytes() == &letters[..250]));
    assert!(rt; Key::from_bytes(&[0]).is_some_and(|key| key.bytes() == [0].as_slice()));
}

// The published test vectors of FNV-1a with 64 bits, and the letter a as a key.
#[test]
fn hashes_a_key(rt: HostRuntime) {
    let table: [(&[u8], u64); 3] = [
        (b"", 0xcbf2_9ce4_8422_2325),
        (b"a", 0xaf63_dc4c_8601_ec8c),
        (b"foobar", 0x8594_4171_f739_67e8),
    ];
    for (bytes, hash) in table {
        assert_eq!(rt; hash_of(bytes), hash);
    }
    let key = Key::from_bytes(b"a");
    assert_eq!(rt; key.map(|key| key_hash(&key)), Some(0xaf63_dc4c_8601_ec8c));
}

#[test]
fn cuts_a_blob(rt: HostRuntime) -> Result<(), Fail> {
    let mut blob = Blob::from_slice(rt.alloc(), b"hello")?;
    blob.bytes_mut().reverse();
    assert_eq!(rt; blob.bytes(), b"olleh".as_slice());
    let cut = blob.cut(1, 3);
    assert_eq!(rt; cut.bytes(), b"lle".as_slice());
    Ok(())
}

#[test]
fn lists_in_order(rt: HostRuntime) -> Result<(), Fail> {
    let listed = Listed::new(vec![in rt.alloc(); 3u8, 1, 2]?);
    assert_eq!(rt; listed.slice(), [3, 1, 2].as_slice());
    Ok(())
}

#[test]
fn fails_in_the_planned_calls(rt: HostRuntime) -> Result<(), Fail> {
    let alloc = rt.alloc();
    let mut source = MemorySource::in_pieces(b"hello".to_vec(alloc)?, 2, vec![in alloc; 2]?);
    let mut piece = [0; 8];
    assert_eq!(rt; source.read(&mut piece), Ok(2));
    assert_eq!(rt; source.read(&mut piece), Err(SourceFault));
    assert_eq!(rt; source.read(&mut piece), Ok(2));
    assert_eq!(rt; source.read(&mut piece), Ok(1));
    assert_eq!(rt; piece[..1], b"o".as_slice()[..1]);
    assert_eq!(rt; source.read(&mut piece), Ok(0));

    let mut whole = MemorySource::new(b"hi".to_vec(alloc)?, Vec::new(alloc));
    assert_eq!(rt; whole.read(&mut piece), Ok(2));

    let mut sink = MemorySink::new(alloc, vec![in alloc; 2]?);
    assert_eq!(rt; sink.write(b"he"), Ok(2));
    assert_eq!(rt; sink.write(b"-"), Err(SinkFault));
    assert_eq!(rt; sink.write(b"llo"), Ok(3));
    assert_eq!(rt; sink.bytes(), b"hello".as_slice());
    Ok(())
}

#[test]
fn repeats_the_last_reading(rt: HostRuntime) -> Result<(), Fail> {
    let mut clock = ListClock::new(vec![in rt.alloc(); 7, 5]?);
    assert_eq!(rt; (clock.now(), clock.now(), clock.now()), (7, 5, 5));
    let mut stopped = ListClock::new(Vec::new(rt.alloc()));
    assert_eq!(rt; stopped.now(), 0);
    Ok(())
}

// A reader and a writer that fail in each second call.
#[derive(Drop)]
struct Shaky {
    calls: u8,
}

impl Shaky {
    fn is_down(&mut self) -> bool {
        self.calls = self.calls.wrapping_add(1);
        self.calls % 2 == 0
    }
}

impl Read for Shaky {
    fn read(&mut self, buf: &mut [u8]) -> io::Result<usize> {
        if self.is_down() {
            return Err(io::Error::from(io::ErrorKind::Other));
        }
        buf.fill(b'x');
        Ok(buf.len())
    }
}

impl Write for Shaky {
    fn write(&mut self, buf: &[u8]) -> io::Result<usize> {
        if self.is_down() {
            Ok(0)
        } else {
            Ok(buf.len().min(1))
        }
    }

    fn flush(&mut self) -> io::Result<()> {
        Ok(())
    }
}

#[test]
fn adapts_readers_and_writers(rt: HostRuntime) {
    let mut piece = [0; 2];
    let mut source = ReaderSource::new(Shaky { calls: 0 });
    assert_eq!(rt; source.read(&mut piece), Ok(2));
    assert_eq!(rt; piece, [b'x'; 2]);
    assert_eq!(rt; source.read(&mut piece), Err(SourceFault));
    assert_eq!(rt; source.read(&mut piece), Ok(2));

    let mut sink = WriterSink::new(Shaky { calls: 0 });
    assert_eq!(rt; sink.write(b"ab"), Ok(1));
    assert_eq!(rt; sink.write(b"b"), Err(SinkFault));
    assert_eq!(rt; sink.write(b"b"), Ok(1));
}
