use flash_reader::{Asked, Reader};
use std::alloc::{AllocError, Global};
use std::test::Fail;

#[test]
fn reads_in_pieces(rt: HostRuntime) -> Result<(), Fail> {
    let mut reader = Reader::new(rt.alloc(), 10);
    assert_eq!(rt; reader.feed(b"set a 0 0 2\r\nx")?, 14);
    assert!(rt; reader.front().is_none());
    assert_eq!(rt; reader.feed(b"y\r\nquit\r\n")?, 9);
    let bytes = match reader.front() {
        Some(front) => front.bytes,
        None => 0,
    };
    assert_eq!(rt; bytes, 17);
    Ok(())
}

// A line of 65,535 bytes, a line with a value of 100,000 bytes, a refusal with a block that is skipped, and a short line.
fn long_bytes(alloc: Global) -> Result<Vec<u8>, AllocError> {
    let mut bytes = Vec::new(alloc);
    bytes.extend_from_slice(b"get")?;
    for _ in 0..32_765 {
        bytes.extend_from_slice(b" a")?;
    }
    bytes.extend_from_slice(b"\r\nset a 0 0 100000\r\n")?;
    for _ in 0..10_000 {
        bytes.extend_from_slice(b"0123456789")?;
    }
    bytes.extend_from_slice(b"\r\nset a 0 0 200001\r\n")?;
    for _ in 0..20_000 {
        bytes.extend_from_slice(b"get a\nmn\r\n")?;
    }
    bytes.extend_from_slice(b"1\r\nmn\r\n")?;
    Ok(bytes)
}

// How many bytes the block has of what is asked.
fn block_of(asked: &Asked<'_>) -> usize {
    match asked {
        Asked::Asks(_, block) => block.len(),
        _ => 0,
    }
}

// Takes the fronts that are there, at most 8: how many bytes each has, and how many its block has.
fn take_fronts(reader: &mut Reader, fronts: &mut Vec<(usize, usize)>) -> Result<(), AllocError> {
    for _ in 0..8 {
        let Some(front) = reader.front() else {
            reader.look();
            return Ok(());
        };
        let (bytes, next) = (front.bytes, front.next);
        fronts.push((bytes, block_of(&front.asked)))?;
        reader.take(bytes, next);
    }
    Ok(())
}

// However the bytes are cut, the fronts are the same.
#[test]
fn remembers_what_it_needs(rt: HostRuntime) -> Result<(), Fail> {
    let bytes = long_bytes(rt.alloc())?;
    for piece in [1, 7, 1000, 200_000] {
        let mut reader = Reader::new(rt.alloc(), 200_000);
        let mut fronts = Vec::new(rt.alloc());
        for piece in bytes.chunks(piece) {
            assert_eq!(rt; reader.feed(piece)?, piece.len());
            take_fronts(&mut reader, &mut fronts)?;
        }
        assert_eq!(rt;
            fronts.as_slice(),
            [(65_535, 0), (100_020, 100_000), (200_021, 0), (4, 0)].as_slice()
        );
    }
    Ok(())
}
