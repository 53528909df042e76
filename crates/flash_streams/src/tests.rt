use super::*;
use flash_names::{MemorySink, MemorySource};
use std::alloc::{AllocError, Global};
use std::test::Fail;

const TEXT: &[u8] = b"0123456789";

// A list of the one call that fails, or of none.
fn listed(alloc: Global, call: Option<u32>) -> Result<Vec<u32>, AllocError> {
    let mut calls = Vec::new(alloc);
    if let Some(call) = call {
        calls.push(call)?;
    }
    Ok(calls)
}

// The source has ten bytes and gives four in a call, so the fourth call finds the end. Reading stops at the end, once
// more than the limit was read, or at the call that fails.
#[test]
fn reads_to_the_end(rt: HostRuntime) -> Result<(), Fail> {
    let alloc = rt.alloc();
    for (limit, failing, read) in [
        (10, None, Ok(10)),
        (8, None, Ok(10)),
        (7, None, Ok(8)),
        (0, None, Ok(4)),
        (10, Some(1), Err(ReadError::Fault)),
        (10, Some(2), Err(ReadError::Fault)),
        (10, Some(4), Err(ReadError::Fault)),
        (7, Some(3), Ok(8)),
    ] {
        let mut source = MemorySource::in_pieces(TEXT.to_vec(alloc)?, 4, listed(alloc, failing)?);
        match read_all(alloc, limit, &mut source) {
            Ok(bytes) => {
                assert_eq!(rt; Ok(bytes.len()), read);
                assert!(rt; TEXT.starts_with(&bytes));
            }
            Err(error) => assert_eq!(rt; Err(error), read),
        }
    }
    Ok(())
}

#[test]
fn writes_all(rt: HostRuntime) -> Result<(), Fail> {
    let alloc = rt.alloc();
    let mut sink = MemorySink::new(alloc, listed(alloc, Some(2))?);
    assert!(rt; write_all(&mut sink, TEXT).is_ok());
    assert!(rt; write_all(&mut sink, b"later").is_err());
    assert_eq!(rt; sink.bytes(), TEXT);
    Ok(())
}
