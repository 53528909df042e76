use super::*;
use flash_names::{Blob, MemorySink, MemorySource};
use std::alloc::{AllocError, Global};
use std::test::Fail;

const JOURNAL: &str = "store 65536 64 1024 3 64 64 3 1 2 80 3\nclock 7\n";

// A list of the one call that fails, or of none.
fn listed(alloc: Global, call: Option<u32>) -> Result<Vec<u32>, AllocError> {
    let mut calls = Vec::new(alloc);
    if let Some(call) = call {
        calls.push(call)?;
    }
    Ok(calls)
}

// How a check of the journal ends where this read or this write fails, and what the sink got. The source gives thirty
// bytes in a call.
fn checked(
    alloc: Global,
    failing_read: Option<u32>,
    failing_write: Option<u32>,
) -> Result<(CheckStatus, Vec<u8>), AllocError> {
    let mut words = Vec::new(alloc);
    words.push(Blob::from_slice(alloc, b"check")?)?;
    let mut source = MemorySource::in_pieces(
        JOURNAL.as_bytes().to_vec(alloc)?,
        30,
        listed(alloc, failing_read)?,
    );
    let mut sink = MemorySink::new(alloc, listed(alloc, failing_write)?);
    let status = run_check(alloc, &words, &mut source, &mut sink);
    Ok((status, sink.bytes().to_vec(alloc)?))
}

#[test]
fn ends_by_what_fails(rt: HostRuntime) -> Result<(), Fail> {
    for (failing_read, failing_write, status, out) in [
        (None, None, CheckStatus::Legal(1), "legal 1\n"),
        (Some(1), None, CheckStatus::SourceFault, ""),
        (Some(2), None, CheckStatus::SourceFault, ""),
        (None, Some(1), CheckStatus::SinkFault, ""),
    ] {
        let (ended, written) = checked(rt.alloc(), failing_read, failing_write)?;
        assert_eq!(rt; ended, status);
        assert_eq!(rt; written.as_slice(), out.as_bytes());
    }
    Ok(())
}
