use flash_entry::{
    CloseNote, Closed, Counted, DoneNote, DropCause, Entry, Head, HeadFault, Hit, Journal, Kept,
    Mode, Note, Put, Stored, print_entry, print_head, read_head,
};
use flash_names::{Blob, Geometry, Id, Key, Label, Place};
use std::alloc::{AllocError, Global};
use std::test::Fail;

const ID: Id = Id { pass: 3, seq: 7 };

const LABEL: Label = Label {
    page: 2,
    version: 9,
};

const PLACE: Place = Place {
    label: LABEL,
    offset: 256,
    length: 133,
};

const GEOMETRY: Geometry = Geometry {
    memory: 4096,
    item_size: 64,
    item_max: 1024,
    pages: 3,
    page_size: 512,
    buffer_size: 256,
    buffers: 3,
    compact_under: 1,
    drop_under: 0,
    max_frag: 80,
    recache: 0,
};

fn key() -> Result<Key, AllocError> {
    Key::from_bytes(b"a").ok_or(AllocError)
}

fn put(alloc: Global) -> Result<Put, AllocError> {
    Ok(Put {
        key: key()?,
        mode: Mode::Set,
        flags: 1,
        exptime: -1,
        compare: Some(4),
        value: Blob::from_slice(alloc, b"hi\xff")?,
    })
}

fn hit(alloc: Global) -> Result<Hit, AllocError> {
    Ok(Hit {
        head: Head {
            flags: 1,
            cas: 2,
            size: 2,
            left: -1,
            before: false,
            idle: 0,
        },
        value: Blob::from_slice(alloc, b"hi")?,
    })
}

// Whether the entry's line is this one.
fn is_printed_as(alloc: Global, entry: &Entry, line: &str) -> Result<bool, AllocError> {
    let text = print_entry(alloc, entry)?;
    Ok(text.bytes() == line.as_bytes())
}

#[test]
fn reads_and_prints_a_head(rt: HostRuntime) -> Result<(), Fail> {
    let line = "store 4096 64 1024 3 512 256 3 1 0 80 0";
    assert_eq!(rt; read_head(line.as_bytes()), Ok(GEOMETRY));
    let printed = print_head(rt.alloc(), &GEOMETRY)?;
    assert_eq!(rt;
        printed.bytes(),
        b"store 4096 64 1024 3 512 256 3 1 0 80 0\n".as_slice()
    );
    Ok(())
}

#[test]
fn names_the_first_fault_of_a_head(rt: HostRuntime) {
    let faults = [
        ("", HeadFault::BadWord),
        ("stores 64 64 64 3 64 64 3 1 0 80 0", HeadFault::BadWord),
        ("store 4096 64 1024 3 512 256 3 1 0 80", HeadFault::BadWord),
        ("store 4096 64 64 3 64 64 3 1 0 80 0 ", HeadFault::BadWord),
        ("store 4096 64 64 3 64 64 3 1 0 80 x", HeadFault::BadNumber),
        ("store 4096 64 64 3 64 64 3 1  80 0", HeadFault::BadNumber),
        ("store 1 4294967296 1 1 1 1 1 1 1 1 1", HeadFault::BadNumber),
        ("store 9 63 64 2 64 64 3 1 0 80 0", HeadFault::Geometry(1)),
        (
            "store 4096 64 64 3 64 64 3 1 0 101 0",
            HeadFault::Geometry(10),
        ),
    ];
    for (bad, fault) in faults {
        assert_eq!(rt; read_head(bad.as_bytes()), Err(fault), "{bad}");
    }
}

// Whether a journal that keeps its entries has this line after the note.
fn is_kept_as(alloc: Global, note: Note<'_>, line: &str) -> Result<bool, AllocError> {
    let mut kept = Kept::new(alloc);
    kept.note(note, None, None, None)?;
    match kept.entries() {
        [entry] => is_printed_as(alloc, entry, line),
        _ => Ok(false),
    }
}

#[test]
fn keeps_values_and_bytes(rt: HostRuntime) -> Result<(), Fail> {
    let alloc = rt.alloc();
    let bytes = b"\x00\x0f".as_slice();
    let read = Note::ReadEnded(ID, Some(bytes));
    assert!(rt; is_kept_as(alloc, read, "read-ended 3 7 000f\n")?);
    let written = Note::WriteEnded(PLACE, Some(bytes));
    assert!(rt; is_kept_as(alloc, written, "write-ended 2 9 256 133 000f\n")?);
    let unwritten = Note::WriteEnded(PLACE, None);
    assert!(rt; is_kept_as(alloc, unwritten, "write-ended 2 9 256 133 failed\n")?);
    let hit = hit(alloc)?;
    let closed = Note::Closed(ID, CloseNote::Hit(&hit));
    assert!(rt; is_kept_as(alloc, closed, "closed 3 7 hit 1 2 6869\n")?);
    Ok(())
}

// Notes three entries at once.
fn note_three<J: Journal>(journal: &mut J, put: &Put) -> Result<(), AllocError> {
    let did = Note::Did(ID, DoneNote::Store(put, Stored::Exists));
    let dropped = Note::Dropped(&put.key, DropCause::Dead);
    journal.note(dropped, Some(did), None, Some(Note::Clock(1)))
}

#[test]
fn keeps_and_counts(rt: HostRuntime) -> Result<(), Fail> {
    let alloc = rt.alloc();
    let put = put(alloc)?;
    let mut kept = Kept::new(alloc);
    note_three(&mut kept, &put)?;
    let mut counted = Counted::new();
    note_three(&mut counted, &put)?;
    assert_eq!(rt; counted.entries(), 3);
    let [first, second, third] = kept.entries() else {
        panic!(rt; "not three entries")
    };
    assert!(rt; is_printed_as(alloc, first, "dropped 61 dead\n")?);
    assert!(rt; is_printed_as(alloc, second, "did 3 7 set 61 1 -1 4 6869ff = exists\n")?);
    assert!(rt; is_printed_as(alloc, third, "clock 1\n")?);
    Ok(())
}
