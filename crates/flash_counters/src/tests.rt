use super::*;
use flash_entry::{
    Cause, CloseNote, Counted, DoneNote, DropCause, EndCause, Head, Hit, Journal, Kept, Look, Note,
    Residence,
};
use flash_names::{Blob, Id, Key, Label, Place};
use std::alloc::AllocError;
use std::test::Fail;

const ID: Id = Id { pass: 3, seq: 7 };

const LABEL: Label = Label {
    page: 2,
    version: 9,
};

const PLACE: Place = Place {
    label: LABEL,
    offset: 256,
    length: 133,
};

const VALUE: Look = Look {
    value: true,
    renew: None,
};

const HEAD_ALONE: Look = Look {
    value: false,
    renew: None,
};

const HEAD: Head = Head {
    flags: 1,
    cas: 2,
    size: 2,
    left: -1,
    before: false,
    idle: 0,
};

fn counters(moved: u64, read: u64, hits: u64, misses: u64) -> Counters {
    Counters {
        moved,
        read,
        hits,
        misses,
    }
}

// What is counted after one entry more.
fn note<J: Journal>(counting: &mut Counting<J>, note: Note<'_>) -> Result<Counters, AllocError> {
    counting.note(note, None, None, None)?;
    Ok(counting.counters())
}

// An entry of each kind, and what is counted after it.
fn table<'a>(key: &'a Key, hit: &'a Hit) -> [(Note<'a>, Counters); 21] {
    let answered = CloseNote::Hit(hit);
    let lost = CloseNote::Lost(Cause::Damaged);
    let away = Residence::Away(2, LABEL);
    [
        (Note::Clock(5), counters(0, 0, 0, 0)),
        (Note::Did(ID, DoneNote::Flush(0)), counters(0, 0, 0, 0)),
        (
            Note::Looked(ID, key, VALUE, Residence::Nothing),
            counters(0, 0, 0, 1),
        ),
        (
            Note::Looked(ID, key, HEAD_ALONE, Residence::Nothing),
            counters(0, 0, 0, 2),
        ),
        (
            Note::Looked(ID, key, VALUE, Residence::Here(2)),
            counters(0, 0, 1, 2),
        ),
        (
            Note::Looked(ID, key, HEAD_ALONE, away),
            counters(0, 0, 2, 2),
        ),
        (Note::Looked(ID, key, VALUE, away), counters(0, 0, 2, 2)),
        (Note::FromBuffer(ID, PLACE), counters(0, 0, 2, 2)),
        (Note::Closed(ID, answered), counters(0, 0, 3, 2)),
        (Note::Closed(ID, lost), counters(0, 0, 3, 3)),
        (Note::ReadBegan(ID, PLACE, 0), counters(0, 0, 3, 3)),
        (
            Note::ReadEnded(ID, Some(hit.value.bytes())),
            counters(0, 1, 3, 3),
        ),
        (Note::ReadEnded(ID, None), counters(0, 2, 3, 3)),
        (Note::Moved(key, 2, LABEL), counters(1, 2, 3, 3)),
        (Note::Recached(key, 2), counters(1, 2, 3, 3)),
        (Note::Dropped(key, DropCause::Evict), counters(1, 2, 3, 3)),
        (Note::WriteBegan(PLACE), counters(1, 2, 3, 3)),
        (Note::WriteEnded(PLACE, None), counters(1, 2, 3, 3)),
        (Note::Opened(LABEL), counters(1, 2, 3, 3)),
        (Note::Ended(LABEL, EndCause::Fault), counters(1, 2, 3, 3)),
        (Note::Freed(LABEL), counters(1, 2, 3, 3)),
    ]
}

#[test]
fn counts_each_kind(rt: HostRuntime) -> Result<(), Fail> {
    let alloc = rt.alloc();
    let key = Key::from_bytes(b"a").ok_or(AllocError)?;
    let hit = Hit {
        head: HEAD,
        value: Blob::from_slice(alloc, b"hi")?,
    };
    let table = table(&key, &hit);
    let mut kept = Counting::new(Kept::new(alloc));
    let mut counted = Counting::new(Counted::new());
    for (entry, expected) in &table {
        assert_eq!(rt; note(&mut kept, *entry)?, *expected);
        assert_eq!(rt; note(&mut counted, *entry)?, *expected);
    }
    assert_eq!(rt; kept.journal().entries().len(), table.len());
    assert_eq!(rt; kept.into_journal().entries().len(), table.len());
    assert_eq!(rt; counted.journal().entries(), 21);
    Ok(())
}

#[test]
fn counts_each_of_four(rt: HostRuntime) -> Result<(), Fail> {
    let alloc = rt.alloc();
    let key = Key::from_bytes(b"a").ok_or(AllocError)?;
    let moved = Note::Moved(&key, 2, LABEL);
    let ended = Note::ReadEnded(ID, None);
    let missed = Note::Looked(ID, &key, VALUE, Residence::Nothing);
    let mut kept = Counting::new(Kept::new(alloc));
    kept.note(moved, Some(moved), Some(ended), Some(missed))?;
    kept.note(ended, None, None, Some(moved))?;
    assert_eq!(rt; kept.counters(), counters(3, 2, 0, 1));
    Ok(())
}
