use flash_entry::{EntryFault, print_entry, read_entry};
use std::alloc::Global;
use std::process::Abort;
use std::test::Fail;

// The line is read as an entry whose line it is.
fn check(rt: &impl Abort, alloc: Global, line: &str) -> Result<(), Fail> {
    match read_entry(alloc, line.as_bytes()) {
        Ok(entry) => {
            let printed = print_entry(alloc, &entry)?;
            assert_eq!(rt;
                printed.bytes().strip_suffix(b"\n".as_slice()),
                Some(line.as_bytes())
            );
        }
        Err(fault) => panic!(rt; "{line}: {fault}"),
    }
    Ok(())
}

#[test]
fn reads_each_kind(rt: HostRuntime) -> Result<(), Fail> {
    let lines = [
        "clock 18446744073709551615",
        "did 3 7 set 61 1 -9223372036854775808 4 6869ff = stored 1",
        "did 3 7 delete 61 - = not-found",
        "did 3 7 down 61 5 - -3 60 18 = created 1 2 -1",
        "did 3 7 up 61 5 4 - - - = non-numeric",
        "did 3 7 touch 61 10 = touched",
        "did 3 7 flush 0 = ok",
        "did 3 7 stats = 1 2 3 4 5",
        "looked 3 7 61 v - = 1 here",
        "looked 3 7 61 h 9 = 1 2 9",
        "looked 3 7 61 v - = none",
        "buffered 3 7 2 9 256 133",
        "read-began 3 7 2 9 256 133 0",
        "read-ended 3 7 000f",
        "closed 3 7 hit 1 2 -",
        "closed 3 7 lost damaged",
        "moved 61 2 2 9",
        "recached 61 2",
        "dropped 61 evict",
        "write-began 2 9 256 133",
        "write-ended 2 9 256 133 failed",
        "opened 2 9",
        "ended 2 9 compacted",
        "freed 2 9",
    ];
    for line in lines {
        check(&rt, rt.alloc(), line)?;
    }
    Ok(())
}

#[test]
fn names_the_first_fault_of_a_line(rt: HostRuntime) {
    let faults = [
        ("", EntryFault::BadWord(1)),
        (" clock 5", EntryFault::BadWord(1)),
        ("Clock 5", EntryFault::BadWord(1)),
        ("clock", EntryFault::Short),
        ("clock  5", EntryFault::BadNumber(2)),
        ("clock 05", EntryFault::BadNumber(2)),
        ("clock +5", EntryFault::BadNumber(2)),
        ("clock 18446744073709551616", EntryFault::BadNumber(2)),
        ("clock 5 ", EntryFault::BadWord(3)),
        ("freed 4294967296 9", EntryFault::BadNumber(2)),
        ("did 3 7 get 61", EntryFault::BadWord(4)),
        ("did 3 7 flush -0 = ok", EntryFault::BadNumber(5)),
        (
            "did 3 7 touch 61 9223372036854775808 = touched",
            EntryFault::BadNumber(6),
        ),
        (
            "did 3 7 set 6A 1 -1 4 68 = stored 1",
            EntryFault::BadWord(5),
        ),
        ("did 3 7 set - 1 -1 4 68 = stored 1", EntryFault::BadWord(5)),
        (
            "did 3 7 set 61 1 -1 none 68 = stored 1",
            EntryFault::BadNumber(8),
        ),
        (
            "did 3 7 set 61 1 -1 4 686 = stored 1",
            EntryFault::BadWord(9),
        ),
        ("did 3 7 set 61 1 -1 4 68 = stored", EntryFault::Short),
        ("did 3 7 set 61 1 -1 4 68 = kept", EntryFault::BadWord(11)),
        (
            "did 3 7 up 61 5 - - - 18 = not-found",
            EntryFault::BadWord(10),
        ),
        (
            "did 3 7 up 61 5 - - 60 - = not-found",
            EntryFault::BadNumber(10),
        ),
        ("looked 1 1 6b x - = none", EntryFault::BadWord(5)),
        ("looked 1 1 6b v - = x", EntryFault::BadNumber(8)),
        ("looked 1 1 6b v - = 1 there", EntryFault::BadNumber(9)),
        ("looked 1 1 6b v - = none 1", EntryFault::BadWord(9)),
        ("read-ended 3 7 fail", EntryFault::BadWord(4)),
        ("closed 3 7 hit 1 2", EntryFault::Short),
        ("ended 2 9 worn", EntryFault::BadWord(4)),
    ];
    for (line, fault) in faults {
        assert_eq!(rt;
            read_entry(rt.alloc(), line.as_bytes()).err(),
            Some(fault),
            "{line}"
        );
    }
}

#[test]
fn reads_keys_of_250_bytes_and_no_more(rt: HostRuntime) -> Result<(), Fail> {
    let alloc = rt.alloc();
    let table = [
        (500, None),
        (501, Some(EntryFault::BadWord(2))),
        (502, Some(EntryFault::BadWord(2))),
    ];
    for (digits, fault) in table {
        let mut line = Vec::from_slice(alloc, b"recached ")?;
        line.extend_from_slice(&vec![in alloc; b'0'; digits]?)?;
        line.extend_from_slice(b" 1")?;
        assert_eq!(rt; read_entry(alloc, &line).err(), fault);
    }
    Ok(())
}
