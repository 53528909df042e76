use flash_device::MemoryDevice;
use flash_names::{Blob, MemorySink, MemorySource};
use flash_script::{ScriptFault, Why};
use flash_trace::{Status, run_trace};
use std::alloc::{AllocError, Global};
use std::test::Fail;

const HEAD: &str = "store 4096 64 1024 3 512 256 3 1 0 80 0\n";

const STORE_AND_GET: &str = "store 4096 64 1024 3 512 256 3 1 0 80 0
say 1 set a 0 0 5
say 1 hello
say 1 get a
run 1
";

const REPLIES: &str = "session 1 33\nSTORED\r\nVALUE a 0 5\r\nhello\r\nEND\r\n\nend 4\n";

// Which call of each object fails, if one does.
#[derive(Clone, Copy)]
struct Failing {
    read: Option<u32>,
    write: Option<u32>,
    device: Option<u32>,
}

const NONE: Failing = Failing {
    read: None,
    write: None,
    device: None,
};

fn listed(alloc: Global, call: Option<u32>) -> Result<Vec<u32>, AllocError> {
    let mut calls = Vec::new(alloc);
    if let Some(call) = call {
        calls.push(call)?;
    }
    Ok(calls)
}

fn blobs(alloc: Global, texts: &[&str]) -> Result<Vec<Blob>, AllocError> {
    let mut words = Vec::new(alloc);
    for text in texts {
        words.push(Blob::from_slice(alloc, text.as_bytes())?)?;
    }
    Ok(words)
}

// How a trace over these bytes ends, and what the sink got. The source gives three bytes in a call.
fn traced(
    alloc: Global,
    words: &[&str],
    script: &[u8],
    failing: Failing,
) -> Result<(Status, Vec<u8>), AllocError> {
    let words = blobs(alloc, words)?;
    let mut source = MemorySource::in_pieces(
        script.to_vec(alloc)?,
        3,
        listed(alloc, failing.read)?,
    );
    let mut sink = MemorySink::new(alloc, listed(alloc, failing.write)?);
    let mut device = MemoryDevice::new(alloc, listed(alloc, failing.device)?);
    let status = run_trace(alloc, &words, &mut source, &mut sink, &mut device);
    Ok((status, sink.bytes().to_vec(alloc)?))
}

// What a script of this first_line and these steps writes.
fn written(alloc: Global, words: &[&str], steps: &str) -> Result<Vec<u8>, AllocError> {
    let mut script = HEAD.as_bytes().to_vec(alloc)?;
    script.extend_from_slice(steps.as_bytes())?;
    let (_, out) = traced(alloc, words, &script, NONE)?;
    Ok(out)
}

#[test]
fn stores_and_gets(rt: HostRuntime) -> Result<(), Fail> {
    let (status, out) = traced(rt.alloc(), &["trace"], STORE_AND_GET.as_bytes(), NONE)?;
    assert_eq!(rt; status, Status::Done);
    assert_eq!(rt; out.as_slice(), REPLIES.as_bytes());
    Ok(())
}

#[test]
fn refuses_other_words(rt: HostRuntime) -> Result<(), Fail> {
    for words in [
        ["trace", "x"].as_slice(),
        &["trace", "--journal", "x"],
        &["--journal"],
        &[],
        &["tracer"],
    ] {
        let (status, out) = traced(rt.alloc(), words, STORE_AND_GET.as_bytes(), NONE)?;
        assert_eq!(rt; status, Status::Usage);
        assert!(rt; out.is_empty());
    }
    Ok(())
}

#[test]
fn names_the_fault(rt: HostRuntime) -> Result<(), Fail> {
    let table = [
        (
            Failing {
                read: Some(4),
                ..NONE
            },
            Status::SourceFault,
        ),
        (
            Failing {
                write: Some(1),
                ..NONE
            },
            Status::SinkFault,
        ),
        (
            Failing {
                device: Some(1),
                ..NONE
            },
            Status::PrepareFault,
        ),
    ];
    for (failing, fault) in table {
        let (status, out) = traced(rt.alloc(), &["trace"], STORE_AND_GET.as_bytes(), failing)?;
        assert_eq!(rt; status, fault);
        assert!(rt; out.is_empty());
    }
    Ok(())
}

// The device is asked only where the script was read well.
#[test]
fn names_the_script_before_the_device(rt: HostRuntime) -> Result<(), Fail> {
    let failing = Failing {
        device: Some(1),
        ..NONE
    };
    let (status, out) = traced(rt.alloc(), &["trace"], b"store 1\n", failing)?;
    let fault = ScriptFault {
        line: 1,
        why: Why::BadWord,
    };
    assert_eq!(rt; status, Status::Script(fault));
    assert_eq!(rt; out.as_slice(), b"script 1 bad-word\n".as_slice());
    Ok(())
}

#[test]
fn runs_no_steps(rt: HostRuntime) -> Result<(), Fail> {
    let out = written(rt.alloc(), &["trace"], "")?;
    assert_eq!(rt; out.as_slice(), b"end 0\n".as_slice());
    let out = written(rt.alloc(), &["trace", "--journal"], "")?;
    assert_eq!(rt;
        out.as_slice(),
        b"journal 0\nstore 4096 64 1024 3 512 256 3 1 0 80 0\nend 0\n".as_slice()
    );
    let (_, out) = traced(rt.alloc(), &["trace"], b"", NONE)?;
    assert_eq!(rt; out.as_slice(), b"script 1 short\n".as_slice());
    Ok(())
}

#[test]
fn plays_sessions(rt: HostRuntime) -> Result<(), Fail> {
    let table = [
        ("clock 5\nclock 5\n", "idle 3\nend 2\n"),
        ("run 16\n", "session 16 0\n\nend 1\n"),
        (
            "say 2 get a\nrun 2\nsay 1 x\nrun 1\n",
            "session 1 7\nERROR\r\n\nsession 2 5\nEND\r\n\nend 4\n",
        ),
        (
            "say 1 set a 0 0 2\nsay 1 xyz\nsay 1 get a\nrun 1\n",
            "session 1 34\nCLIENT_ERROR bad data chunk\r\nEND\r\n\nend 4\n",
        ),
        (
            "say 1 set a 7 0 0\nsay 1 \nsay 1 get  a \nrun 1\n",
            "session 1 28\nSTORED\r\nVALUE a 7 0\r\n\r\nEND\r\n\nend 4\n",
        ),
        (
            "say 1 get\nsay 1 get a b\nsay 1 set a 0 0 1025\nsay 1 get a\nrun 1\n",
            "session 1 53\nERROR\r\nEND\r\nSERVER_ERROR object too large for cache\r\n\nend 5\n",
        ),
        (
            "say 1 set n 0 0 1\nsay 1 9\nsay 1 incr n 1\nsay 1 mg n v\nrun 1\n",
            "session 1 22\nSTORED\r\n10\r\nVA 2\r\n10\r\n\nend 5\n",
        ),
    ];
    for (steps, wanted) in table {
        let out = written(rt.alloc(), &["trace"], steps)?;
        assert_eq!(rt; out.as_slice(), wanted.as_bytes(), "{steps}");
    }
    Ok(())
}

const FOUND: &str = "session 1 29\nSTORED\r\nVALUE a 0 1\r\nx\r\nEND\r\n\nend 7\n";

const GONE: &str = "session 1 13\nSTORED\r\nEND\r\n\nend 7\n";

#[test]
fn expires_values(rt: HostRuntime) -> Result<(), Fail> {
    let table = [
        ("0", "clock 4611686018427387904", true),
        ("-1", "clock 101", false),
        ("1", "clock 100", true),
        ("1", "clock 101", false),
        ("2592000", "clock 2592099", true),
        ("2592000", "clock 2592100", false),
        ("2592001", "clock 2592000", true),
        ("2592001", "clock 2592001", false),
    ];
    for (exptime, later, lives) in table {
        let mut steps = b"clock 100\nsay 1 set a 0 ".to_vec(rt.alloc())?;
        push_all(
            &mut steps,
            &[
                exptime,
                " 1\nsay 1 x\nrun 1\n",
                later,
                "\nsay 1 get a\nrun 1\n",
            ],
        )?;
        let (status, out) = traced(
            rt.alloc(),
            &["trace"],
            &with_first_line(rt.alloc(), &steps)?,
            NONE,
        )?;
        assert_eq!(rt; status, Status::Done);
        let wanted = if lives { FOUND } else { GONE };
        assert!(rt; out.ends_with(wanted.as_bytes()), "{exptime} {later}");
    }
    Ok(())
}

fn push_all(out: &mut Vec<u8>, texts: &[&str]) -> Result<(), AllocError> {
    for text in texts {
        out.extend_from_slice(text.as_bytes())?;
    }
    Ok(())
}

fn with_first_line(alloc: Global, steps: &[u8]) -> Result<Vec<u8>, AllocError> {
    let mut script = HEAD.as_bytes().to_vec(alloc)?;
    script.extend_from_slice(steps)?;
    Ok(script)
}

// A line of 65,536 bytes without a line feed ends its session: what is before it is answered, and nothing after. The
// session is closed by its next turn, and what it is given before that is taken without a word.
#[test]
fn ends_a_session(rt: HostRuntime) -> Result<(), Fail> {
    let table = [
        (
            "\nrun 1\nsay 1 get a\n",
            "closed 5\nsession 1 5\nEND\r\n\nend 4\n",
        ),
        ("\nsay 1 get a\nrun 1\n", "session 1 5\nEND\r\n\nend 4\n"),
        (
            "\nsay 1 get a\nrun 1\nsay 1 get a\nrun 1\nsay 1\x20\n",
            "closed 6\nclosed 8\nsession 1 5\nEND\r\n\nend 7\n",
        ),
    ];
    let alloc = rt.alloc();
    for (later, wanted) in table {
        let mut steps = b"say 1 get a\nsay 1 ".to_vec(alloc)?;
        for _ in 0..65_536 {
            steps.push(b'x')?;
        }
        push_all(&mut steps, &[later])?;
        let (_, out) = traced(alloc, &["trace"], &with_first_line(alloc, &steps)?, NONE)?;
        assert_eq!(rt; out.as_slice(), wanted.as_bytes());
    }
    Ok(())
}
