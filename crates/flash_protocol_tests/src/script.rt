use flash_script::{
    MAX_BYTES, NotRead, Script, ScriptFault, SessionNumber, Step, Upkeep, Why, read_script,
};
use std::alloc::{AllocError, Global};
use std::test::Fail;

// A line 1 that keeps every rule.
pub const HEAD: &str = "store 4096 64 1024 3 512 256 3 1 0 80 0\n";

// The bytes of a script: a `+` at its front stands for a good line 1.
pub fn bytes_of(alloc: Global, script: &str) -> Result<Vec<u8>, AllocError> {
    let mut bytes = Vec::new(alloc);
    let rest = match script.strip_prefix("+") {
        None => script,
        Some(steps) => {
            bytes.extend_from_slice(HEAD.as_bytes())?;
            steps
        }
    };
    bytes.extend_from_slice(rest.as_bytes())?;
    Ok(bytes)
}

// The script of these bytes, or its first bad line.
pub fn read(alloc: Global, bytes: &[u8]) -> Result<Result<Script, ScriptFault>, AllocError> {
    match read_script(alloc, bytes) {
        Ok(script) => Ok(Ok(script)),
        Err(NotRead::Fault(fault)) => Ok(Err(fault)),
        Err(NotRead::NoMemory) => Err(AllocError),
    }
}

// The first bad line of these bytes, and how many steps they have where none is bad.
pub fn outcome(alloc: Global, bytes: &[u8]) -> Result<Result<usize, (u32, Why)>, AllocError> {
    match read(alloc, bytes)? {
        Ok(script) => Ok(Ok(script.steps.len())),
        Err(fault) => Ok(Err((fault.line, fault.why))),
    }
}

// A good line 1, and after it this line, doubled this many times.
fn doubled(alloc: Global, line: &[u8], times: u32) -> Result<Vec<u8>, AllocError> {
    let mut lines = line.to_vec(alloc)?;
    'doublings: for _ in 0..times {
        let again = lines.clone()?;
        lines.extend_from_slice(&again)?;
    }
    let mut bytes = bytes_of(alloc, HEAD)?;
    bytes.extend_from_slice(&lines)?;
    Ok(bytes)
}

#[test]
fn short_lines(rt: HostRuntime) -> Result<(), Fail> {
    for (script, line) in [
        ("", 1),
        ("store 4096 64 1024 3 512 256 3 1 0 80 0", 1),
        ("jump", 1),
        ("+run 1", 2),
        ("+jump 1", 2),
        ("+run 1\nclock 5\nrun 17", 4),
    ] {
        let bytes = bytes_of(rt.alloc(), script)?;
        assert_eq!(rt;
            outcome(rt.alloc(), &bytes)?,
            Err((line, Why::Short)),
            "{script}"
        );
    }
    Ok(())
}

#[test]
fn bad_words(rt: HostRuntime) -> Result<(), Fail> {
    for (script, line) in [
        ("\n", 1),
        ("store 1\n", 1),
        ("shop 4096 64 1024 3 512 256 3 1 0 80 0\n", 1),
        ("store  4096 64 1024 3 512 256 3 1 0 80 0\n", 1),
        ("store 4096 64 1024 3 512 256 3 1 0 80 0 \n", 1),
        ("store 4096 64 1024 3 512 256 3 1 0 x\nrun 17\n", 1),
        ("+\n", 2),
        ("+ run 1\n", 2),
        ("+run\n", 2),
        ("+run 1 1\n", 2),
        ("+run  1\n", 2),
        ("+Run 1\n", 2),
        ("+clock\nrun 17\n", 2),
        ("+clock 5 \n", 2),
        ("+say\n", 2),
        ("+say 17\n", 2),
        ("+jump 17\nrun 17\n", 2),
        ("+run 1\nclock 5\nrunning 1\nrun 17\n", 4),
    ] {
        let bytes = bytes_of(rt.alloc(), script)?;
        assert_eq!(rt;
            outcome(rt.alloc(), &bytes)?,
            Err((line, Why::BadWord)),
            "{script}"
        );
    }
    Ok(())
}

#[test]
fn bad_numbers(rt: HostRuntime) -> Result<(), Fail> {
    for (script, line) in [
        ("store 4096 64 1024 x 512 256 3 1 0 80 0\n", 1),
        ("store 4096 64 4294967296 3 512 256 3 1 0 80 0\n", 1),
        ("store 4096 64 1024 2 512 256 3 1 0 80 -1\njump\n", 1),
        ("+clock \n", 2),
        ("+clock -1\n", 2),
        ("+clock 0x5\n", 2),
        ("+clock 18446744073709551616\n", 2),
        ("+clock 000000000000000000005\n", 2),
        ("+run \n", 2),
        ("+run 0\n", 2),
        ("+run 17\njump 1\n", 2),
        ("+run 1\r\n", 2),
        ("+say 17 \n", 2),
        ("+say 0 get a\n", 2),
        ("+say  get a\n", 2),
        ("+clock 5\nsay 1 x\nrun 99\nrun", 4),
    ] {
        let bytes = bytes_of(rt.alloc(), script)?;
        assert_eq!(rt;
            outcome(rt.alloc(), &bytes)?,
            Err((line, Why::BadNumber)),
            "{script}"
        );
    }
    Ok(())
}

#[test]
fn bad_geometries(rt: HostRuntime) -> Result<(), Fail> {
    for (script, rule) in [
        ("store 4096 63 1024 2 512 256 3 1 0 80 0\njump\n", 1),
        ("store 4096 64 1024 2 512 256 3 1 0 80 0\n", 4),
        ("store 4096 64 1024 3 512 256 3 1 0 101 0\nrun 17\n", 10),
    ] {
        let bytes = bytes_of(rt.alloc(), script)?;
        assert_eq!(rt;
            outcome(rt.alloc(), &bytes)?,
            Err((1, Why::Geometry(rule))),
            "{script}"
        );
    }
    Ok(())
}

// A step, with the bytes that it names in place of their places.
#[derive(Clone, Copy, Debug, PartialEq)]
pub enum Meant<'a> {
    Clock(u64),
    Say(u32, &'a [u8]),
    Feed(u32, &'a [u8]),
    Turn(u32),
    Run(u32),
    Keep(Upkeep),
}

// The bytes from the first place up to the last.
fn named(bytes: &[u8], first: u32, last: u32) -> &[u8] {
    bytes.get(first as usize..last as usize).unwrap_or(&[])
}

pub fn step_meant<'a>(bytes: &'a [u8], step: Step) -> Meant<'a> {
    match step {
        Step::Clock(reading) => Meant::Clock(reading),
        Step::Say(session, first, last) => Meant::Say(session.number, named(bytes, first, last)),
        Step::Feed(session, first, last) => Meant::Feed(session.number, named(bytes, first, last)),
        Step::Turn(session) => Meant::Turn(session.number),
        Step::Run(session) => Meant::Run(session.number),
        Step::Keep(kind) => Meant::Keep(kind),
    }
}

#[test]
fn steps(rt: HostRuntime) -> Result<(), Fail> {
    for (line, wanted) in [
        ("clock 0\n", Meant::Clock(0)),
        ("clock 00000000000000000005\n", Meant::Clock(5)),
        ("clock 18446744073709551615\n", Meant::Clock(u64::MAX)),
        ("run 1\n", Meant::Run(1)),
        ("run 16\n", Meant::Run(16)),
        ("reap\n", Meant::Keep(Upkeep::Reap)),
        ("run 00000000000000000016\n", Meant::Run(16)),
        ("say 1 \n", Meant::Say(1, b"".as_slice())),
        ("say 2  \n", Meant::Say(2, b" ".as_slice())),
        ("say 16 get  a \n", Meant::Say(16, b"get  a ".as_slice())),
        ("say 03 x\r\n", Meant::Say(3, b"x\r".as_slice())),
    ] {
        let mut bytes = bytes_of(rt.alloc(), HEAD)?;
        bytes.extend_from_slice(line.as_bytes())?;
        let Ok(script) = read(rt.alloc(), &bytes)? else {
            panic!(rt; "{line}");
        };
        assert_eq!(rt; script.steps_offset, HEAD.len());
        assert_eq!(rt; script.geometry.memory, 4096);
        assert_eq!(rt; script.steps.len(), 1);
        assert_eq!(rt; step_meant(&bytes, script.steps[0]), wanted, "{line}");
    }
    Ok(())
}

#[test]
fn most_bytes(rt: HostRuntime) -> Result<(), Fail> {
    let alloc = rt.alloc();
    let mut bytes = bytes_of(alloc, "+say 1 ")?;
    let size = (MAX_BYTES - 1).saturating_sub(bytes.len());
    bytes.extend_from_slice(&vec![in alloc; b'x'; size]?)?;
    bytes.push(b'\n')?;
    assert_eq!(rt; bytes.len(), 16_777_216);
    assert_eq!(rt; outcome(alloc, &bytes)?, Ok(1));
    bytes.push(b'\n')?;
    assert_eq!(rt; outcome(alloc, &bytes)?, Err((0, Why::TooLong)));
    let bad = vec![in alloc; b'\n'; 16_777_217]?;
    assert_eq!(rt; outcome(alloc, &bad)?, Err((0, Why::TooLong)));
    assert_eq!(rt; outcome(alloc, &bad[1..])?, Err((1, Why::BadWord)));
    Ok(())
}

#[test]
fn most_steps(rt: HostRuntime) -> Result<(), Fail> {
    let alloc = rt.alloc();
    let mut bytes = doubled(alloc, b"run 1\n", 20)?;
    assert_eq!(rt; outcome(alloc, &bytes)?, Ok(1_048_576));
    bytes.push(b'x')?;
    assert_eq!(rt; outcome(alloc, &bytes)?, Err((0, Why::TooLong)));
    bytes.push(b'\n')?;
    assert_eq!(rt; outcome(alloc, &bytes)?, Err((0, Why::TooLong)));
    if let Some(first) = bytes.get_mut(HEAD.len()) {
        *first = b'j';
    }
    assert_eq!(rt; outcome(alloc, &bytes)?, Err((2, Why::BadWord)));
    Ok(())
}

#[test]
fn session_numbers(rt: HostRuntime) {
    for (number, wanted) in [
        (0, None),
        (1, Some(1)),
        (16, Some(16)),
        (17, None),
        (u64::MAX, None),
    ] {
        let session = SessionNumber::new(number).map(|session| session.number);
        assert_eq!(rt; session, wanted);
    }
}
