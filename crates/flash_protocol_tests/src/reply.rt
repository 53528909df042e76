use bytes::BytesMut;
use flash_entry::{Gone, Head, Hit, LookAnswer, Stored, Sum, Summed, Tally, Told, Touched};
use flash_meta::{MetaLine, is_meta, read_meta};
use flash_names::Blob;
use flash_reply::{Command, reply_look, reply_plain, reply_refusal, reply_step};
use flash_text::{Line, Refusal, Verb, read_line};
use std::alloc::{AllocError, Global};
use std::test::Fail;

const HEAD: Head = Head {
    flags: 5,
    cas: 7,
    size: 2,
    left: -1,
    before: true,
    idle: 9,
};

const SUMMED: Summed = Summed {
    number: 10,
    cas: 3,
    left: 60,
};

const TALLY: Tally = Tally {
    items: 0,
    load: 71,
    last_cas: 2,
    now: 0,
    free_pages: 3,
};

fn hit(alloc: Global) -> Result<LookAnswer, AllocError> {
    Ok(LookAnswer::Hit(Hit {
        head: HEAD,
        value: Blob::from_slice(alloc, b"hi")?,
    }))
}

// The command of a line that isn't refused.
fn command(line: &str) -> Option<Command<'_>> {
    let line = line.as_bytes();
    if is_meta(line) {
        return match read_meta(line, 1024) {
            MetaLine::Command(meta) | MetaLine::Data(meta, _) => Some(Command::Meta(meta)),
            MetaLine::Bad(_, _) => None,
        };
    }
    match read_line(line, 1024) {
        Line::Command(text) | Line::Data(text, _) => Some(Command::Text(text)),
        Line::Bad(_, _) => None,
    }
}

// What a queue holds after the reply to a step of a line's command, behind `:`, which was there before.
fn replied(alloc: Global, line: &str, step: u32, told: &Told) -> Result<BytesMut, AllocError> {
    let mut out = BytesMut::new(alloc);
    out.extend_from_slice(b":")?;
    if let Some(command) = command(line) {
        reply_step(&mut out, &command, step, told)?;
    }
    Ok(out)
}

#[test]
fn replies_to_lookups(rt: HostRuntime) -> Result<(), Fail> {
    let alloc = rt.alloc();
    let found = Told::Found(hit(alloc)?);
    for (line, step, reply) in [
        ("get a", 1, ":VALUE a 5 2\r\nhi\r\nEND\r\n"),
        ("get a  bb c", 2, ":VALUE bb 5 2\r\nhi\r\n"),
        ("gets a bb", 2, ":VALUE bb 5 2 7\r\nhi\r\nEND\r\n"),
        ("gat 9 a", 1, ":VALUE a 5 2\r\nhi\r\nEND\r\n"),
        ("gats 9 a", 1, ":VALUE a 5 2 7\r\nhi\r\nEND\r\n"),
        ("mg a v", 1, ":VA 2\r\nhi\r\n"),
        ("mg AA== b k v", 1, ":VA 2 kAA== b\r\nhi\r\n"),
        ("mg a s v t f q h l", 1, ":VA 2 s2 t-1 f5 h1 l9\r\nhi\r\n"),
    ] {
        let out = replied(alloc, line, step, &found)?;
        assert_eq!(rt; out.as_slice(), reply.as_bytes(), "{line}");
    }
    Ok(())
}

#[test]
fn replies_to_steps(rt: HostRuntime) -> Result<(), Fail> {
    let alloc = rt.alloc();
    for (line, told, reply) in [
        ("get a", Told::Found(LookAnswer::Miss), ":END\r\n"),
        ("get a b", Told::Found(LookAnswer::Miss), ":"),
        (
            "cas a 0 0 1 5",
            Told::Stored(Stored::NotFound),
            ":NOT_FOUND\r\n",
        ),
        (
            "set a 0 0 1",
            Told::Stored(Stored::Stored(1)),
            ":STORED\r\n",
        ),
        ("set a 0 0 1 noreply", Told::Stored(Stored::TooLarge), ":"),
        (
            "add a 0 0 1",
            Told::Stored(Stored::NotStored),
            ":NOT_STORED\r\n",
        ),
        ("cas a 0 0 1 1", Told::Stored(Stored::Exists), ":EXISTS\r\n"),
        (
            "set a 0 0 1",
            Told::Stored(Stored::NoNumber),
            ":SERVER_ERROR numbers used up\r\n",
        ),
        ("touch a 0", Told::Touched(Touched::Touched), ":TOUCHED\r\n"),
        ("delete a", Told::Gone(Gone::Deleted), ":DELETED\r\n"),
        ("delete a noreply", Told::Gone(Gone::Deleted), ":"),
        ("incr a 1", Told::Sum(Sum::Now(SUMMED)), ":10\r\n"),
        (
            "decr a 1",
            Told::Sum(Sum::NonNumeric),
            ":CLIENT_ERROR cannot increment or decrement non-numeric value\r\n",
        ),
        ("flush_all", Told::Flushed, ":OK\r\n"),
        ("get a b", Told::NoMemory, ":SERVER_ERROR out of memory\r\n"),
        (
            "stats",
            Told::Tally(TALLY),
            ":STAT curr_items 0\r\nSTAT bytes 71\r\nSTAT total_items 2\r\nSTAT time 0\r\n\
            STAT extstore_pages_free 3\r\nEND\r\n",
        ),
    ] {
        let out = replied(alloc, line, 1, &told)?;
        assert_eq!(rt; out.as_slice(), reply.as_bytes(), "{line}");
    }
    Ok(())
}

#[test]
fn replies_to_meta_steps(rt: HostRuntime) -> Result<(), Fail> {
    let alloc = rt.alloc();
    for (line, told, reply) in [
        (
            "mg a t O9 c k",
            Told::Found(LookAnswer::Head(HEAD)),
            ":HD t-1 O9 c7 ka\r\n",
        ),
        ("mg zz", Told::Found(LookAnswer::Miss), ":EN\r\n"),
        (
            "mg zz O9 k",
            Told::Found(LookAnswer::Miss),
            ":EN O9 kzz\r\n",
        ),
        ("mg zz q", Told::Found(LookAnswer::Miss), ":"),
        ("ms AA== 2 b", Told::Stored(Stored::Stored(2)), ":HD\r\n"),
        ("ms a 2 c q", Told::Stored(Stored::Stored(2)), ":"),
        ("ms a 2 c", Told::Stored(Stored::Stored(2)), ":HD c2\r\n"),
        ("ms a 2 q c", Told::Stored(Stored::NotFound), ":NF\r\n"),
        ("ms a 2 MA k", Told::Stored(Stored::NotStored), ":NS ka\r\n"),
        ("md a q", Told::Gone(Gone::NotFound), ":"),
        ("md a q C4 O1", Told::Gone(Gone::Exists), ":EX O1\r\n"),
        ("ma n", Told::Sum(Sum::Now(SUMMED)), ":HD\r\n"),
        (
            "ma n v t c",
            Told::Sum(Sum::Created(SUMMED)),
            ":VA 2 t60 c3\r\n10\r\n",
        ),
        ("ma n v q", Told::Sum(Sum::Now(SUMMED)), ":"),
        ("ma n q", Told::Sum(Sum::NotFound), ":"),
        ("ma n q", Told::NoMemory, ":SERVER_ERROR out of memory\r\n"),
    ] {
        let out = replied(alloc, line, 1, &told)?;
        assert_eq!(rt; out.as_slice(), reply.as_bytes(), "{line}");
    }
    Ok(())
}

#[test]
fn replies_without_a_step(rt: HostRuntime) -> Result<(), Fail> {
    let mut out = BytesMut::new(rt.alloc());
    for line in [
        "version",
        "verbosity 1",
        "verbosity 1 noreply",
        "mn",
        "quit",
    ] {
        if let Some(command) = command(line) {
            reply_plain(&mut out, &command)?;
        }
    }
    assert_eq!(rt;
        out.as_slice(),
        b"VERSION 1.6-flash\r\nOK\r\nMN\r\n".as_slice()
    );
    out.clear();
    for refusal in [
        Refusal::Unknown,
        Refusal::BadFormat,
        Refusal::BadDelta,
        Refusal::BadChunk,
    ] {
        reply_refusal(&mut out, refusal)?;
    }
    reply_look(&mut out, Verb::Get, b"a", true, &LookAnswer::Miss)?;
    assert_eq!(rt;
        out.as_slice(),
        b"ERROR\r\nCLIENT_ERROR bad command line format\r\nCLIENT_ERROR invalid numeric delta argument\r\n\
        CLIENT_ERROR bad data chunk\r\nEND\r\n"
            .as_slice()
    );
    Ok(())
}
