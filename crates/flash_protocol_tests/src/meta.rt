use flash_entry::Mode;
use flash_meta::{Meta, MetaLine, MetaVerb, is_meta, read_meta};
use flash_text::Refusal;
use std::process::Abort;

// What a line says.
#[derive(Clone, Copy)]
struct Said {
    verb: MetaVerb,
    word: &'static [u8],
    key: &'static [u8],
    length: u32,
    asked: &'static [u8],
    quiet: bool,
    value: bool,
    exptime: Option<i64>,
    flags: u32,
    compare: Option<u64>,
    mode: Mode,
    down: bool,
    delta: u64,
    create: Option<i64>,
    start: u64,
}

// What a line of the key `a` without flags says.
fn plain(verb: MetaVerb, asked: &'static [u8]) -> Said {
    Said {
        verb,
        word: b"a",
        key: b"a",
        length: 0,
        asked,
        quiet: false,
        value: false,
        exptime: None,
        flags: 0,
        compare: None,
        mode: Mode::Set,
        down: false,
        delta: 1,
        create: None,
        start: 0,
    }
}

fn assert_said(rt: &impl Abort, meta: &Meta<'_>, said: &Said) {
    assert_eq!(rt; meta.verb, said.verb);
    assert_eq!(rt; meta.word, said.word);
    assert_eq!(rt; meta.key.bytes(), said.key);
    assert_eq!(rt; meta.length, said.length);
    assert_eq!(rt; meta.asked, said.asked);
    assert_eq!(rt; meta.base64, said.word != said.key);
    assert_eq!(rt; meta.quiet, said.quiet);
    assert_eq!(rt; meta.value, said.value);
    assert_eq!(rt; meta.exptime, said.exptime);
    assert_eq!(rt; meta.flags, said.flags);
    assert_eq!(rt; meta.compare, said.compare);
    assert_eq!(rt; meta.mode, said.mode);
    assert_eq!(rt; meta.down, said.down);
    assert_eq!(rt; meta.delta, said.delta);
    assert_eq!(rt; meta.create, said.create);
    assert_eq!(rt; meta.start, said.start);
}

fn assert_reads(rt: &impl Abort, line: &'static [u8], said: Said) {
    assert!(rt; is_meta(line));
    match read_meta(line, 1_024) {
        MetaLine::Command(meta) => assert_said(rt, &meta, &said),
        MetaLine::Data(meta, length) => {
            assert_eq!(rt; length, said.length);
            assert_said(rt, &meta, &said);
        }
        MetaLine::Bad(refusal, _) => assert!(rt; false, "{refusal:?}"),
    }
}

// Each command, and each of its flags (doc/protocol.txt, "Meta Commands").
#[test]
fn reads_lookups(rt: HostRuntime) {
    assert_reads(&rt, b"mg a", plain(MetaVerb::Get, b""));
    assert_reads(
        &rt,
        b"mg a k  Oxy c f s h l t \r",
        plain(MetaVerb::Get, b"k  Oxy c f s h l t"),
    );
    let mut said = plain(MetaVerb::Get, b"v q T-1");
    said.value = true;
    said.quiet = true;
    said.exptime = Some(-1);
    assert_reads(&rt, b" mg  a  v q T-1", said);
    let mut said = plain(MetaVerb::Get, b"b k");
    said.word = b"Zm9vYg==";
    said.key = b"foob";
    assert_reads(&rt, b"mg Zm9vYg== b k", said);
    said.word = b"/+8=";
    said.key = b"\xff\xef";
    assert_reads(&rt, b"mg /+8= b k", said);
}

#[test]
fn reads_changes(rt: HostRuntime) {
    let mut said = plain(MetaVerb::Set, b"c T60 F7 C9 Mr q");
    said.length = 1_024;
    said.quiet = true;
    said.exptime = Some(60);
    said.flags = 7;
    said.compare = Some(9);
    said.mode = Mode::Replace;
    assert_reads(&rt, b"ms a 1024 c T60 F7 C9 Mr q", said);
    let mut said = plain(MetaVerb::Delete, b"q k O1 C18446744073709551615");
    said.quiet = true;
    said.compare = Some(18_446_744_073_709_551_615);
    assert_reads(&rt, b"md a q k O1 C18446744073709551615", said);
    assert_reads(&rt, b"ma a t c", plain(MetaVerb::Arith, b"t c"));
    let mut said = plain(MetaVerb::Arith, b"v T1 C2 M- D3 N4 J5");
    said.value = true;
    said.exptime = Some(1);
    said.compare = Some(2);
    said.down = true;
    said.delta = 3;
    said.create = Some(4);
    said.start = 5;
    assert_reads(&rt, b"ma a v T1 C2 M- D3 N4 J5", said);
}

#[test]
fn reads_modes(rt: HostRuntime) {
    let modes: [(&'static [u8], Mode); 10] = [
        (b"ms a 0 MS", Mode::Set),
        (b"ms a 0 Ms", Mode::Set),
        (b"ms a 0 ME", Mode::Add),
        (b"ms a 0 Me", Mode::Add),
        (b"ms a 0 MA", Mode::Append),
        (b"ms a 0 Ma", Mode::Append),
        (b"ms a 0 MP", Mode::Prepend),
        (b"ms a 0 Mp", Mode::Prepend),
        (b"ms a 0 MR", Mode::Replace),
        (b"ms a 0 Mr", Mode::Replace),
    ];
    for (line, mode) in modes {
        match read_meta(line, 0) {
            MetaLine::Data(meta, _) => assert_eq!(rt; meta.mode, mode),
            _ => assert!(rt; false),
        }
    }
    let ways: [(&'static [u8], bool); 6] = [
        (b"ma a MI", false),
        (b"ma a Mi", false),
        (b"ma a M+", false),
        (b"ma a MD", true),
        (b"ma a Md", true),
        (b"ma a M-", true),
    ];
    for (line, down) in ways {
        match read_meta(line, 0) {
            MetaLine::Command(meta) => assert_eq!(rt; meta.down, down),
            _ => assert!(rt; false),
        }
    }
}

// Each refusal, and what is skipped after it.
#[test]
fn refuses_lines(rt: HostRuntime) {
    let table: [(&'static [u8], Refusal, u32); 34] = [
        (b"", Refusal::Unknown, 0),
        (b"mn", Refusal::Unknown, 0),
        (b"MG a", Refusal::Unknown, 0),
        (b"mg", Refusal::BadFormat, 0),
        (b"ms a", Refusal::BadFormat, 0),
        (b"ms a S5", Refusal::BadFormat, 0),
        (b"ms a 2147483648 Z", Refusal::BadFormat, 0),
        (b"mg a F1", Refusal::BadFlag, 0),
        (b"mg a vv", Refusal::BadFlag, 0),
        (b"mg a v v1", Refusal::BadFlag, 0),
        (b"mg a \xff", Refusal::BadFlag, 0),
        (b"md a v", Refusal::BadFlag, 0),
        (b"md a T1", Refusal::BadFlag, 0),
        (b"ms a 5 v", Refusal::BadFlag, 7),
        (b"ma a F1", Refusal::BadFlag, 0),
        (b"mg a v k v", Refusal::DuplicateFlag, 0),
        (b"ms a 5 T1 T", Refusal::DuplicateFlag, 7),
        (b"mg a k k Z", Refusal::DuplicateFlag, 0),
        (b"mg a Z k k", Refusal::BadFlag, 0),
        (b"mg a O", Refusal::BadToken, 0),
        (b"mg a T", Refusal::BadToken, 0),
        (b"mg a T1000000000000000000", Refusal::BadToken, 0),
        (b"ms a 5 F4294967296", Refusal::BadToken, 7),
        (b"ms a 5 MX", Refusal::BadToken, 7),
        (b"ms a 5 MSS", Refusal::BadToken, 7),
        (b"ma a D18446744073709551616", Refusal::BadToken, 0),
        (b"ma a MS", Refusal::BadToken, 0),
        (b"mg a\x01 k", Refusal::BadFormat, 0),
        (b"mg Zm9vYg b", Refusal::BadFormat, 0),
        (b"mg Zm9vYh== b", Refusal::BadFormat, 0),
        (b"mg Zm9v!A== b", Refusal::BadFormat, 0),
        (b"ms a\x7f 1025", Refusal::BadFormat, 1_027),
        (b"ms a 1025", Refusal::TooLarge, 1_027),
        (b"ms a 2147483647", Refusal::TooLarge, 2_147_483_649),
    ];
    for (line, refusal, skip) in table {
        match read_meta(line, 1_024) {
            MetaLine::Bad(why, bytes) => {
                assert_eq!(rt; why, refusal, "{}", line.len());
                assert_eq!(rt; bytes, skip);
            }
            _ => assert!(rt; false, "a line of {} bytes was read", line.len()),
        }
    }
}

#[test]
fn reads_long_words(rt: HostRuntime) {
    // 248 base64 letters are 186 bytes; 252 are too many, though they are 189 bytes.
    let mut line = [b'A'; 257];
    line[..3].copy_from_slice(b"mg ");
    line[251..253].copy_from_slice(b" b");
    match read_meta(&line[..253], 0) {
        MetaLine::Command(meta) => {
            assert_eq!(rt; meta.word.len(), 248);
            assert_eq!(rt; meta.key.bytes(), [0; 186].as_slice());
        }
        _ => assert!(rt; false),
    }
    line[251..255].copy_from_slice(b"AAAA");
    line[255..].copy_from_slice(b" b");
    assert!(rt; matches!(read_meta(&line, 0), MetaLine::Bad(Refusal::BadFormat, 0)));

    let mut line = [b'x'; 257];
    line[..6].copy_from_slice(b"mg a O");
    assert!(rt; matches!(read_meta(&line[..256], 0), MetaLine::Command(_)));
    assert!(rt; matches!(read_meta(&line, 0), MetaLine::Bad(Refusal::BadToken, 0)));
}
