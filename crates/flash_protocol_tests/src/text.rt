use flash_entry::Mode;
use flash_text::{Line, Refusal, Text, Verb, next_word, read_line};
use std::process::Abort;

// What a line says: its verb, keys, flags, exptime, length, number, and whether it is quiet.
type Said = (Verb, &'static [u8], u32, i64, u32, u64, bool);

const LARGEST: u64 = 18_446_744_073_709_551_615;

fn assert_said(rt: &impl Abort, text: &Text<'_>, said: Said) {
    let (verb, keys, flags, exptime, length, number, quiet) = said;
    assert_eq!(rt; text.verb, verb);
    assert_eq!(rt; text.keys, keys);
    assert_eq!(rt; text.flags, flags);
    assert_eq!(rt; text.exptime, exptime);
    assert_eq!(rt; text.length, length);
    assert_eq!(rt; text.number, number);
    assert_eq!(rt; text.quiet, quiet);
}

// Each command, with each of its optional words (doc/protocol.txt).
#[test]
fn reads_commands(rt: HostRuntime) {
    let table: [(&'static [u8], Said); 30] = [
        (b"get a", (Verb::Get, b"a", 0, 0, 0, 0, false)),
        (b"  get  a  b \r", (Verb::Get, b"a  b", 0, 0, 0, 0, false)),
        (b"gets k1 k2", (Verb::Gets, b"k1 k2", 0, 0, 0, 0, false)),
        (b"gat 60 a b", (Verb::Gat, b"a b", 0, 60, 0, 0, false)),
        (b"gats -1 a", (Verb::Gats, b"a", 0, -1, 0, 0, false)),
        (b"delete a", (Verb::Delete, b"a", 0, 0, 0, 0, false)),
        (b"delete a 0", (Verb::Delete, b"a", 0, 0, 0, 0, false)),
        (b"delete a noreply", (Verb::Delete, b"a", 0, 0, 0, 0, true)),
        (
            b"delete a 0 noreply",
            (Verb::Delete, b"a", 0, 0, 0, 0, true),
        ),
        (b"incr a 5", (Verb::Incr, b"a", 0, 0, 0, 5, false)),
        (
            b"incr a 18446744073709551615 noreply",
            (Verb::Incr, b"a", 0, 0, 0, LARGEST, true),
        ),
        (
            b"decr a 00000000000000000007",
            (Verb::Decr, b"a", 0, 0, 0, 7, false),
        ),
        (
            b"touch a 999999999999999999",
            (Verb::Touch, b"a", 0, 999_999_999_999_999_999, 0, 0, false),
        ),
        (
            b"touch a -5 noreply",
            (Verb::Touch, b"a", 0, -5, 0, 0, true),
        ),
        (b"flush_all", (Verb::FlushAll, b"", 0, 0, 0, 0, false)),
        (b"flush_all 10", (Verb::FlushAll, b"", 0, 10, 0, 0, false)),
        (
            b"flush_all noreply",
            (Verb::FlushAll, b"", 0, 0, 0, 0, true),
        ),
        (
            b"flush_all 10 noreply",
            (Verb::FlushAll, b"", 0, 10, 0, 0, true),
        ),
        (b"verbosity 1", (Verb::Verbosity, b"", 0, 0, 0, 1, false)),
        (
            b"verbosity 1 noreply",
            (Verb::Verbosity, b"", 0, 0, 0, 1, true),
        ),
        (b"stats", (Verb::Stats, b"", 0, 0, 0, 0, false)),
        (b"version\r", (Verb::Version, b"", 0, 0, 0, 0, false)),
        (b"quit", (Verb::Quit, b"", 0, 0, 0, 0, false)),
        (b"mn ", (Verb::Mn, b"", 0, 0, 0, 0, false)),
        (
            b"set a 1 2 3",
            (Verb::Store(Mode::Set), b"a", 1, 2, 3, 0, false),
        ),
        (
            b"add a 4294967295 -2 0 noreply",
            (Verb::Store(Mode::Add), b"a", 4_294_967_295, -2, 0, 0, true),
        ),
        (
            b"replace a 0 0 1048576",
            (Verb::Store(Mode::Replace), b"a", 0, 0, 1_048_576, 0, false),
        ),
        (
            b"append a 0 0 1",
            (Verb::Store(Mode::Append), b"a", 0, 0, 1, 0, false),
        ),
        (
            b"prepend a 0 0 1",
            (Verb::Store(Mode::Prepend), b"a", 0, 0, 1, 0, false),
        ),
        (
            b"cas a 1 2 3 4 noreply\r",
            (Verb::Cas, b"a", 1, 2, 3, 4, true),
        ),
    ];
    for (line, said) in table {
        match read_line(line, 1_048_576) {
            Line::Command(text) => assert_said(&rt, &text, said),
            Line::Data(text, length) => {
                assert_eq!(rt; length, text.length);
                assert_said(&rt, &text, said);
            }
            Line::Bad(refusal, _) => assert!(rt; false, "{refusal:?}"),
        }
    }
}

// Each refusal, and what is skipped after it.
#[test]
fn refuses_lines(rt: HostRuntime) {
    let table: [(&'static [u8], Refusal, u32); 36] = [
        (b"", Refusal::Unknown, 0),
        (b"  \r", Refusal::Unknown, 0),
        (b"GET a", Refusal::Unknown, 0),
        (b"get", Refusal::Unknown, 0),
        (b"gat 60", Refusal::Unknown, 0),
        (b"set a 0 0", Refusal::Unknown, 0),
        (b"set a 0 0 1 2", Refusal::Unknown, 0),
        (b"set a 0 0 1 noreply noreply", Refusal::Unknown, 0),
        (b"set noreply a 0 0 1", Refusal::Unknown, 0),
        (b"cas a 0 0 1", Refusal::Unknown, 0),
        (b"delete", Refusal::Unknown, 0),
        (b"delete a 1", Refusal::Unknown, 0),
        (b"delete a 00", Refusal::Unknown, 0),
        (b"delete a noreply 0", Refusal::Unknown, 0),
        (b"flush_all -1", Refusal::Unknown, 0),
        (b"flush_all 1000000000000000000", Refusal::Unknown, 0),
        (b"flush_all noreply 10", Refusal::Unknown, 0),
        (b"stats items", Refusal::Unknown, 0),
        (b"verbosity", Refusal::Unknown, 0),
        (b"get a\x01", Refusal::BadFormat, 0),
        (b"get a b\x7f c", Refusal::BadFormat, 0),
        (b"gat 1x a", Refusal::BadFormat, 0),
        (b"set a 0 0 -1", Refusal::BadFormat, 0),
        (b"set a\x02 x y 2147483648", Refusal::BadFormat, 0),
        (b"set a\x02 0 0 5", Refusal::BadFormat, 7),
        (b"set a 4294967296 0 5", Refusal::BadFormat, 7),
        (b"set a 0 1000000000000000000 5", Refusal::BadFormat, 7),
        (b"cas a 0 0 5 18446744073709551616", Refusal::BadFormat, 7),
        (b"set a 0 x 2147483647", Refusal::BadFormat, 2_147_483_649),
        (b"set a 0 0 1025", Refusal::TooLarge, 1_027),
        (b"set a 0 0 2147483647", Refusal::TooLarge, 2_147_483_649),
        (b"incr a x", Refusal::BadDelta, 0),
        (b"incr a\x01 -1", Refusal::BadDelta, 0),
        (b"decr a 000000000000000000001", Refusal::BadDelta, 0),
        (b"incr a\x01 1", Refusal::BadFormat, 0),
        (b"touch a -", Refusal::BadFormat, 0),
    ];
    for (line, refusal, skip) in table {
        match read_line(line, 1_024) {
            Line::Bad(why, bytes) => {
                assert_eq!(rt; why, refusal, "{}", line.len());
                assert_eq!(rt; bytes, skip);
            }
            _ => assert!(rt; false, "a line of {} bytes was read", line.len()),
        }
    }
}

#[test]
fn reads_long_keys(rt: HostRuntime) {
    let mut line = [b'k'; 255];
    line[..4].copy_from_slice(b"get ");
    let longest = &line[..254];
    assert!(rt; matches!(read_line(longest, 0), Line::Command(_)));
    assert!(rt; matches!(read_line(&line, 0), Line::Bad(Refusal::BadFormat, 0)));
}

#[test]
fn gives_words(rt: HostRuntime) {
    let (first, rest) = next_word(b"  k1   k2 ").expect(&rt, "a word");
    assert_eq!(rt; first, b"k1".as_slice());
    let (second, rest) = next_word(rest).expect(&rt, "a word");
    assert_eq!(rt; second, b"k2".as_slice());
    assert!(rt; next_word(rest).is_none());
}
