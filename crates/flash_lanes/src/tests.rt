use super::*;

#[test]
fn takes_key_bytes(rt: HostRuntime) {
    let long = [b'k'; 250];
    let table: [(&[u8], bool); 8] = [
        (b"", true),
        (b"!", true),
        (b"~\x80\xff", true),
        (b"a key", false),
        (b"\x7f", false),
        (b"\x1f", false),
        (b"0123456789abcdef\x7f", false),
        (&long, true),
    ];
    for (bytes, valid) in table {
        assert_eq!(rt; all_key_bytes(bytes), valid);
    }
}

#[test]
fn finds_tags(rt: HostRuntime) {
    let tags = [7, 0, 7, 1, 2, 3, 4, 5, 6, 8, 9, 10, 11, 12, 255, 7];
    let table = [
        (7, 0b1000_0000_0000_0101),
        (0, 0b10),
        (255, 0b0100_0000_0000_0000),
        (13, 0),
    ];
    for (tag, mask) in table {
        assert_eq!(rt; tags_equal(&tags, tag), mask);
    }
}

#[test]
fn compares_bytes(rt: HostRuntime) {
    let table: [(&[u8], &[u8], bool); 6] = [
        (b"", b"", true),
        (b"a", b"", false),
        (b"0123456789abcdef", b"0123456789abcdef", true),
        (b"0123456789abcdef", b"0123456789abcdeF", false),
        (b"0123456789abcdef0", b"0123456789abcdef1", false),
        (
            b"0123456789abcdef0123456789abcdef",
            b"0123456789abcdef0123456789abcdef",
            true,
        ),
    ];
    for (a, b, same) in table {
        assert_eq!(rt; same_bytes(a, b), same);
    }
}
