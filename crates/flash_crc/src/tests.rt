use super::*;

// The examples of RFC 3720, appendix B.4, and the check value of the nine digits.
#[test]
fn gives_the_published_values(rt: HostRuntime) {
    let mut rising = [0u8; 32];
    let mut falling = [0u8; 32];
    for i in 0..32 {
        rising[i] = i as u8;
        falling[i] = 31 - i as u8;
    }
    assert_eq!(rt; crc32c(b""), 0);
    assert_eq!(rt; crc32c(b"123456789"), 0xE306_9283);
    assert_eq!(rt; crc32c(&[0; 32]), 0x8A91_36AA);
    assert_eq!(rt; crc32c(&[0xff; 32]), 0x62A8_AB43);
    assert_eq!(rt; crc32c(&rising), 0x46DD_794E);
    assert_eq!(rt; crc32c(&falling), 0x113F_DB5C);
    assert_eq!(rt; crc32c(&READ_COMMAND), 0xD996_3A56);
}

// A SCSI read command of RFC 3720, appendix B.4.
const READ_COMMAND: [u8; 48] = [
    0x01, 0xc0, 0x00, 0x00, 0x00, 0x00, 0x00, 0x00, 0x00, 0x00, 0x00, 0x00, 0x00, 0x00, 0x00, 0x00,
    0x14, 0x00, 0x00, 0x00, 0x00, 0x00, 0x04, 0x00, 0x00, 0x00, 0x00, 0x14, 0x00, 0x00, 0x00, 0x18,
    0x28, 0x00, 0x00, 0x00, 0x00, 0x00, 0x00, 0x00, 0x02, 0x00, 0x00, 0x00, 0x00, 0x00, 0x00, 0x00,
];

#[test]
fn takes_pieces_of_any_length(rt: HostRuntime) {
    for cut in 0..=READ_COMMAND.len() {
        let mut crc = Crc::new();
        crc.feed(&READ_COMMAND[..cut]);
        crc.feed(b"");
        crc.feed(&READ_COMMAND[cut..]);
        assert_eq!(rt; crc.value(), 0xD996_3A56);
    }
}
