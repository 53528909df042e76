/// The bytes of a key.
pub const KEY_LEN: usize = 16;

/// The key of a number: the digits of a mixed number to the base 16, so that neighbours have no common front.
pub fn key_bytes(number: u64) -> [u8; KEY_LEN] {
    let mut rest = number.wrapping_mul(0x9e37_79b9_7f4a_7c15);
    let mut bytes = [0; KEY_LEN];
    for byte in &mut bytes {
        *byte = b'a' + (rest & 15) as u8;
        rest >>= 4;
    }
    bytes
}

/// The number that is visited at this turn, each once where there are a power of ten of them: not in the order in
/// which the keys were stored.
pub fn visited(turn: u64, keys: u64) -> u64 {
    turn.wrapping_mul(618_033_989) % keys.max(1)
}
