use std::{fs, io};

/// The resident memory of this process in kilobytes, as Linux tells it in /proc/self/status.
pub fn resident_kilobytes(rt: &HostRuntime) -> io::Result<u64> {
    let text = fs::read_to_string(rt, "/proc/self/status")?;
    Ok(resident_in(&text))
}

// What a status says of the resident memory, 0 where it doesn't.
fn resident_in(text: &str) -> u64 {
    for line in text.lines() {
        if let Some(rest) = line.strip_prefix("VmRSS:") {
            return number_in(rest);
        }
    }
    0
}

// The number at the front of a text, behind spaces.
fn number_in(text: &str) -> u64 {
    match text.trim().split(' ').next() {
        Some(word) => word.parse().unwrap_or(0),
        None => 0,
    }
}
