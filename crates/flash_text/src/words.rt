ghost use Rattle.std.specs.Prelude.{◌≡◌, length, not, ◌==◌, ◌<◌, ◌≤◌, IfSome};
ghost use Rattle.std.specs.Option.{option_map};
ghost use Rattle.std.specs.List.{position_or_len};
ghost use Rattle.flash_text.specs.Words.{spaced_words, with_next, without_return, from_word as line_from_word, behind_word, to_word as line_to_word, trimmed as trimmed_line};

use flash_names::cut_at_byte;

/// The line without one carriage return at its end, where it has one.
pub fn without_return(line: &[u8]) -> &[u8]
    ensures { result.now ≡ without_return line.now }
{
    line.strip_suffix(b"\r".as_slice()).unwrap_or(line)
}

/// The first word of a line whose words have one or more spaces between two, and what is behind it and the space
/// that ends it. `None` where the line has no word.
pub fn next_word(line: &[u8]) -> Option<(&[u8], &[u8])>
    ensures words { spaced_words line.now ≡ with_next (option_map (λ parts. (parts.0.now, parts.1.now)) result) }
    ensures behind { IfSome result (λ parts. parts.1.now ≡ behind_word line.now) }
    ensures shorter { IfSome result (λ parts. length parts.1.now < length line.now) }
{
    let line = from_word(line);
    if line.is_empty() {
        return None;
    }
    match cut_at_byte(b' ', line) {
        None => Some((line, &[])),
        Some(parts) => Some(parts),
    }
}

// The line from its first byte on that isn't a space.
fn from_word(line: &[u8]) -> &[u8]
    ensures { result.now ≡ line_from_word line.now }
{
    &line[leading_spaces(line)..]
}

fn leading_spaces(line: &[u8]) -> usize
    ensures spaces { result ≡ position_or_len (λ b. not (b == 32)) line.now }
    ensures within { result ≤ length line.now }
{
    line.iter().position(|b| *b != b' ').unwrap_or(line.len())
}

/// The line from its first word's first byte to its last word's last byte.
pub fn trimmed(line: &[u8]) -> &[u8]
    ensures { result.now ≡ trimmed_line line.now }
{
    to_word(from_word(line))
}

// The line up to its last byte that isn't a space.
fn to_word(line: &[u8]) -> &[u8]
    ensures { result.now ≡ line_to_word line.now }
{
    let mut left = line;
    'spaces: while let Some(front) = left.strip_suffix(b" ".as_slice()) {
        left = front;
    }
    left
}
