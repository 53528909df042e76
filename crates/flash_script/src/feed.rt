ghost use Rattle.std.specs.Result.{result_map_both};
ghost use Rattle.std.specs.Prelude.{◌≡◌, ◌+◌, ◌<◌, ◌≤◌, length, drop, option_map, slice_range, MatchResult, IfOk};
ghost use Rattle.flash_names.specs.Words.{words_if};
ghost use Rattle.flash_script.specs.CodeScripts.{step_at_meant, IsWithin};
ghost use Rattle.flash_script.specs.Scripts.{two_of, fed_of, feed_of};
ghost use Rattle.flash_script.specs.declared.script.TheConstants.{MAX_BYTES};

use crate::fault::Why;
use crate::step::Step;
use crate::step_line::read_session;
use flash_names::{read_number, split_word};

/// The step of a line `feed <session> <n>`, and the number of the step's bytes, with its line
/// feeds. The line begins at the place `start` and has `size` bytes with its line feed; `rest` is
/// what stands behind its first space, if it has one.
pub fn read_feed(
    bytes: &[u8],
    rest: Option<&[u8]>,
    start: usize,
    size: usize,
) -> Result<(Step, usize), Why>
    requires within { start + size ≤ length bytes.now }
    requires small { length bytes.now ≤ MAX_BYTES }
    ensures read { result_map_both (step_at_meant bytes.now) (λ why. why) result
        ≡ feed_of (words_if (option_map (λ text. text.now) rest.entry)) size (drop (start + size) bytes.now) }
    ensures within { IfOk result (λ read. IsWithin (length bytes.now) read.0) }
    ensures size { IfOk result (λ read. (0 < read.1) × (start + read.1 ≤ length bytes.now)) }
{
    let (session, count) = two_words(rest).ok_or(Why::BadWord)?;
    let count = read_number(count).ok_or(Why::BadNumber)?;
    let first = start + size;
    let last = fed_end(bytes, first, count)?;
    let session = read_session(session).ok_or(Why::BadNumber)?;
    let step = Step::Feed(session, first as u32, last as u32);
    Ok((step, last + 1 - start))
}

// The words of what stands behind a line's first word, where they are two.
fn two_words(rest: Option<&[u8]>) -> Option<(&[u8], &[u8])>
    ensures { option_map (λ two. (two.0.now, two.1.now)) result
        ≡ two_of (words_if (option_map (λ text. text.now) rest.entry)) }
{
    let (one, more) = split_word(rest?);
    let (two, more) = split_word(more?);
    match more {
        None => Some((one, two)),
        Some(_) => None,
    }
}

// Where the fed bytes end, which begin at the place `first` and are this many: at a line feed.
fn fed_end(bytes: &[u8], first: usize, count: u64) -> Result<usize, Why>
    requires within { first ≤ length bytes.now }
    ensures fed { MatchResult result
        (λ last. fed_of count (drop first bytes.now) ≡ Ok (slice_range bytes.now first last))
        (λ why. fed_of count (drop first bytes.now) ≡ Err why) }
    ensures last { IfOk result (λ last. (last ≡ first + count) × (last < length bytes.now)) }
{
    let left = bytes.len() - first;
    if count >= left as u64 {
        return Err(Why::Short);
    }
    let last = first + count as usize;
    if bytes[last] != b'\n' {
        return Err(Why::BadWord);
    }
    Ok(last)
}
