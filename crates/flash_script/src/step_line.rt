ghost use Rattle.std.specs.Result.{result_map_both};
ghost use Rattle.std.specs.Prelude.{◌≡◌, ◌≤◌, ℕ, List, [], length, option_map, slice_range, MatchResult, IfOk};
ghost use Rattle.flash_script.specs.CodeScripts.{step_meant, IsWithin};
ghost use Rattle.flash_script.specs.Scripts.{session_of, step_word, upkeep_word, step_of_word, step_of};
ghost use Rattle.flash_script.specs.declared.script.TheConstants.{MAX_BYTES};

use crate::fault::Why;
use crate::step::{SessionNumber, Step, Upkeep};
use flash_names::{read_number, split_word};

/// The word that a step's line begins with, where that line is the whole step.
#[derive(Clone, Copy)]
pub enum StepWord {
    /// `clock <n>`
    Clock,
    /// `say <session> <rest>`
    Say,
    /// `step <session>`
    Turn,
    /// `run <session>`
    Run,
    /// `room`, `reap` or `juggle`
    Keep(Upkeep),
}

/// The step of the line from the place `start` up to its line feed, at the place `end`.
pub fn read_step(bytes: &[u8], start: usize, end: usize) -> Result<Step, Why>
    requires order { start ≤ end }
    requires within { end ≤ length bytes.now }
    requires small { length bytes.now ≤ MAX_BYTES }
    ensures read { MatchResult result
        (λ step. step_of (slice_range bytes.now start end) ≡ Ok (step_meant bytes.now step))
        (λ why. step_of (slice_range bytes.now start end) ≡ Err why) }
    ensures within { IfOk result (IsWithin (length bytes.now)) }
{
    let (word, rest) = split_word(&bytes[start..end]);
    let Some(word) = step_word(word) else {
        return Err(Why::BadWord);
    };
    let Some(rest) = rest else {
        return step_of_one_word(word);
    };
    let (number, input) = split_word(rest);
    match (word, input) {
        (StepWord::Clock, None) => read_number(number).map(Step::Clock).ok_or(Why::BadNumber),
        (StepWord::Turn, None) => read_session(number).map(Step::Turn).ok_or(Why::BadNumber),
        (StepWord::Run, None) => read_session(number).map(Step::Run).ok_or(Why::BadNumber),
        (StepWord::Say, Some(input)) => {
            let Some(session) = read_session(number) else {
                return Err(Why::BadNumber);
            };
            Ok(Step::Say(session, (end - input.len()) as u32, end as u32))
        }
        _ => Err(Why::BadWord),
    }
}

// The step of a line that has only this word.
fn step_of_one_word(word: StepWord) -> Result<Step, Why>
    ensures read { (bytes : List ℕ) → result_map_both (step_meant bytes) (λ why. why) result ≡ step_of_word word [] [] }
    ensures within { (size : ℕ) → IfOk result (IsWithin size) }
{
    match word {
        StepWord::Keep(upkeep) => Ok(Step::Keep(upkeep)),
        _ => Err(Why::BadWord),
    }
}

fn step_word(word: &[u8]) -> Option<StepWord>
    ensures { result ≡ step_word word.now }
{
    if word == b"clock".as_slice() {
        Some(StepWord::Clock)
    } else if word == b"say".as_slice() {
        Some(StepWord::Say)
    } else if word == b"step".as_slice() {
        Some(StepWord::Turn)
    } else if word == b"run".as_slice() {
        Some(StepWord::Run)
    } else {
        upkeep_word(word)
    }
}

fn upkeep_word(word: &[u8]) -> Option<StepWord>
    ensures { result ≡ upkeep_word word.now }
{
    if word == b"room".as_slice() {
        Some(StepWord::Keep(Upkeep::Room))
    } else if word == b"reap".as_slice() {
        Some(StepWord::Keep(Upkeep::Reap))
    } else if word == b"juggle".as_slice() {
        Some(StepWord::Keep(Upkeep::Juggle))
    } else {
        None
    }
}

/// A session's number, or `None` where it can't be read or isn't from 1 to 16.
pub fn read_session(word: &[u8]) -> Option<SessionNumber>
    ensures { option_map (λ session. session.number) result ≡ session_of word.now }
{
    SessionNumber::new(read_number(word)?)
}
