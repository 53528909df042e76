ghost use Rattle.std.specs.Prelude.{◌≡◌, ◌↔◌, true, false};
ghost use Rattle.flash_check.specs.CommandLine.{asks_check};
ghost use Rattle.flash_check.specs.Ends.{IsChecked, HasCause, writes_nothing, IsSaid};
ghost use Rattle.flash_check.specs.Outside.{outside};

use crate::check::check_bytes;
use crate::output::answer_line;
use crate::status::{CheckStatus, MAX_BYTES};
use flash_names::{Blob, Sink, SinkFault, Source};
use flash_streams::{ReadError, read_all, write_all};
use std::alloc::Global;

/// Reads a journal to its end, decides whether it is a run of the one-thread cache, and writes the answer's line. The
/// word after the program's name is `check`, with nothing after it; any other words are a usage fault, and then nothing is
/// read or written.
pub fn run_check<S: Source, K: Sink>(
    alloc: Global,
    words: &[Blob],
    source: &mut S,
    sink: &mut K,
) -> CheckStatus
    ensures usage { (result ≡ CheckStatus.Usage) ↔ (asks_check words.now ≡ false) }
    ensures untouched { result ≡ CheckStatus.Usage → (source.new ≡ source.old) × (sink.new ≡ sink.old) }
    ensures unwritten { writes_nothing result ≡ true → sink.new ≡ sink.old }
    ensures checked { IsChecked
        (outside S.left S.faults K.held K.faults source.old source.new sink.old sink.new) result }
    ensures faults { HasCause
        (outside S.left S.faults K.held K.faults source.old source.new sink.old sink.new) result }
{
    if !asks_check(words) {
        return CheckStatus::Usage;
    }
    match read_all(alloc, MAX_BYTES, source) {
        Ok(bytes) => answer_bytes(alloc, &bytes, sink),
        Err(ReadError::Fault) => CheckStatus::SourceFault,
        Err(ReadError::NoMemory) => CheckStatus::NoMemory,
    }
}

// Whether the words are those of a check.
fn asks_check(words: &[Blob]) -> bool
    ensures { result ≡ asks_check words.now }
{
    match words {
        [word] => word.bytes() == b"check".as_slice(),
        _ => false,
    }
}

// Writes the answer on these bytes.
fn answer_bytes<K: Sink>(alloc: Global, bytes: &[u8], sink: &mut K) -> CheckStatus
    ensures unwritten { writes_nothing result ≡ true → sink.new ≡ sink.old }
    ensures said { IsSaid bytes.now (K.held sink.old) (K.held sink.new) (K.faults sink.old) (K.faults sink.new) result }
{
    let Ok(answer) = check_bytes(alloc, bytes) else {
        return CheckStatus::NoMemory;
    };
    let Ok(line) = answer_line(alloc, answer) else {
        return CheckStatus::NoMemory;
    };
    match write_all(sink, &line) {
        Ok(()) => answer,
        Err(SinkFault) => CheckStatus::SinkFault,
    }
}
