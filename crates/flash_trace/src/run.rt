ghost use Rattle.std.specs.Prelude.{◌≡◌, ◌↔◌, ◌≤◌, true, Some, None, length, map, IfOk, OnOk, IsTrue, is_some};
ghost use Rattle.flash_trace.specs.CommandLine.{journal_wanted};
ghost use Rattle.flash_trace.specs.Ends.{EndsOf, IsAsked, IsTraced, writes_nothing};
ghost use Rattle.flash_trace.specs.Outside.{source_change, sink_change, device_change};
ghost use Rattle.flash_trace.specs.Output.{output};
ghost use Rattle.flash_play.specs.Playing as playing;
ghost use Rattle.flash_script.specs.CodeScripts.{AreWithin, script_meant, step_meant};
ghost use Rattle.flash_script.specs.Scripts.{fault_of, script_of};
ghost use Rattle.flash_trace.specs.Seats.{IsPlay, TraceGoesOn};

use crate::fault::Status;
use crate::laws::every_trace_is_right;
use crate::output::{fault_output, play_output};
use crate::play::Play;
use flash_core::Core;
use flash_device::{Device, PrepareError};
use flash_entry::Kept;
use flash_names::{Blob, Sink, SinkFault, Source};
use flash_play::steps_leave_numbers_new;
use flash_script::{MAX_BYTES, NotRead, Script, Step, read_script};
use flash_streams::{ReadError, read_all, write_all};
use std::alloc::{AllocError, Global};

/// Reads a script, runs it over a store, and writes what it printed and answered. The words after the program's
/// name are `trace` or `trace --journal`, which writes the journal too; any other is a usage fault, and then
/// nothing is read or written. The device is prepared, once, where the script was read and has no bad line.
pub fn run_trace<S: Source, K: Sink, D: Device>(
    alloc: Global,
    words: &[Blob],
    source: &mut S,
    sink: &mut K,
    device: &mut D,
) -> Status
    ensures usage { (result ≡ Status.Usage) ↔ (journal_wanted words.now ≡ None) }
    ensures untouched { result ≡ Status.Usage
        → (source.new ≡ source.old) × (sink.new ≡ sink.old) × (device.new ≡ device.old) }
    ensures unwritten { writes_nothing result ≡ true → sink.new ≡ sink.old }
    ensures traced { IsTraced (journal_wanted words.now) (device.new ≡ device.old)
        (source_change S.left S.faults source.old source.new)
        (sink_change K.held K.faults sink.old sink.new)
        (device_change D.prepared D.calls D.faults device.old device.new) result }
{
    // The law has no body: the call brings what it says of every script into this function's proof.
    every_trace_is_right();
    let Some(with_journal) = read_trace_words(words) else {
        return Status::Usage;
    };
    match read_all(alloc, MAX_BYTES, source) {
        Ok(bytes) => run_bytes(alloc, with_journal, &bytes, sink, device),
        Err(ReadError::Fault) => Status::SourceFault,
        Err(ReadError::NoMemory) => Status::NoMemory,
    }
}

// Whether the journal is wanted, where the words are those of a trace.
fn read_trace_words(words: &[Blob]) -> Option<bool>
    ensures { result ≡ journal_wanted words.now }
{
    match words {
        [trace] if trace.bytes() == b"trace".as_slice() => Some(false),
        [trace, journal]
            if trace.bytes() == b"trace".as_slice() && journal.bytes() == b"--journal".as_slice() =>
            { Some(true) }
        _ => None,
    }
}

// Runs the script of these bytes, and writes its output.
fn run_bytes<K: Sink, D: Device>(
    alloc: Global,
    with_journal: bool,
    bytes: &[u8],
    sink: &mut K,
    device: &mut D,
) -> Status
    ensures unwritten { writes_nothing result ≡ true → sink.new ≡ sink.old }
    ensures asked { IsAsked (device.new ≡ device.old) (fault_of bytes.now ≡ None)
        (device_change D.prepared D.calls D.faults device.old device.new) result }
    ensures ends { EndsOf bytes.now with_journal (sink_change K.held K.faults sink.old sink.new)
        (device_change D.prepared D.calls D.faults device.old device.new) result }
{
    match read_script(alloc, bytes) {
        Ok(script) => run_script(alloc, with_journal, bytes, &script, sink, device),
        Err(NotRead::NoMemory) => Status::NoMemory,
        Err(NotRead::Fault(fault)) => {
            let Ok(out) = fault_output(alloc, fault) else {
                return Status::NoMemory;
            };
            match write_all(sink, &out) {
                Ok(()) => Status::Script(fault),
                Err(SinkFault) => Status::SinkFault,
            }
        }
    }
}

// Prepares the device, runs a script without a bad line, and writes its output.
fn run_script<K: Sink, D: Device>(
    alloc: Global,
    with_journal: bool,
    bytes: &[u8],
    script: &Script,
    sink: &mut K,
    device: &mut D,
) -> Status
    requires reading { script_of bytes.now ≡ Some (script_meant bytes.now script.now) }
    requires first_line { script.now.steps_offset ≤ length bytes.now }
    requires within { AreWithin (length bytes.now) script.now.steps.items }
    ensures unwritten { writes_nothing result ≡ true → sink.new ≡ sink.old }
    ensures asked { IsAsked (device.new ≡ device.old) (fault_of bytes.now ≡ None)
        (device_change D.prepared D.calls D.faults device.old device.new) result }
    ensures ends { EndsOf bytes.now with_journal (sink_change K.held K.faults sink.old sink.new)
        (device_change D.prepared D.calls D.faults device.old device.new) result }
{
    match device.prepare(script.geometry.pages, script.geometry.page_size) {
        Ok(()) => {}
        Err(PrepareError::Fault) => return Status::PrepareFault,
        Err(PrepareError::NoMemory) => return Status::NoMemory,
    }
    let Ok(out) = play_script(alloc, with_journal, bytes, script) else {
        return Status::NoMemory;
    };
    match write_all(sink, &out) {
        Ok(()) => Status::Done,
        Err(SinkFault) => Status::SinkFault,
    }
}

// The output of a script that was read.
fn play_script(
    alloc: Global,
    with_journal: bool,
    bytes: &[u8],
    script: &Script,
) -> Result<Vec<u8>, AllocError>
    requires first_line { script.now.steps_offset ≤ length bytes.now }
    requires within { AreWithin (length bytes.now) script.now.steps.items }
    ensures { IfOk result (λ out. out.items ≡ output (script_meant bytes.now script.now) with_journal) }
{
    // The geometry was checked as the first_line was read, so only memory can run out.
    let Ok(mut core) = Core::open(alloc, script.geometry, Kept::new(alloc)) else {
        return Err(AllocError);
    };
    let mut play = Play::new(alloc)?;
    play_steps(alloc, &mut core, &mut play, bytes, &script.steps)?;
    play_output(
        alloc,
        &play,
        with_journal,
        &bytes[..script.steps_offset],
        core.journal().entries(),
        script.steps.len(),
    )
}

// Does the steps of a script, from its second line on.
fn play_steps(
    alloc: Global,
    core: &mut Core<Kept>,
    play: &mut Play,
    bytes: &[u8],
    steps: &[Step],
) -> Result<(), AllocError>
    requires going { TraceGoesOn core.old play.old }
    requires within { AreWithin (length bytes.now) steps.now }
    ensures done { OnOk result ((p : playing.Play) → IsPlay p core.old play.old
        → IsPlay (playing.play_from core.old.geometry p 2 (map (step_meant bytes.now) steps.now)) core.new play.new) }
{
    steps_leave_numbers_new();
    let mut line = 1u64;
    'steps: for step in steps {
        line += 1;
        play.step(alloc, core, bytes, *step, line)?;
    }
    Ok(())
}
