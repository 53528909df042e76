ghost use Rattle.std.specs.Result.{result_map_both};
ghost use Rattle.std.specs.Prelude.{◌≡◌, ◌+◌, ◌<◌, ◌≤◌, length, map, drop, IfOk, IfErr};
ghost use Rattle.flash_script.specs.declared.script.NotRead.TheVariants.{NoMemory};
ghost use Rattle.flash_script.specs.Steps.{AreSeated};
ghost use Rattle.flash_script.specs.CodeScripts.{step_meant, step_at_meant, script_meant, IsWithin, AreWithin, IsFault};
ghost use Rattle.flash_script.specs.Scripts.{why_of, step_at, fronts, fault_from, steps_of, script_of, fault_of};

use crate::fault::{ScriptFault, Why};
use crate::feed::read_feed;
use crate::step::Step;
use crate::step_line::read_step;
use flash_entry::{HeadFault, read_head};
use flash_names::{Geometry, cut_at_byte, split_word};
use std::alloc::{AllocFailed, Global};

/// The most bytes of a script.
pub const MAX_BYTES: usize = 16_777_216;

/// The most steps of a script.
pub const MAX_STEPS: usize = 1_048_576;

/// A script that was read.
#[derive(Drop)]
pub struct Script {
    /// The geometry of line 1.
    pub geometry: Geometry,
    /// The place after the line feed of line 1, in bytes.
    pub steps_offset: usize,
    /// The steps behind it, in order.
    pub steps: Vec<Step>,
}

/// Why a script wasn't read.
#[derive(Clone, Copy, Debug, PartialEq, Eq)]
pub enum NotRead {
    /// It has a bad line: this is the first.
    Fault(ScriptFault),
    /// Memory for its steps ran out.
    NoMemory,
}

impl From<AllocFailed<Step>> for NotRead {
    ghost from_gives = { λ _ fault. fault ≡ NoMemory };

    fn from(_: AllocFailed<Step>) -> NotRead {
        NotRead::NoMemory
    }
}

/// Reads a script, or finds its first bad line.
pub fn read_script(alloc: Global, bytes: &[u8]) -> Result<Script, NotRead>
    ensures read { IfOk result (λ script. script_of bytes.now ≡ Some (script_meant bytes.now script)) }
    ensures first_line { IfOk result (λ script. script.steps_offset ≤ length bytes.now) }
    ensures within { IfOk result (λ script. AreWithin (length bytes.now) script.steps.items) }
    ensures seated { IfOk result (λ script. AreSeated (script_meant bytes.now script).steps) }
    ensures bad { IfErr result (IsFault (fault_of bytes.now)) }
{
    if bytes.len() > MAX_BYTES {
        return Err(bad(0, Why::TooLong));
    }
    let Some((first_line, _)) = cut_at_byte(b'\n', bytes) else {
        return Err(bad(1, Why::Short));
    };
    let geometry = match read_head(first_line) {
        Ok(geometry) => geometry,
        Err(fault) => return Err(bad(1, why_of(fault))),
    };
    let steps_offset = first_line.len() + 1;
    let steps = read_steps(alloc, bytes, steps_offset)?;
    Ok(Script {
        geometry,
        steps_offset,
        steps,
    })
}

fn bad(line: u32, why: Why) -> NotRead
    ensures { result ≡ NotRead.Fault (record { line = line; why = why }) }
{
    NotRead::Fault(ScriptFault { line, why })
}

fn why_of(fault: HeadFault) -> Why
    ensures { result ≡ why_of fault }
{
    match fault {
        HeadFault::BadWord => Why::BadWord,
        HeadFault::BadNumber => Why::BadNumber,
        HeadFault::Geometry(rule) => Why::Geometry(rule),
    }
}

// The steps behind the first line, which ends at this place.
fn read_steps(alloc: Global, bytes: &[u8], steps_offset: usize) -> Result<Vec<Step>, NotRead>
    requires within { steps_offset ≤ length bytes.now }
    requires small { length bytes.now ≤ MAX_BYTES }
    ensures good { IfOk result (λ _. fault_from 2 (drop steps_offset bytes.now) ≡ None) }
    ensures read { IfOk result (λ steps. steps_of (fronts 0 (drop steps_offset bytes.now))
        ≡ Some (map (step_meant bytes.now) steps.items)) }
    ensures within { IfOk result (λ steps. AreWithin (length bytes.now) steps.items) }
    ensures bad { IfErr result (IsFault (fault_from 2 (drop steps_offset bytes.now))) }
{
    let mut steps = Vec::new(alloc);
    let mut start = steps_offset;
    'steps: while start < bytes.len() {
        if steps.len() >= MAX_STEPS {
            return Err(bad(0, Why::TooLong));
        }
        let line = steps.len() as u32 + 2;
        match read_step_at(bytes, start) {
            Ok((step, size)) => {
                steps.push(step)?;
                start += size;
            }
            Err(why) => return Err(bad(line, why)),
        }
    }
    Ok(steps)
}

// The step that begins at this place, and the number of its bytes, with its line feeds.
fn read_step_at(bytes: &[u8], start: usize) -> Result<(Step, usize), Why>
    requires within { start ≤ length bytes.now }
    requires small { length bytes.now ≤ MAX_BYTES }
    ensures read { result_map_both (step_at_meant bytes.now) (λ why. why) result ≡ step_at (drop start bytes.now) }
    ensures within { IfOk result (λ read. IsWithin (length bytes.now) read.0) }
    ensures size { IfOk result (λ read. (0 < read.1) × (start + read.1 ≤ length bytes.now)) }
{
    let Some((line, _)) = cut_at_byte(b'\n', &bytes[start..]) else {
        return Err(Why::Short);
    };
    let size = line.len() + 1;
    let (word, rest) = split_word(line);
    if word == b"feed".as_slice() {
        return read_feed(bytes, rest, start, size);
    }
    let step = read_step(bytes, start, start + line.len())?;
    Ok((step, size))
}
