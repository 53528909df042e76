ghost use Rattle.std.specs.Prelude.{◌≡◌, ◌<◌, ◌≤◌, [], Some, Ok, length, take, IfOk, OnOk, OnErr, IsTrue, if◌then◌else◌};
ghost use Rattle.flash_names.specs.Told.{with_more};
ghost use Rattle.flash_names.specs.Faults.{Counts};
ghost use Rattle.flash_names.specs.FaultPlan.{fails_next, after_call, with_fault};

use crate::{FaultPlan, Sink, SinkFault};
use std::alloc::Global;

/// A sink in memory, which tells what it holds. It fails in the calls of its plan, and where its growth is
/// refused it takes nothing and counts a fault.
#[derive(Debug, Drop)]
pub struct MemorySink {
    bytes: Vec<u8>,
    plan: FaultPlan,
}

impl MemorySink {
    ghost use Rattle.flash_names.specs.MemorySink.{bytes_held, plan_of};

    /// An empty sink that fails in the calls of these numbers, counted from 1.
    pub fn new(alloc: Global, fails: Vec<u32>) -> MemorySink
        ensures empty { bytes_held result ≡ [] }
        ensures plan { plan_of result ≡ record { fails = fails.items; calls = 0; faults = 0 } }
    {
        MemorySink {
            bytes: Vec::new(alloc),
            plan: FaultPlan::new(fails),
        }
    }

    /// The bytes that it holds.
    pub fn bytes(&self) -> &[u8]
        ensures { result.now ≡ bytes_held self.now }
    {
        &self.bytes
    }
}

impl Sink for MemorySink {
    ghost use Rattle.flash_names.specs.MemorySink.{bytes_held, plan_of};

    ghost held = { λ s. Some (bytes_held s) };

    ghost faults = { λ s. (plan_of s).faults };

    fn write(&mut self, bytes: &[u8]) -> Result<usize, SinkFault>
        ensures bound { IfOk result (λ n. n ≤ length bytes.now) }
        ensures progress { IfOk result (λ n. 0 < length bytes.now → 0 < n) }
        ensures appended { IfOk result (λ n. Some (bytes_held self.new)
            ≡ with_more (take n bytes.now) (Some (bytes_held self.old))) }
        ensures failed { OnErr result (Some (bytes_held self.new) ≡ Some (bytes_held self.old)) }
        ensures counts { Counts (plan_of self.old).faults (plan_of self.new).faults result }

        // A call of its plan fails, and any other takes the whole piece, unless memory ran out.
        ensures planned { IsTrue (fails_next (plan_of self.old)) → OnOk result ⊥ }
        ensures whole { IfOk result (λ n. n ≡ length bytes.now) }
        ensures plan { OnOk result (plan_of self.new ≡ after_call (plan_of self.old)) }

        // A call of its plan counts one fault, and so does one for which memory ran out.
        ensures failed_plan { OnErr result (plan_of self.new
            ≡ (if fails_next (plan_of self.old) then after_call (plan_of self.old)
            else with_fault (after_call (plan_of self.old)))) }
    {
        if self.plan.next_fails() {
            return Err(SinkFault);
        }
        if self.bytes.extend_from_slice(bytes).is_err() {
            self.plan.add_fault();
            return Err(SinkFault);
        }
        Ok(bytes.len())
    }
}
