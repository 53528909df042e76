ghost use Rattle.std.specs.Prelude.{◌≡◌, ◌<◌, ◌≤◌, Some, Ok, Err, length, take, min, ◌-◌, IfOk, OnErr, if◌then◌else◌};
ghost use Rattle.flash_names.specs.Told.{with_front};
ghost use Rattle.flash_names.specs.Faults.{Counts};
ghost use Rattle.flash_names.specs.Source.{IsAtEnd};
ghost use Rattle.flash_names.specs.FaultPlan.{fails_next, after_call};

use crate::{FaultPlan, Source, SourceFault};

/// A source over bytes in memory, which tells those that are left. It gives at most a stated number of
/// bytes in a call, and fails in the calls of its plan.
#[derive(Debug, Drop)]
pub struct MemorySource {
    bytes: Vec<u8>,
    at: usize,
    most: usize,
    plan: FaultPlan,
    ghost within: { at ≤ length bytes.items },
    ghost gives_some: { 0 < most },
}

impl MemorySource {
    ghost use Rattle.flash_names.specs.MemorySource.{bytes_left, plan_of, read_limit_of};

    /// A source of these bytes, as many in a call as fit, that fails in the calls of these numbers, counted
    /// from 1.
    pub fn new(bytes: Vec<u8>, fails: Vec<u32>) -> MemorySource
        ensures bytes { bytes_left result ≡ bytes.items }
        ensures plan { plan_of result ≡ record { fails = fails.items; calls = 0; faults = 0 } }
        ensures most { read_limit_of result ≡ usize.MAX }
    {
        MemorySource::in_pieces(bytes, usize::MAX, fails)
    }

    /// The same with at most `most` bytes in a call. `most` has to be above 0: a call that gave no byte would
    /// be the end.
    pub fn in_pieces(bytes: Vec<u8>, most: usize, fails: Vec<u32>) -> MemorySource
        requires { 0 < most }
        ensures bytes { bytes_left result ≡ bytes.items }
        ensures plan { plan_of result ≡ record { fails = fails.items; calls = 0; faults = 0 } }
        ensures most { read_limit_of result ≡ most }
    {
        MemorySource {
            bytes,
            at: 0,
            most,
            plan: FaultPlan::new(fails),
        }
    }
}

impl Source for MemorySource {
    ghost use Rattle.flash_names.specs.MemorySource.{bytes_left, plan_of, read_limit_of};

    ghost left = { λ s. Some (bytes_left s) };

    ghost faults = { λ s. (plan_of s).faults };

    fn read(&mut self, into: &mut [u8]) -> Result<usize, SourceFault>
        ensures bound { IfOk result (λ n. n ≤ length into.old) }
        ensures taken { IfOk result (λ n. Some (bytes_left self.old)
            ≡ with_front (take n into.new) (Some (bytes_left self.new))) }
        ensures end { IfOk result (λ n. n ≡ 0 → 0 < length into.old → IsAtEnd (Some (bytes_left self.old))) }
        ensures failed { OnErr result (Some (bytes_left self.new) ≡ Some (bytes_left self.old)) }
        ensures counts { Counts (plan_of self.old).faults (plan_of self.new).faults result }

        // It fails exactly in the calls of its plan, and else gives as many bytes as it may.
        ensures exact { result ≡ (if fails_next (plan_of self.old) then Err (record {})
            else Ok (min (min (length into.old) (length (bytes_left self.old))) (read_limit_of self.old))) }
        ensures plan { plan_of self.new ≡ after_call (plan_of self.old) }
        ensures most { read_limit_of self.new ≡ read_limit_of self.old }
    {
        if self.plan.next_fails() {
            return Err(SourceFault);
        }
        let rest = &self.bytes[self.at..];
        let n = into.len().min(rest.len()).min(self.most);
        into[..n].copy_from_slice(&rest[..n]);
        self.at += n;
        Ok(n)
    }
}
