ghost use Rattle.std.specs.Prelude.{◌≡◌, ℕ, ◌/◌, ◌≤◌, [], List, length, take, Option, Some, None, Ok, Err, IsSomeAnd, OnOk, OnErr, IsTrue, is_err, is_some, if◌then◌else◌};
ghost use Rattle.std.specs.Option.{ForSome};
ghost use Rattle.flash_names.specs.Faults.{Counts, Rose};
ghost use Rattle.flash_names.specs.FaultPlan.{fails_next, after_call};
ghost use Rattle.flash_device.specs.Calls.{Called, is_fault, calls_told};
ghost use Rattle.flash_device.specs.Memory.{blank};
ghost use Rattle.flash_device.specs.Pages.{shape_with, HasShape, Within, range_of, pages_with, Holds, Spoils};

use crate::page_memory::PageMemory;
use crate::{Device, DeviceFault, PrepareError};
use flash_names::FaultPlan;
use std::alloc::Global;

/// A device in memory, which tells its bytes, and its calls while these are fewer than 2^64 - 1. It fails in
/// the calls of its plan, counted from 1, of which `prepare` is the first. A write that fails leaves the first
/// half of its bytes, rounded down.
#[derive(Debug, Drop)]
pub struct MemoryDevice {
    memory: PageMemory,
    plan: FaultPlan,
}

impl MemoryDevice {
    ghost use Rattle.flash_device.specs.MemoryDevice.{memory_of, plan_of};

    /// A device with no pages that fails in the calls of these numbers.
    pub fn new(alloc: Global, fails: Vec<u32>) -> MemoryDevice
        ensures unprepared { memory_of result ≡ record { shape = None; pages = [] } }
        ensures plan { plan_of result ≡ record { fails = fails.items; calls = 0; faults = 0 } }
    {
        MemoryDevice {
            memory: PageMemory::new(alloc),
            plan: FaultPlan::new(fails),
        }
    }
}

impl Device for MemoryDevice {
    ghost use Rattle.flash_device.specs.MemoryDevice.{memory_of, plan_of};

    ghost content = { λ d. Some (memory_of d).pages };

    ghost calls = { λ d. calls_told (plan_of d) };

    ghost prepared = { λ d. (memory_of d).shape };

    ghost faults = { λ d. (plan_of d).faults };

    fn prepare(&mut self, pages: u32, page_size: u32) -> Result<(), PrepareError>
        ensures ready { OnOk result ((memory_of self.new).shape ≡ Some (shape_with pages page_size)) }
        ensures shaped { OnOk result (ForSome (Some (memory_of self.new).pages)
            (HasShape (shape_with pages page_size))) }
        ensures refused { OnErr result (((memory_of self.new).shape ≡ (memory_of self.old).shape)
            × (Some (memory_of self.new).pages ≡ Some (memory_of self.old).pages)) }
        ensures tells { is_some (Some (memory_of self.new).pages) ≡ is_some (Some (memory_of self.old).pages) }
        ensures called { Called (is_fault result) (calls_told (plan_of self.old)) (calls_told (plan_of self.new)) }
        ensures kept { (plan_of self.old).faults ≤ (plan_of self.new).faults }
        ensures cause { IsTrue (is_fault result) → Rose (plan_of self.old).faults (plan_of self.new).faults }

        // It is a fault exactly in a call of its plan. Otherwise the pages are zeros, unless memory ran out.
        ensures planned { is_fault result ≡ fails_next (plan_of self.old) }
        ensures blank { OnOk result (memory_of self.new ≡ blank (shape_with pages page_size)) }
        ensures plan { plan_of self.new ≡ after_call (plan_of self.old) }
    {
        if self.plan.next_fails() {
            return Err(PrepareError::Fault);
        }
        match self.memory.prepare(pages, page_size) {
            Ok(()) => Ok(()),
            Err(_) => Err(PrepareError::NoMemory),
        }
    }

    fn read(&mut self, page: u32, offset: u32, into: &mut [u8]) -> Result<(), DeviceFault>
        requires { IsSomeAnd (memory_of self.old).shape (Within page offset (length into.old)) }
        ensures given { OnOk result (ForSome (Some (memory_of self.old).pages) (λ pages. into.new
            ≡ range_of page offset (length into.old) pages)) }
        ensures same { Some (memory_of self.new).pages ≡ Some (memory_of self.old).pages }
        ensures prepared { (memory_of self.new).shape ≡ (memory_of self.old).shape }
        ensures called { Called (is_err result) (calls_told (plan_of self.old)) (calls_told (plan_of self.new)) }
        ensures counts { Counts (plan_of self.old).faults (plan_of self.new).faults result }

        // It fails exactly in the calls of its plan.
        ensures exact { result ≡ (if fails_next (plan_of self.old) then Err (record {}) else Ok tt) }
        ensures plan { plan_of self.new ≡ after_call (plan_of self.old) }
    {
        if self.plan.next_fails() {
            return Err(DeviceFault);
        }
        self.memory.read(page, offset, into);
        Ok(())
    }

    fn write(&mut self, page: u32, offset: u32, bytes: &[u8]) -> Result<(), DeviceFault>
        requires { IsSomeAnd (memory_of self.old).shape (Within page offset (length bytes.now)) }
        ensures held { OnOk result (Holds page offset bytes.now (Some (memory_of self.old).pages)
            (Some (memory_of self.new).pages)) }
        ensures spoiled { OnErr result
            (Spoils page offset (length bytes.now) (Some (memory_of self.old).pages)
            (Some (memory_of self.new).pages)) }
        ensures prepared { (memory_of self.new).shape ≡ (memory_of self.old).shape }
        ensures called { Called (is_err result) (calls_told (plan_of self.old)) (calls_told (plan_of self.new)) }
        ensures counts { Counts (plan_of self.old).faults (plan_of self.new).faults result }

        // It fails exactly in the calls of its plan.
        ensures exact { result ≡ (if fails_next (plan_of self.old) then Err (record {}) else Ok tt) }
        ensures plan { plan_of self.new ≡ after_call (plan_of self.old) }

        // A write that fails leaves the first half of its bytes, and the rest as it was.
        ensures half { OnErr result ((memory_of self.new).pages
            ≡ pages_with page offset (take (length bytes.now / 2) bytes.now) (memory_of self.old).pages) }
    {
        if self.plan.next_fails() {
            self.memory.write_half(page, offset, bytes);
            return Err(DeviceFault);
        }
        self.memory.write(page, offset, bytes);
        Ok(())
    }
}
