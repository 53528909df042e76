ghost use Rattle.std.specs.Prelude.{◌≡◌, ◌/◌, ◌≤◌, length, take, None, Some, Ok, Err, IsSomeAnd, OnOk, OnErr, IsTrue, is_err, if◌then◌else◌};
ghost use Rattle.flash_names.specs.Faults.{Counts, Rose};
ghost use Rattle.flash_names.specs.FaultPlan.{fails_next, after_call};
ghost use Rattle.flash_device.specs.Calls.{Called, is_fault, calls_told};
ghost use Rattle.flash_device.specs.Damage.{flipped, damaged};
ghost use Rattle.flash_device.specs.Memory.{blank};
ghost use Rattle.flash_device.specs.Pages.{shape_with, Within, range_of, pages_with, Spoils};

use crate::{Device, DeviceFault, MemoryDevice, PrepareError};

/// A device in memory of which every read gives one byte wrong: the one at an offset of a page, with its lowest bit
/// turned over. It tells its calls but no bytes.
#[derive(Debug, Drop)]
pub struct DamagedDevice {
    device: MemoryDevice,
    page: u32,
    offset: u32,
}

impl DamagedDevice {
    ghost use Rattle.flash_device.specs.DamagedDevice.{memory_of, plan_of, damage_of};
    ghost use Rattle.flash_device.specs.MemoryDevice as memory;

    /// The device with the byte at this offset of this page damaged.
    pub fn new(device: MemoryDevice, page: u32, offset: u32) -> DamagedDevice
        ensures held { memory_of result ≡ memory.memory_of device }
        ensures plan { plan_of result ≡ memory.plan_of device }
        ensures damage { damage_of result ≡ (page, offset) }
    {
        DamagedDevice {
            device,
            page,
            offset,
        }
    }
}

impl Device for DamagedDevice {
    ghost use Rattle.flash_device.specs.DamagedDevice.{memory_of, plan_of, damage_of};

    ghost content = { λ _. None };

    ghost calls = { λ d. calls_told (plan_of d) };

    ghost prepared = { λ d. (memory_of d).shape };

    ghost faults = { λ d. (plan_of d).faults };

    fn prepare(&mut self, pages: u32, page_size: u32) -> Result<(), PrepareError>
        ensures ready { OnOk result ((memory_of self.new).shape ≡ Some (shape_with pages page_size)) }
        ensures refused { OnErr result (memory_of self.new ≡ memory_of self.old) }
        ensures called { Called (is_fault result) (calls_told (plan_of self.old)) (calls_told (plan_of self.new)) }
        ensures kept { (plan_of self.old).faults ≤ (plan_of self.new).faults }
        ensures cause { IsTrue (is_fault result) → Rose (plan_of self.old).faults (plan_of self.new).faults }

        // It is a fault exactly in a call of its plan. Otherwise the pages are zeros, unless memory ran out, and the
        // damage is where it was.
        ensures planned { is_fault result ≡ fails_next (plan_of self.old) }
        ensures plan { plan_of self.new ≡ after_call (plan_of self.old) }
        ensures blank { OnOk result (memory_of self.new ≡ blank (shape_with pages page_size)) }
        ensures damage { damage_of self.new ≡ damage_of self.old }
    {
        self.device.prepare(pages, page_size)
    }

    fn read(&mut self, page: u32, offset: u32, into: &mut [u8]) -> Result<(), DeviceFault>
        requires { IsSomeAnd (memory_of self.old).shape (Within page offset (length into.old)) }
        ensures prepared { (memory_of self.new).shape ≡ (memory_of self.old).shape }
        ensures called { Called (is_err result) (calls_told (plan_of self.old)) (calls_told (plan_of self.new)) }
        ensures counts { Counts (plan_of self.old).faults (plan_of self.new).faults result }

        // It fails exactly in the calls of its plan.
        ensures exact { result ≡ (if fails_next (plan_of self.old) then Err (record {}) else Ok tt) }
        ensures plan { plan_of self.new ≡ after_call (plan_of self.old) }

        // It gives what the memory has, but for the damaged byte, and changes neither.
        ensures damaged { OnOk result (into.new
            ≡ damaged (damage_of self.old) page offset
            (range_of page offset (length into.old) (memory_of self.old).pages)) }
        ensures held { memory_of self.new ≡ memory_of self.old }
        ensures damage { damage_of self.new ≡ damage_of self.old }
    {
        self.device.read(page, offset, into)?;
        if page == self.page && offset <= self.offset {
            flip(into, (self.offset - offset) as usize);
        }
        Ok(())
    }

    fn write(&mut self, page: u32, offset: u32, bytes: &[u8]) -> Result<(), DeviceFault>
        requires { IsSomeAnd (memory_of self.old).shape (Within page offset (length bytes.now)) }
        ensures prepared { (memory_of self.new).shape ≡ (memory_of self.old).shape }
        ensures called { Called (is_err result) (calls_told (plan_of self.old)) (calls_told (plan_of self.new)) }
        ensures counts { Counts (plan_of self.old).faults (plan_of self.new).faults result }

        // It fails exactly in the calls of its plan.
        ensures exact { result ≡ (if fails_next (plan_of self.old) then Err (record {}) else Ok tt) }
        ensures plan { plan_of self.new ≡ after_call (plan_of self.old) }

        // The bytes are in the memory, or the first half of them after a fault, and the damage is where it was.
        ensures half { OnErr result ((memory_of self.new).pages
            ≡ pages_with page offset (take (length bytes.now / 2) bytes.now) (memory_of self.old).pages) }
        ensures held { OnOk result ((memory_of self.new).pages
            ≡ pages_with page offset bytes.now (memory_of self.old).pages) }
        ensures spoiled { OnErr result
            (Spoils page offset (length bytes.now) (Some (memory_of self.old).pages)
            (Some (memory_of self.new).pages)) }
        ensures damage { damage_of self.new ≡ damage_of self.old }
    {
        self.device.write(page, offset, bytes)
    }
}

// Turns the lowest bit of the byte at an index over, where there is one.
fn flip(bytes: &mut [u8], index: usize)
    ensures { bytes.new ≡ flipped index bytes.old }
{
    if index < bytes.len() {
        bytes[index] ^= 1;
    }
}
