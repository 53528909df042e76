ghost use Rattle.std.specs.Prelude.{◌≡◌, ℕ, ◌≤◌, [], List, length, Option, Some, None, false, Ok, Err, IsSomeAnd, OnOk, OnErr, IsTrue, is_err, is_some};
ghost use Rattle.std.specs.Option.{ForSome};
ghost use Rattle.flash_names.specs.Faults.{Counts, Rose};
ghost use Rattle.flash_device.specs.Calls.{Called, is_fault};
ghost use Rattle.flash_device.specs.Memory.{blank};
ghost use Rattle.flash_device.specs.Pages.{shape_with, HasShape, Within, range_of, Holds, Spoils};

use crate::page_memory::PageMemory;
use crate::{Device, DeviceFault, PrepareError};
use std::alloc::Global;

/// A device in memory that never fails and tells its bytes. Its `prepare` may find no memory.
#[derive(Debug, Drop)]
pub struct FaultlessDevice {
    memory: PageMemory,
}

impl FaultlessDevice {
    ghost use Rattle.flash_device.specs.FaultlessDevice.{memory_of};

    /// A device with no pages.
    pub fn new(alloc: Global) -> FaultlessDevice
        ensures { memory_of result ≡ record { shape = None; pages = [] } }
    {
        FaultlessDevice {
            memory: PageMemory::new(alloc),
        }
    }
}

impl Device for FaultlessDevice {
    ghost use Rattle.flash_device.specs.FaultlessDevice.{memory_of};

    ghost content = { λ d. Some (memory_of d).pages };

    ghost calls = { λ _. None };

    ghost prepared = { λ d. (memory_of d).shape };

    ghost faults = { λ _. 0 };

    fn prepare(&mut self, pages: u32, page_size: u32) -> Result<(), PrepareError>
        ensures ready { OnOk result ((memory_of self.new).shape ≡ Some (shape_with pages page_size)) }
        ensures shaped { OnOk result (ForSome (Some (memory_of self.new).pages)
            (HasShape (shape_with pages page_size))) }
        ensures refused { OnErr result (((memory_of self.new).shape ≡ (memory_of self.old).shape)
            × (Some (memory_of self.new).pages ≡ Some (memory_of self.old).pages)) }

        // It never fails, and where there is memory its pages are zeros then.
        ensures faultless { is_fault result ≡ false }
        ensures blank { OnOk result (memory_of self.new ≡ blank (shape_with pages page_size)) }
    {
        match self.memory.prepare(pages, page_size) {
            Ok(()) => Ok(()),
            Err(_) => Err(PrepareError::NoMemory),
        }
    }

    fn read(&mut self, page: u32, offset: u32, into: &mut [u8]) -> Result<(), DeviceFault> {
        self.memory.read(page, offset, into);
        Ok(())
    }

    fn write(&mut self, page: u32, offset: u32, bytes: &[u8]) -> Result<(), DeviceFault> {
        self.memory.write(page, offset, bytes);
        Ok(())
    }
}
