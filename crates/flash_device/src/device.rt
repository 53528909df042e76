ghost use Rattle.std.specs.Prelude.{◌≡◌, ℕ, ◌≤◌, List, length, Option, Some, IsSomeAnd, OnOk, OnErr, IsTrue, is_err, is_some};
ghost use Rattle.std.specs.Option.{ForSome};
ghost use Rattle.flash_names.specs.Faults.{Counts, Rose};
ghost use Rattle.flash_device.specs.declared.shape.Shape.{Shape};
ghost use Rattle.flash_device.specs.Calls.{Calls, Called, is_fault};
ghost use Rattle.flash_device.specs.Pages.{shape_with, HasShape, Within, range_of, Holds, Spoils};

use crate::{DeviceFault, PrepareError};

/// What pages lie on, as a file or memory.
pub trait Device {
    /// The bytes of each page, where the device tells them.
    ghost content: { Self → Option (List (List ℕ)) };

    /// How many calls it has had and which of them fail, where the device tells that.
    ghost calls: { Self → Option Calls };

    /// What it is prepared for, if it is.
    ghost prepared: { Self → Option Shape };

    /// How often it has failed. It never falls.
    ghost faults: { Self → ℕ };

    /// Makes the device ready for so many pages of so many bytes each. What bytes they then have isn't said. After an
    /// error it is as ready as before, and has the bytes that it had. A device that tells its calls counts this as one
    /// call, which failed only where the answer is `Fault`; one that tells its bytes tells them afterwards too.
    fn prepare(&mut self, pages: u32, page_size: u32) -> Result<(), PrepareError>
        ensures ready { OnOk result (prepared self.new ≡ Some (shape_with pages page_size)) }
        ensures shaped { OnOk result (ForSome (content self.new) (HasShape (shape_with pages page_size))) }
        ensures refused { OnErr result ((prepared self.new ≡ prepared self.old)
            × (content self.new ≡ content self.old)) }

        // It doesn't begin or cease to tell its bytes.
        ensures tells { is_some (content self.new) ≡ is_some (content self.old) }
        ensures called { Called (is_fault result) (calls self.old) (calls self.new) }
        ensures kept { faults self.old ≤ faults self.new }
        ensures cause { IsTrue (is_fault result) → Rose (faults self.old) (faults self.new) };

    /// Reads the bytes of a page from an offset on. Pages are counted from 0, offsets in bytes. The device has to
    /// be prepared, and the range to lie in the page. After a fault `into` may hold anything.
    fn read(&mut self, page: u32, offset: u32, into: &mut [u8]) -> Result<(), DeviceFault>
        requires { IsSomeAnd (prepared self.old) (Within page offset (length into.old)) }
        ensures given { OnOk result (ForSome (content self.old) (λ pages. into.new
            ≡ range_of page offset (length into.old) pages)) }
        ensures same { content self.new ≡ content self.old }
        ensures prepared { prepared self.new ≡ prepared self.old }
        ensures called { Called (is_err result) (calls self.old) (calls self.new) }
        ensures counts { Counts (faults self.old) (faults self.new) result };

    /// Writes these bytes to a page from an offset on. The device has to be prepared, and the range to lie in the
    /// page. A write that fails may leave any bytes in its range.
    fn write(&mut self, page: u32, offset: u32, bytes: &[u8]) -> Result<(), DeviceFault>
        requires { IsSomeAnd (prepared self.old) (Within page offset (length bytes.now)) }
        ensures held { OnOk result (Holds page offset bytes.now (content self.old) (content self.new)) }
        ensures spoiled { OnErr result (Spoils page offset (length bytes.now) (content self.old) (content self.new)) }
        ensures prepared { prepared self.new ≡ prepared self.old }
        ensures called { Called (is_err result) (calls self.old) (calls self.new) }
        ensures counts { Counts (faults self.old) (faults self.new) result };
}
