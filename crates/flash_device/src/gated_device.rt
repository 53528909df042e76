ghost use Rattle.std.specs.Prelude.{◌≡◌, ◌≤◌, None};
ghost use Rattle.flash_names.specs.Faults.{next_count};

use crate::{Device, DeviceFault, Gate, PrepareError};
use std::alloc::Global;
use std::sync::Arc;
use std::thread::yield_now;

/// A device whose reads wait until a gate is opened, for a stated number of turns at most, and then fail. In each
/// turn it lets another thread run. It tells the bytes that the other device tells, and counts each fault once.
#[derive(Drop)]
pub struct GatedDevice<D> {
    device: D,
    gate: Arc<Gate, Global>,
    turns: u64,
    faults: u64,
}

impl<D> GatedDevice<D> {
    ghost use Rattle.flash_device.specs.GatedDevice.{device_of, turns_of, faults_of};

    /// The device behind the gate, whose reads wait for so many turns at most.
    pub fn new(device: D, gate: Arc<Gate, Global>, turns: u64) -> GatedDevice<D>
        ensures device { device_of result ≡ device }
        ensures turns { turns_of result ≡ turns }
        ensures faults { faults_of result ≡ 0 }
    {
        GatedDevice {
            device,
            gate,
            turns,
            faults: 0,
        }
    }

    // Whether the gate is open, at the latest after the last turn.
    fn waits(&self) -> bool {
        'turns: for _ in 0..self.turns {
            if self.gate.is_open() {
                return true;
            }
            yield_now();
        }
        self.gate.is_open()
    }

    // Counts a fault.
    fn count(&mut self)
        ensures device { device_of self.new ≡ device_of self.old }
        ensures faults { faults_of self.new ≡ next_count (faults_of self.old) }
        ensures kept { faults_of self.old ≤ faults_of self.new }
        ensures turns { turns_of self.new ≡ turns_of self.old }
    {
        self.faults = self.faults.saturating_add(1);
    }
}

impl<D: Device> Device for GatedDevice<D> {
    ghost use Rattle.flash_device.specs.GatedDevice.{device_of, faults_of};

    ghost content = { λ d. D.content (device_of d) };

    ghost calls = { λ _. None };

    ghost prepared = { λ d. D.prepared (device_of d) };

    ghost faults = { λ d. faults_of d };

    fn prepare(&mut self, pages: u32, page_size: u32) -> Result<(), PrepareError> {
        match self.device.prepare(pages, page_size) {
            Ok(()) => Ok(()),
            Err(PrepareError::NoMemory) => Err(PrepareError::NoMemory),
            Err(PrepareError::Fault) => {
                self.count();
                Err(PrepareError::Fault)
            }
        }
    }

    fn read(&mut self, page: u32, offset: u32, into: &mut [u8]) -> Result<(), DeviceFault> {
        if !self.waits() {
            self.count();
            return Err(DeviceFault);
        }
        match self.device.read(page, offset, into) {
            Ok(()) => Ok(()),
            Err(DeviceFault) => {
                self.count();
                Err(DeviceFault)
            }
        }
    }

    fn write(&mut self, page: u32, offset: u32, bytes: &[u8]) -> Result<(), DeviceFault> {
        match self.device.write(page, offset, bytes) {
            Ok(()) => Ok(()),
            Err(DeviceFault) => {
                self.count();
                Err(DeviceFault)
            }
        }
    }
}
