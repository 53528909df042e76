//! The device that pages lie on: what it promises, two devices in memory, and one over a file.
//!
//! A `Device` is prepared for a number of pages of one size, and then reads and writes ranges of them. It may tell the
//! bytes of its pages, and the calls that it had with those that fail. Its count of faults never falls, and a fault comes
//! only where the count rose.
//!
//! - `MemoryDevice` tells both, and fails in the calls of a list. `FaultlessDevice` tells its bytes and never fails.
//! - `DamagedDevice` gives one byte changed at every read. `GatedDevice` holds its reads until a `Gate` is opened. Both
//!   are for tests.
//! - `FileDevice` is the edge over one file, which many threads read and write at once. It tells nothing.
//!
//! It is proved of each that it meets the trait. `stands_there` and `rest_stays` are laws of a range that was written.
#![tactic(auto)]

mod damaged_device;
mod device;
mod errors;
mod faultless_device;
mod file_device;
mod gate;
mod gated_device;
mod laws;
mod memory_device;
mod page_memory;
mod shape;

pub use damaged_device::DamagedDevice;
pub use device::Device;
pub use errors::{DeviceFault, PrepareError};
pub use faultless_device::FaultlessDevice;
pub use file_device::FileDevice;
pub use gate::Gate;
pub use gated_device::GatedDevice;
pub use laws::{rest_stays, stands_there};
pub use memory_device::MemoryDevice;
pub use shape::Shape;

#[cfg(test)]
mod tests;
