use std::error::Error;
use std::fmt;

/// A read or a write that failed.
#[derive(Clone, Copy, Debug, PartialEq, Eq)]
pub struct DeviceFault;

/// Why a device isn't prepared.
#[derive(Clone, Copy, Debug, PartialEq, Eq)]
pub enum PrepareError {
    /// Memory ran out.
    NoMemory,
    /// The device failed.
    Fault,
}

impl fmt::Display for DeviceFault {
    fn fmt<W: fmt::Write>(&self, f: &mut fmt::Formatter<W>) -> fmt::Result {
        f.write_str("the device failed to read or to write")
    }
}

impl Error for DeviceFault {}

impl fmt::Display for PrepareError {
    fn fmt<W: fmt::Write>(&self, f: &mut fmt::Formatter<W>) -> fmt::Result {
        f.write_str(match self {
            PrepareError::NoMemory => "out of memory",
            PrepareError::Fault => "the device can't be prepared",
        })
    }
}

impl Error for PrepareError {}
