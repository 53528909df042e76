ghost use Rattle.std.specs.Prelude.{◌≡◌, ℕ, ◌≤◌, Some, IfOk};
ghost use Rattle.flash_device.specs.Pages.{shape_with};
ghost use Rattle.flash_serve.specs.Making.{Tried, Accepted};

use flash_device::Device;
use flash_names::{Clock, Sink, Source};

/// Why a maker made nothing.
#[derive(Clone, Copy, Debug, PartialEq, Eq)]
pub enum MakeError {
    /// Memory ran out.
    NoMemory,
    /// The outside failed.
    Fault,
}

/// What makes the server's outside: its connections, its device and its clocks.
pub trait Maker {
    /// A handle on the file.
    type D: Device + Send + Drop + 'static;

    /// What comes from a client.
    type S: Source + Send + Drop + 'static;

    /// What goes to a client.
    type K: Sink + Send + Drop + 'static;

    /// A clock for one session.
    type C: Clock + Send + Drop + 'static;

    /// How often it has failed. It never falls.
    ghost faults: { Self → ℕ };

    /// How many connections it has accepted.
    ghost connections: { Self → ℕ };

    /// Listens on this address and port, 0 for one that the system chooses, and answers the port. A connection
    /// that brings no byte, or takes none, for so many seconds fails its reads or its writes; 0 is never.
    fn listen(&mut self, address: &str, port: u16, idle_timeout: u32) -> Result<u16, MakeError>
        ensures tried { Tried (faults self.old) (faults self.new) result }
        ensures connections { connections self.new ≡ connections self.old };

    /// Waits for the next connection, and answers what comes from it and what goes to it.
    fn accept(&mut self) -> Result<(Self::S, Self::K), MakeError>
        ensures tried { Tried (faults self.old) (faults self.new) result }
        ensures connections { Accepted (connections self.old) (connections self.new) result };

    /// A handle on the device of this path, prepared for so many pages of so many bytes: anew where `fresh`, and else
    /// by another handle before.
    fn device(
        &mut self,
        path: &str,
        pages: u32,
        page_size: u32,
        fresh: bool,
    ) -> Result<Self::D, MakeError>
        ensures ready { IfOk result (λ device. Self.D.prepared device ≡ Some (shape_with pages page_size)) }
        ensures tried { Tried (faults self.old) (faults self.new) result }
        ensures connections { connections self.new ≡ connections self.old };

    /// A clock.
    fn clock(&mut self) -> Self::C
        ensures faults { faults self.old ≤ faults self.new }
        ensures connections { connections self.new ≡ connections self.old };
}
