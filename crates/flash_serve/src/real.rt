// The outside over TCP, a file and the system's clock.
ghost use Rattle.std.specs.Prelude.{◌≡◌, ℕ, ◌≤◌, None, Some, IfOk};
ghost use Rattle.flash_device.specs.Pages.{shape_with};
ghost use Rattle.flash_names.specs.Clock.{Reads};
ghost use Rattle.flash_names.specs.Faults.{Rose, next_count};
ghost use Rattle.flash_serve.specs.Making.{Tried, Accepted};

use crate::maker::{MakeError, Maker};
use flash_device::{Device, FileDevice, PrepareError};
use flash_names::{Clock, ReaderSource, WriterSink};
use std::fs::{File, OpenFile};
use std::io;
use std::io::ErrorKind;
use std::net::{Net, TcpListener, TcpStream};
use std::rt::{Clock as SystemClock, Files};
use std::thread::sleep;
use std::time::{Duration, SystemTime, UNIX_EPOCH};

// How often an accept is tried.
const TRIES: u32 = 1_000_000;

// How long it pauses after a failure.
const PAUSE_MILLIS: u64 = 10;

/// The system's clock in Unix seconds. Where it can't be read it gives its last reading, and counts a fault.
#[derive(Clone, Copy)]
pub struct WallClock<R> {
    rt: R,
    last: u64,
    faults: u64,
}

impl<R: SystemClock> WallClock<R> {
    /// The clock of this runtime.
    pub fn new(rt: R) -> WallClock<R> {
        WallClock {
            rt,
            last: 0,
            faults: 0,
        }
    }

    // Seconds since 1970, where the clock can be read.
    fn reading(&self) -> Option<u64> {
        let Ok(now) = SystemTime::now(&self.rt) else {
            return None;
        };
        match now.duration_since(UNIX_EPOCH) {
            Ok(since) => Some(since.as_secs()),
            Err(_) => None,
        }
    }
}

impl<R: SystemClock> Clock for WallClock<R> {
    ghost given = { λ _. None };

    ghost faults = { λ clock. clock.faults };

    fn now(&mut self) -> u64 {
        match self.reading() {
            Some(reading) => self.last = reading,
            None => self.faults = self.faults.saturating_add(1),
        }
        self.last
    }
}

/// What failed last.
#[derive(Clone, Copy, Debug, PartialEq, Eq)]
pub enum Trouble {
    /// The file couldn't be opened, made or prepared.
    File,
    /// The address and port couldn't be listened on.
    Listen,
    /// A connection couldn't be accepted.
    Accept,
}

/// Makes connections over TCP, devices over files and clocks of the system.
#[derive(Drop)]
pub struct NetMaker<R: Copy> {
    rt: R,
    listener: Option<TcpListener>,
    idle_timeout: Option<Duration>,
    trouble: Option<Trouble>,
    faults: u64,
    connections: u64,
}

impl<R: Copy> NetMaker<R> {
    /// A maker that listens nowhere yet.
    pub fn new(rt: R) -> NetMaker<R> {
        NetMaker {
            rt,
            listener: None,
            idle_timeout: None,
            trouble: None,
            faults: 0,
            connections: 0,
        }
    }

    /// What failed last, if anything has.
    pub fn trouble(&self) -> Option<Trouble> {
        self.trouble
    }

    // Counts a fault.
    fn count(&mut self, trouble: Trouble) -> MakeError
        ensures error { result ≡ MakeError.Fault }
        ensures kept { self.old.faults ≤ self.new.faults }
        ensures rose { Rose self.old.faults self.new.faults }
        ensures connections { self.new.connections ≡ self.old.connections }
    {
        self.trouble = Some(trouble);
        self.faults = self.faults.saturating_add(1);
        MakeError::Fault
    }
}

// A stream with its options set, and a second handle on it.
fn both_halves(
    stream: TcpStream,
    idle_timeout: Option<Duration>,
) -> io::Result<(ReaderSource<TcpStream>, WriterSink<TcpStream>)> {
    stream.set_nodelay(true)?;
    stream.set_read_timeout(idle_timeout)?;
    stream.set_write_timeout(idle_timeout)?;
    let other = stream.try_clone()?;
    Ok((ReaderSource::new(stream), WriterSink::new(other)))
}

// The next connection. One that was gone before it was accepted is passed over. After another failure, such as no free
// descriptor, it is tried again after a pause: a session that ends frees what it had.
fn accepted<R: SystemClock>(
    rt: &R,
    listener: &TcpListener,
    idle_timeout: Option<Duration>,
) -> io::Result<(ReaderSource<TcpStream>, WriterSink<TcpStream>)> {
    'tries: for _ in 0..TRIES {
        match accept_once(listener, idle_timeout) {
            Ok(halves) => return Ok(halves),
            Err(error) => match error.kind() {
                ErrorKind::ConnectionAborted => {}
                ErrorKind::Interrupted => {}
                _ => sleep(rt, Duration::from_millis(PAUSE_MILLIS)),
            },
        }
    }
    Err(io::Error::from(ErrorKind::TimedOut))
}

fn accept_once(
    listener: &TcpListener,
    idle_timeout: Option<Duration>,
) -> io::Result<(ReaderSource<TcpStream>, WriterSink<TcpStream>)> {
    let (stream, _) = listener.accept()?;
    both_halves(stream, idle_timeout)
}

// Listens on this address, and says on which port.
fn listening<R: Net<Stream = TcpStream, Listener = TcpListener>>(
    rt: &R,
    address: &str,
    port: u16,
) -> io::Result<(TcpListener, u16)> {
    let listener = TcpListener::bind(rt, (address, port))?;
    let port = listener.local_addr()?.port();
    Ok((listener, port))
}

impl<
    R: Net<Stream = TcpStream, Listener = TcpListener>
        + Files<File = File>
        + SystemClock
        + Copy
        + Send
        + 'static,
> Maker for NetMaker<R> {
    type D = FileDevice<File>;

    type S = ReaderSource<TcpStream>;

    type K = WriterSink<TcpStream>;

    type C = WallClock<R>;

    ghost faults = { λ maker. maker.faults };

    ghost connections = { λ maker. maker.connections };

    fn listen(&mut self, address: &str, port: u16, idle_timeout: u32) -> Result<u16, MakeError> {
        self.idle_timeout = if idle_timeout == 0 {
            None
        } else {
            Some(Duration::from_secs(u64::from(idle_timeout)))
        };
        match listening(&self.rt, address, port) {
            Ok((listener, port)) => {
                self.listener = Some(listener);
                Ok(port)
            }
            Err(_) => Err(self.count(Trouble::Listen)),
        }
    }

    fn accept(&mut self) -> Result<(ReaderSource<TcpStream>, WriterSink<TcpStream>), MakeError> {
        let halves = match &self.listener {
            Some(listener) => accepted(&self.rt, listener, self.idle_timeout),
            None => Err(io::Error::from(ErrorKind::NotConnected)),
        };
        match halves {
            Ok(halves) => {
                self.connections = self.connections.saturating_add(1);
                Ok(halves)
            }
            Err(_) => Err(self.count(Trouble::Accept)),
        }
    }

    fn device(
        &mut self,
        path: &str,
        pages: u32,
        page_size: u32,
        fresh: bool,
    ) -> Result<FileDevice<File>, MakeError> {
        let opened = if fresh {
            FileDevice::open(&self.rt, path)
        } else {
            FileDevice::open_prepared(&self.rt, path, pages, page_size)
        };
        let Ok(mut device) = opened else {
            return Err(self.count(Trouble::File));
        };
        if fresh {
            match device.prepare(pages, page_size) {
                Ok(()) => {}
                Err(PrepareError::NoMemory) => return Err(MakeError::NoMemory),
                Err(PrepareError::Fault) => return Err(self.count(Trouble::File)),
            }
        }
        Ok(device)
    }

    fn clock(&mut self) -> WallClock<R> {
        WallClock::new(self.rt)
    }
}
