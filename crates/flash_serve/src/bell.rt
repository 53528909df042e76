// What the keeper sleeps on.
use std::sync::Wait;
use std::sync::atomic::AtomicU64;
use std::sync::atomic::Ordering::SeqCst;
use std::thread::Parker;
use std::time::Duration;

// How long the keeper sleeps at most where it has nothing to do.
const REST_MILLIS: u64 = 10;

/// What wakes the keeper, or says that it is to stop. One thread rests on it, and any may ring it.
#[derive(Drop)]
pub struct Bell {
    parker: Parker,
    stopped: AtomicU64,
}

impl Bell {
    /// A bell that nobody has rung.
    pub fn new() -> Bell {
        Bell {
            parker: Parker::new(),
            stopped: AtomicU64::new(0),
        }
    }

    /// Wakes the keeper.
    pub fn ring(&self) {
        self.parker.unpark();
    }

    /// Tells the keeper to stop, and wakes it.
    pub fn stop(&self) {
        self.stopped.store(1, SeqCst);
        self.ring();
    }

    /// Whether the keeper is to stop.
    pub fn is_stopped(&self) -> bool {
        self.stopped.load(SeqCst) != 0
    }

    /// Sleeps until the bell is rung, or for 10 milliseconds.
    pub fn rest<R: Wait>(&self, rt: &R) {
        self.parker
            .park_timeout(rt, Duration::from_millis(REST_MILLIS));
    }
}
