use std::sync::Wait;
use std::sync::atomic::AtomicU64;
use std::sync::atomic::Ordering::SeqCst;

// Set where a thread may sleep.
const MARK: u64 = 1;

/// The threads that sleep until the lock is free, in no order. Each looks at the lock again when it wakes, so nothing
/// rests on who wakes when.
#[derive(Drop)]
pub struct Sleepers {
    // The mark, and above it the number of the wakes.
    state: AtomicU64,
}

impl Sleepers {
    /// No thread sleeps, and none was woken.
    pub fn new() -> Sleepers {
        Sleepers {
            state: AtomicU64::new(0),
        }
    }

    /// Says that a thread may sleep, and answers the marked state, for `sleep`. The thread has to try the lock once
    /// more before it does.
    pub fn mark(&self) -> u64 {
        self.state.fetch_or(MARK, SeqCst) | MARK
    }

    /// Sleeps, unless there was a wake since the mark.
    pub fn sleep<R: Wait>(&self, rt: &R, marked: u64) {
        // `park` compares the lower 32 bits.
        self.state.park(rt, (marked & 0xffff_ffff) as u32);
    }

    /// Where a thread may sleep, wakes one and takes the mark away. Whoever wakes marks again, since others may
    /// sleep, and until then the lock is left without a wake.
    pub fn wake_one(&self) {
        let state = self.state.load(SeqCst);
        if state & MARK == MARK && self.takes_mark(state) {
            self.state.wake_one();
        }
    }

    // Takes the mark away from this marked state, and counts a wake, if no other thread has: `MARK` added to a marked
    // state clears the mark and carries into the number of the wakes.
    fn takes_mark(&self, state: u64) -> bool {
        self.state
            .compare_exchange(state, state.wrapping_add(MARK), SeqCst, SeqCst)
            .is_ok()
    }
}
