use crate::sleepers::Sleepers;
use crate::{Shared, Turn};
use std::hint::spin_loop;
use std::sync::Wait;
use std::sync::atomic::AtomicU64;
use std::sync::atomic::Ordering::SeqCst;

// How often a thread looks whether another's batch has ended before it sleeps.
const SPINS: u32 = 100;

// The word while no thread is in a batch, and while one is.
const FREE: u64 = 0;

const TAKEN: u64 = 1;

/// The place of the one thread that takes many turns in a row. It only spares waiting: no turn rests on it.
#[derive(Drop)]
pub struct Batches {
    taken: AtomicU64,
    sleepers: Sleepers,
}

impl Batches {
    /// No thread is in a batch.
    pub fn new() -> Batches {
        Batches {
            taken: AtomicU64::new(FREE),
            sleepers: Sleepers::new(),
        }
    }

    // Waits until no thread is in a batch, and begins one.
    fn begin<R: Wait>(&self, rt: &R) {
        if self.try_begin() {
            return;
        }
        for _ in rt.forever() {
            self.spin_until_free();
            let marked = self.sleepers.mark();
            if self.try_begin() {
                return;
            }
            self.sleepers.sleep(rt, marked);
        }
        unreachable!()
    }

    // Ends the batch.
    fn end(&self) {
        self.taken.store(FREE, SeqCst);
        self.sleepers.wake_one();
    }

    fn try_begin(&self) -> bool {
        self.taken
            .compare_exchange(FREE, TAKEN, SeqCst, SeqCst)
            .is_ok()
    }

    // Looks until no thread is in a batch, but not for long.
    fn spin_until_free(&self) {
        for _ in 0..SPINS {
            if self.taken.load(SeqCst) == FREE {
                return;
            }
            spin_loop();
        }
    }
}

impl<T: Shared> Turn<T> {
    /// Waits until no other thread is in a batch, and begins one: a thread that takes several turns in a row finds the
    /// lock free more often so. Single turns go on beside it, and nothing is claimed of it. It has to be ended by
    /// `end_batch`, after few turns, before the thread reads, writes or waits elsewhere.
    pub fn begin_batch<R: Wait>(&self, rt: &R) {
        self.batches.begin(rt);
    }

    /// Ends the batch that the thread began.
    pub fn end_batch(&self) {
        self.batches.end();
    }
}
