// Steps of one session in a row.
use flash_names::Shared;
use flash_turn::Turn;
use std::sync::Wait;

// So many steps are done in one batch at most, so that other sessions with many steps wait for few.
const BATCH: u32 = 32;

// The steps that a session has done in a row, without reading or writing. The second one begins a batch, since a first one
// is most often the only one.
#[derive(Drop)]
pub struct Batch {
    steps: u32,
}

impl Batch {
    // No step was done.
    pub fn new() -> Batch {
        Batch { steps: 0 }
    }

    // Before each step.
    pub fn step<T: Shared, R: Wait>(&mut self, rt: &R, store: &Turn<T>) {
        if self.steps >= BATCH {
            self.end(store);
        }
        if self.steps == 1 {
            store.begin_batch(rt);
        }
        self.steps = self.steps.saturating_add(1);
    }

    // Before a write, where one is made.
    pub fn end_where<T: Shared>(&mut self, store: &Turn<T>, writes: bool) {
        if writes {
            self.end(store);
        }
    }

    // Before a read, a write, and the end.
    pub fn end<T: Shared>(&mut self, store: &Turn<T>) {
        if self.steps > 1 {
            store.end_batch();
        }
        self.steps = 0;
    }
}
