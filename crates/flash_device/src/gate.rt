use std::sync::atomic::{AtomicBool, Ordering};

/// A gate that devices share, and that any thread may open. It is closed at first, and stays open once it was opened.
#[derive(Drop)]
pub struct Gate {
    open: AtomicBool,
}

impl Gate {
    /// A closed gate.
    pub fn new() -> Gate {
        Gate {
            open: AtomicBool::new(false),
        }
    }

    /// Opens it.
    pub fn open(&self) {
        self.open.store(true, Ordering::SeqCst);
    }

    /// Whether it was opened.
    pub fn is_open(&self) -> bool {
        self.open.load(Ordering::SeqCst)
    }
}
