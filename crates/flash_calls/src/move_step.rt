/// What the move of one value to flash came to.
#[derive(Clone, Copy, Debug, PartialEq, Eq)]
pub enum MoveStep {
    /// No item is to be moved.
    Idle,
    /// The record doesn't fit in the open block, and no buffer is free.
    NoBuffer,
    /// The record doesn't fit in the open block, its page has no further block, and no page may be opened.
    NoPage,
    /// One value was moved.
    Moved,
}
