use flash_entry::{Head, Hit};

/// What a lookup found.
#[derive(Debug, Drop)]
pub enum Found {
    /// No live item.
    Miss,
    /// An item whose value isn't wanted.
    Head(Head),
    /// An item with its value.
    Here(Hit),
    /// An item whose value is on flash, and in no write buffer.
    Away(Head),
}
