use std::collections::LinkedList;

/// What a pass knows, as the rule of the table reads it. No value of it is made.
pub struct View<T> {
    /// The number of the pass, and after it those of the passes that it joined. A pass that was joined to
    /// another has none.
    pub numbers: LinkedList<u32>,
    /// Every number that it has drawn for another pass, the last first, and those of the passes that it joined.
    pub draws: LinkedList<u64>,
    /// A number below 2^32 - 1 that it has drawn for a pass that doesn't exist yet.
    pub pending: Option<u32>,
    /// Whether it has drawn a number at or above 2^32 - 1, and has still to put it back.
    pub over: bool,
    /// Its ticket, counted from the first one without an end.
    pub ticket: Option<u64>,
    /// Whether it has the value.
    pub has: bool,
    /// The value whose story it has seen.
    pub seen: Option<T>,
    /// The value whose story a pass had seen that it joined.
    pub met: Option<T>,
    /// The value as its last lock turn took it.
    pub took: Option<T>,
    /// The value as its last lock turn left it.
    pub left: Option<T>,
}
