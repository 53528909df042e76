// What the first word of an entry and the verb of a step stand for.
use crate::Mode;

// The kind of an entry, by what it is about.
#[derive(Clone, Copy)]
pub enum Kind {
    Step(StepKind),
    Lookup(LookupKind),
    Item(ItemKind),
    Page(PageKind),
}

#[derive(Clone, Copy)]
pub enum StepKind {
    Clock,
    Did,
}

#[derive(Clone, Copy)]
pub enum LookupKind {
    Looked,
    FromBuffer,
    ReadBegan,
    ReadEnded,
    Closed,
}

#[derive(Clone, Copy)]
pub enum ItemKind {
    Moved,
    Recached,
    Dropped,
}

#[derive(Clone, Copy)]
pub enum PageKind {
    WriteBegan,
    WriteEnded,
    Opened,
    Ended,
    Freed,
}

// A command's step. A sum takes away where its flag is set.
#[derive(Clone, Copy)]
pub enum Verb {
    Store(Mode),
    Delete,
    Sum(bool),
    Touch,
    Flush,
    Stats,
}
