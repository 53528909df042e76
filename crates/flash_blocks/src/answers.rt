use flash_names::{Label, Place};

/// Where a record of a length is put.
#[derive(Clone, Copy, Debug, PartialEq, Eq)]
pub enum Room {
    /// In the bucket's open block.
    Here,
    /// In the next block of the bucket's page.
    Next,
    /// In the first block of a page that is opened with this label.
    Opens(Label),
    /// Nowhere: it asks for a new block, and no buffer is free.
    NoBuffer,
    /// Nowhere: it asks for a new page, and none may be opened.
    NoPage,
}

/// A record that was put.
#[derive(Clone, Copy, Debug, PartialEq, Eq)]
pub struct Put {
    /// The record's place.
    pub place: Place,
    /// The label of the page that was opened for it, where one was.
    pub opened: Option<Label>,
}

/// Why a record isn't put.
#[derive(Clone, Copy, Debug, PartialEq, Eq)]
pub enum Full {
    /// It asks for a new block, and no buffer is free.
    NoBuffer,
    /// It asks for a new page, and none may be opened.
    NoPage,
}
