ghost use Rattle.std.specs.Prelude.{◌≡◌};
ghost use Rattle.flash_names.specs.Labels.{same_label};

/// A page of the flash file together with the version that it was opened with. No two pages that were
/// opened have the same label.
#[derive(Clone, Copy, Debug, PartialEq, Eq)]
pub struct Label {
    /// The page's number, counted from 0.
    pub page: u32,
    /// The page's version, counted from 1 over all pages.
    pub version: u64,
}

impl Label {
    /// Whether the other is the same page with the same version.
    pub fn is_same(self, other: Label) -> bool
        ensures { result ≡ same_label self other }
    {
        self.page == other.page && self.version == other.version
    }
}

/// A range of bytes of a labelled page.
#[derive(Clone, Copy, Debug, PartialEq, Eq)]
pub struct Place {
    /// The page and its version.
    pub label: Label,
    /// The first byte's offset in the page, in bytes.
    pub offset: u32,
    /// The range's length in bytes.
    pub length: u32,
}

/// The number of a step: which pass made it, and its number in that pass. A pass is one connection, or one
/// session of a script; it does one step after the other, and its steps are numbered.
#[derive(Clone, Copy, Debug, PartialEq, Eq)]
pub struct Id {
    /// The pass's number, above 0. Pass 0 is the store's own.
    pub pass: u32,
    /// The step's number. Within a pass the numbers rise from step to step.
    pub seq: u64,
}

/// The name of an item in the store's slab, a table whose places are used again.
#[derive(Clone, Copy, Debug, PartialEq, Eq)]
pub struct ItemId {
    /// The place's number in the slab.
    pub key: usize,
}
