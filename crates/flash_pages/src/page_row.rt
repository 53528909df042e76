ghost use Rattle.std.specs.Prelude.{◌≡◌};
ghost use Rattle.flash_pages.specs.Opening.{open_row};
ghost use Rattle.flash_pages.specs.States.{is_free, is_open, is_full, is_ended, is_in_use};

/// What a page is used for now.
#[derive(Clone, Copy, Debug, PartialEq, Eq)]
pub enum State {
    /// It has no label and may be opened.
    Free,
    /// It has a label, and blocks of it are still to be written.
    Open,
    /// It has a label, and each of its blocks has been written.
    Full,
    /// Its label has ended; it waits until no read has a pin on it.
    Ended,
}

impl State {
    /// Whether it is `Free`.
    pub fn is_free(&self) -> bool
        ensures { result ≡ is_free self.now }
    {
        matches!(self, State::Free)
    }

    /// Whether it is `Full`.
    pub fn is_full(&self) -> bool
        ensures { result ≡ is_full self.now }
    {
        matches!(self, State::Full)
    }

    /// Whether it is `Ended`.
    pub fn is_ended(&self) -> bool
        ensures { result ≡ is_ended self.now }
    {
        matches!(self, State::Ended)
    }

    /// Whether it is `Open` or `Full`.
    pub fn is_in_use(&self) -> bool
        ensures { result ≡ is_in_use self.now }
    {
        matches!(self, State::Open | State::Full)
    }
}

/// The kind of records that a page is opened for.
#[derive(Clone, Copy, Debug, PartialEq, Eq)]
pub enum Bucket {
    /// Records that move from memory.
    Default,
    /// Records that compaction rescues from another page.
    Compact,
}

/// What is known of one page.
#[derive(Clone, Copy, Debug, PartialEq, Eq)]
pub struct PageRow {
    /// What it is used for.
    pub state: State,
    /// The version that it was last opened with; 0 before the first.
    pub version: u64,
    /// What it was last opened for.
    pub bucket: Bucket,
    /// How many reads of it are under way.
    pub pins: u64,
    /// How many of its records are live.
    pub live: u32,
    /// The bytes of its live records.
    pub live_bytes: u32,
    /// Whether compaction has left it out.
    pub spared: bool,
}

impl PageRow {
    /// The row of a page that was never opened.
    pub const BLANK: PageRow = PageRow {
        state: State::Free,
        version: 0,
        bucket: Bucket::Default,
        pins: 0,
        live: 0,
        live_bytes: 0,
        spared: false,
    };

    /// The row of a page that has just been opened.
    pub fn opened(bucket: Bucket, version: u64) -> PageRow
        ensures { result ≡ open_row bucket version }
    {
        PageRow {
            state: State::Open,
            version,
            bucket,
            ..PageRow::BLANK
        }
    }
}
