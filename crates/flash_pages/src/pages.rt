ghost use Rattle.std.specs.Prelude.{◌≡◌, ℕ, ◌+◌, ◌*◌, ◌^◌, ◌<◌, ◌≤◌, ◌↔◌, Bool, if◌then◌else◌, IsTrue, IfOk, IfNone, IfSome, count_by, length, slice_index_or, slice_set, option_map};
ghost use Rattle.std.specs.List.{position_from};
ghost use Rattle.flash_names.specs.declared.geometry.Geometry.{Geometry};
ghost use Rattle.flash_pages.specs.States.{is_free, is_open, is_full, is_ended, is_in_use};
ghost use Rattle.flash_pages.specs.PageTable.{PageTable, blank_row, first_table, free_count, row_of, IsAt};
ghost use Rattle.flash_pages.specs.Opening.{next_opening, is_refused, pages_wanted, WasFree, IsFreeRow};
ghost use Rattle.flash_pages.specs.Labels.{page_label};
ghost use Rattle.flash_pages.specs.Freeable.{freeable, first_freeable};
ghost use Rattle.flash_pages.specs.Victims.{victim_evict, victim_compact};
ghost use Rattle.flash_pages.specs.Calls.{table_after, opens, pins, unpins, adds_live, takes_live, fills, ends, frees, compacts, compacts_none, spares, has_ended, CanPin, HasPin, CanAdd, HasLive, CanFree, CanCompact};

use crate::page_row::{Bucket, PageRow, State};
use crate::victims::{least_to_compact, least_to_evict};
use flash_names::{Geometry, Label};
use std::alloc::{AllocError, Global};
use std::marker::Model;

/// The last version that a page may be opened with.
const LAST_VERSION: u64 = 0x8000_0000_0000_0000;

/// What opening a page gives.
#[derive(Clone, Copy, Debug, PartialEq, Eq)]
pub enum Opened {
    /// A page was opened, with this label.
    Page(Label),
    /// Too few pages are free, or the last version was given.
    NoPage,
}

/// What asking for a pin gives.
#[derive(Clone, Copy, Debug, PartialEq, Eq)]
pub enum Pinned {
    /// The page has one pin more.
    Yes,
    /// The label has ended.
    Ended,
}

/// The pages of the flash file, by number, with the last version that was given and the page under
/// compaction.
#[derive(Debug, Drop)]
pub struct Pages {
    rows: Vec<PageRow>,
    free: usize,
    last_version: u64,
    under: Option<Label>,
    page_size: u32,
    compact_under: u32,
    drop_under: u32,
    max_frag: u32,
}

impl Model for Pages {
    ghost use Rattle.std.specs.Prelude.{◌≡◌, ◌^◌, ◌<◌, length, count_by};
    ghost use Rattle.flash_pages.specs.States.{is_free};
    ghost use Rattle.flash_pages.specs.PageTable.{PageTable};

    ghost Value = { PageTable };

    ghost view = { λ p. record {
      rows = p.rows.items;
      last_version = p.last_version;
      under = p.under;
      page_size = p.page_size;
      compact_under = p.compact_under;
      drop_under = p.drop_under;
      max_frag = p.max_frag;
    } };

    ghost invariant = { λ p. (p.free ≡ count_by (λ row. is_free row.state) p.rows.items) × (length p.rows.items < 2 ^ 32) };
}

impl Pages {
    /// The pages of this geometry, all of them free, or an error where memory runs out. No later call answers that.
    pub fn open(alloc: Global, geometry: &Geometry) -> Result<Pages, AllocError>
        ensures { IfOk result (λ pages. pages ≡ first_table geometry.now) }
    {
        let mut rows = Vec::with_capacity(alloc, geometry.pages as usize)?;
        'rows: for _ in 0..geometry.pages {
            rows.push(PageRow::BLANK)?;
        }
        Ok(Pages {
            rows,
            free: geometry.pages as usize,
            last_version: 0,
            under: None,
            page_size: geometry.page_size,
            compact_under: geometry.compact_under,
            drop_under: geometry.drop_under,
            max_frag: geometry.max_frag,
        })
    }

    /// What `open_page` would answer: the free page of lowest number, with the version above the last that
    /// was given. The last free page is opened for compaction alone.
    pub fn next_page(&self, bucket: Bucket) -> Opened
        ensures exact { result ≡ next_opening self.now bucket }
        ensures none { (result ≡ Opened.NoPage) ↔ IsTrue (is_refused self.now bucket) }
        ensures free { WasFree self.now result }
    {
        if self.free < pages_wanted(bucket) || self.last_version >= LAST_VERSION {
            return Opened::NoPage;
        }
        match first_free(&self.rows) {
            None => Opened::NoPage,
            Some(page) => Opened::Page(Label {
                page,
                version: self.last_version + 1,
            }),
        }
    }

    /// Opens the free page of lowest number, with the version above the last that was given. The last free
    /// page is opened for compaction alone. After `NoPage` nothing has changed.
    pub fn open_page(&mut self, bucket: Bucket) -> Opened
        ensures exact { result ≡ next_opening self.old bucket }
        ensures none { (result ≡ Opened.NoPage) ↔ IsTrue (is_refused self.old bucket) }
        ensures free { WasFree self.old result }
        ensures after { self.new ≡ table_after (opens bucket) self.old }
    {
        let opened = self.next_page(bucket);
        if let Opened::Page(label) = opened {
            self.put(label.page, PageRow::opened(bucket, label.version));
            self.last_version = label.version;
        }
        opened
    }

    /// Counts one pin more on the label's page, unless the label has ended. There has to be such a page, with
    /// fewer than 2^64 - 1 pins.
    pub fn pin(&mut self, label: Label) -> Pinned
        requires { CanPin self.old label }
        ensures exact { result ≡ (if has_ended self.old label then Pinned.Ended else Pinned.Yes) }
        ensures after { self.new ≡ table_after (pins label) self.old }
    {
        if self.has_ended(label) {
            return Pinned::Ended;
        }
        let row = self.row(label.page);
        self.put(
            label.page,
            PageRow {
                pins: row.pins + 1,
                ..row
            },
        );
        Pinned::Yes
    }

    /// Counts one pin fewer on the label's page. The page has to have the label's version and a pin.
    pub fn unpin(&mut self, label: Label)
        requires { HasPin self.old label }
        ensures { self.new ≡ table_after (unpins label) self.old }
    {
        let row = self.row(label.page);
        self.put(
            label.page,
            PageRow {
                pins: row.pins - 1,
                ..row
            },
        );
    }

    /// Counts one live record more, of so many bytes, on the label's page. The page has to be Open or Full with
    /// the label's version and have fewer than 2^32 - 1 live records, and its live bytes with these have to be
    /// at most a page's.
    pub fn add_live(&mut self, label: Label, bytes: u32)
        requires { CanAdd self.old label bytes }
        ensures { self.new ≡ table_after (adds_live label bytes) self.old }
    {
        let row = self.row(label.page);
        // Read for the proof: a page has fewer than 2^32 bytes, so the sum doesn't wrap.
        let _size = self.page_size;
        self.put(
            label.page,
            PageRow {
                live: row.live + 1,
                live_bytes: row.live_bytes + bytes,
                ..row
            },
        );
    }

    /// Counts one live record fewer, of so many bytes, on the label's page. The page has to have the label's
    /// version, a live record and so many live bytes.
    pub fn take_live(&mut self, label: Label, bytes: u32)
        requires { HasLive self.old label bytes }
        ensures { self.new ≡ table_after (takes_live label bytes) self.old }
    {
        let row = self.row(label.page);
        self.put(
            label.page,
            PageRow {
                live: row.live - 1,
                live_bytes: row.live_bytes - bytes,
                ..row
            },
        );
    }

    /// How many records of the label's page are live. The page has to be Open or Full with the label's version.
    pub fn live(&self, label: Label) -> u32
        requires { IsAt is_in_use self.now label }
        ensures { result ≡ (row_of self.now label).live }
    {
        self.row(label.page).live
    }

    /// Makes the label's page Full: each of its blocks has been written. The page has to be Open with the
    /// label's version.
    pub fn filled(&mut self, label: Label)
        requires { IsAt is_open self.old label }
        ensures { self.new ≡ table_after (fills label) self.old }
    {
        let row = self.row(label.page);
        self.put(
            label.page,
            PageRow {
                state: State::Full,
                ..row
            },
        );
    }

    /// Ends the label: its page is Ended, and may be freed once no read has a pin on it. The page has to be Open
    /// or Full with the label's version.
    pub fn end(&mut self, label: Label)
        requires { IsAt is_in_use self.old label }
        ensures { self.new ≡ table_after (ends label) self.old }
    {
        let row = self.row(label.page);
        self.put(
            label.page,
            PageRow {
                state: State::Ended,
                ..row
            },
        );
    }

    /// Whether the label has ended: its page has another version, or is Ended or Free. There has to be such a
    /// page.
    pub fn has_ended(&self, label: Label) -> bool
        requires { label.page < length self.now.rows }
        ensures { result ≡ has_ended self.now label }
    {
        let row = self.row(label.page);
        !(row.version == label.version && row.state.is_in_use())
    }

    /// The label that the page has now; none where it is Free, or where there is no such page.
    pub fn page_label(&self, page: u32) -> Option<Label>
        ensures { result ≡ page_label self.now page }
    {
        let row = match self.rows.get(page as usize) {
            None => return None,
            Some(row) => *row,
        };
        if row.state.is_free() {
            return None;
        }
        Some(Label {
            page,
            version: row.version,
        })
    }

    /// The ended page of lowest number that has no pin.
    pub fn freeable(&self) -> Option<Label>
        ensures { result ≡ freeable self.now }
    {
        first_freeable(&self.rows)
    }

    /// Makes the label's page Free. The page has to be Ended, with the label's version and no pin.
    pub fn free(&mut self, label: Label)
        requires { CanFree self.old label }
        ensures { self.new ≡ table_after (frees label) self.old }
    {
        let row = self.row(label.page);
        self.put(
            label.page,
            PageRow {
                state: State::Free,
                live: 0,
                live_bytes: 0,
                spared: false,
                ..row
            },
        );
    }

    /// The number of Free pages.
    pub fn free_pages(&self) -> u32
        ensures { result ≡ free_count self.now }
    {
        self.free as u32
    }

    /// The page to evict: the Full page of lowest version that isn't under compaction, where at most the
    /// geometry's `drop_under` pages are free.
    pub fn victim_evict(&self) -> Option<Label>
        ensures { result ≡ victim_evict self.now }
    {
        if self.free > self.drop_under as usize {
            return None;
        }
        least_to_evict(&self.rows, self.under).map(|candidate| candidate.label)
    }

    /// The page to compact, where at most the geometry's `compact_under` pages are free: the Full page, not
    /// spared, with fewest live bytes, and of lowest number on a tie, if these are at most `max_frag` percent
    /// of a page. It may be the page that is under compaction.
    pub fn victim_compact(&self) -> Option<Label>
        ensures { result ≡ victim_compact self.now }
    {
        if self.free > self.compact_under as usize {
            return None;
        }
        let most = u64::from(self.max_frag) * u64::from(self.page_size);
        least_to_compact(&self.rows, most).map(|candidate| candidate.label)
    }

    /// Marks the label's page as under compaction, until `compact_off`. The page has to be Full with the label's
    /// version, and none may be under compaction.
    pub fn compact_on(&mut self, label: Label)
        requires { CanCompact self.old label }
        ensures { self.new ≡ table_after (compacts label) self.old }
    {
        self.under = Some(label);
    }

    /// Ends the compaction that is under way, if one is.
    pub fn compact_off(&mut self)
        ensures { self.new ≡ table_after compacts_none self.old }
    {
        self.under = None;
    }

    /// Leaves the label's page out of compaction until it is freed. The page has to be Open or Full with the
    /// label's version.
    pub fn spare(&mut self, label: Label)
        requires { IsAt is_in_use self.old label }
        ensures { self.new ≡ table_after (spares label) self.old }
    {
        let row = self.row(label.page);
        self.put(
            label.page,
            PageRow {
                spared: true,
                ..row
            },
        );
    }

    fn row(&self, page: u32) -> PageRow
        requires { page < length self.now.rows }
        ensures { result ≡ slice_index_or self.now.rows page blank_row }
    {
        self.rows[page as usize]
    }

    // Puts a row in the place of the page's, and counts the free pages again.
    fn put(&mut self, page: u32, row: PageRow)
        requires { page < length self.old.rows }
        ensures { self.new ≡ record self.old { rows = slice_set self.old.rows page row } }
    {
        let before = self.rows[page as usize];
        self.free = self.free + one_if_free(&row) - one_if_free(&before);
        self.rows[page as usize] = row;
    }
}

// How many pages have to be free for one to be opened.
fn pages_wanted(bucket: Bucket) -> usize
    ensures { result ≡ pages_wanted bucket }
{
    match bucket {
        Bucket::Default => 2,
        Bucket::Compact => 1,
    }
}

fn one_if_free(row: &PageRow) -> usize
    ensures { result ≡ (if is_free row.now.state then 1 else 0) }
{
    if row.state.is_free() { 1 } else { 0 }
}

fn first_free(rows: &[PageRow]) -> Option<u32>
    requires { length rows.now < 2 ^ 32 }
    ensures first { result ≡ position_from (λ row. is_free row.state) 0 rows.now }
    ensures none { IfNone result (count_by (λ row. is_free row.state) rows.now ≡ 0) }
    ensures free { IfSome result (λ page. IsFreeRow rows.now page) }
{
    let mut number = 0;
    'rows: for row in rows {
        if row.state.is_free() {
            return Some(number);
        }
        number += 1;
    }
    None
}

fn first_freeable(rows: &[PageRow]) -> Option<Label>
    requires { length rows.now < 2 ^ 32 }
    ensures { result ≡ first_freeable 0 rows.now }
{
    let mut page = 0;
    'rows: for row in rows {
        if row.state.is_ended() && row.pins == 0 {
            return Some(Label {
                page,
                version: row.version,
            });
        }
        page += 1;
    }
    None
}
