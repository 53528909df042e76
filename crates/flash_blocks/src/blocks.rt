ghost use Rattle.std.specs.Prelude.{◌≡◌, ℕ, ◌+◌, ◌≤◌, ◌<◌, ◌↔◌, true, length as count, is_some, IsSome, IsTrue, IsOk, IfOk, IfSome, Some, None, option_map, if◌then◌else◌};
ghost use Rattle.std.specs.Option.{option_copied, ForSome};
ghost use Rattle.flash_names.specs.declared.geometry.Geometry.{Geometry};
ghost use Rattle.flash_names.specs.Geometry.{Passes};
ghost use Rattle.flash_pages.specs.PageTable.{free_count, IsAt};
ghost use Rattle.flash_pages.specs.States.{is_full};
ghost use Rattle.flash_pages.specs.Labels.{page_label as label_of_page};
ghost use Rattle.flash_pages.specs.Freeable.{freeable};
ghost use Rattle.flash_pages.specs.Opening.{next_opening};
ghost use Rattle.flash_pages.specs.Victims.{victim_evict};
ghost use Rattle.flash_pages.specs.Calls.{HasLive, CanPin, HasPin, CanFree, has_ended as has_ended_in};
ghost use Rattle.flash_buffers.specs.BufferTable.{first_free, read_of, IsOpen};
ghost use Rattle.flash_buffers.specs.Calls.{IsInFlight, next_job, is_idle};
ghost use Rattle.flash_blocks.specs.BlockTable.{first_table, open_page, with_open_page, open_block, block_offset, page_of};
ghost use Rattle.flash_blocks.specs.Rooms.{room as room_for, fits_here, has_next, closed};
ghost use Rattle.flash_blocks.specs.Calls.{puts, seals, takes_live, begins, unwrites, pins, unpins, ends, frees, table_after, length_of, put_answer, opened_in, with_sealed, holds_record, next_place, with_block_sealed, with_page_opened, with_block_taken, with_room, with_record};
ghost use Rattle.flash_blocks.specs.Sound.{HasNextBlock};

use crate::answers::{Full, Put, Room};
use crate::open_page::OpenPage;
use crate::open_pages::OpenPages;
use flash_buffers::{BufferId, Buffers, WriteJob};
use flash_names::{Geometry, Key, Label, Place};
use flash_pages::{Bucket, Opened, Pages, Pinned};
use std::alloc::{AllocError, Global};
use std::marker::Model;

/// How many bytes a record has beside its key and its value.
const HEAD_AND_CHECKSUM: usize = 32;

/// The pages of the flash file, the write buffers, and for each bucket the page that its records are appended to.
#[derive(Debug, Drop)]
pub struct Blocks {
    pages: Pages,
    buffers: Buffers,
    opened: OpenPages,
    page_size: u32,
    block_size: u32,
}

impl Model for Blocks {
    ghost use Rattle.std.specs.Prelude.{◌≡◌};
    ghost use Rattle.flash_blocks.specs.BlockTable.{BlockTable};
    ghost use Rattle.flash_blocks.specs.Sound.{IsSound, HasSizes};

    ghost Value = { BlockTable };

    ghost view = { λ b. record { pages = b.pages; buffers = b.buffers; default = b.opened.default; compact = b.opened.compact } };

    ghost invariant = { λ b. (b.page_size ≡ b.pages.page_size) × (b.block_size ≡ b.buffers.size)
        × IsSound (record { pages = b.pages; buffers = b.buffers; default = b.opened.default; compact = b.opened.compact }) };
}

impl Blocks {
    /// The pages and buffers of this geometry, with no page open, or an error where memory runs out. No later call answers that.
    pub fn open(alloc: Global, geometry: &Geometry) -> Result<Blocks, AllocError>
        requires { Passes geometry.now }
        ensures { IfOk result (λ blocks. blocks ≡ first_table geometry.now) }
    {
        Ok(Blocks {
            pages: Pages::open(alloc, geometry)?,
            buffers: Buffers::open(alloc, geometry.buffers, geometry.buffer_size)?,
            opened: OpenPages::NONE,
            page_size: geometry.page_size,
            block_size: geometry.buffer_size,
        })
    }

    /// Where a record of so many bytes would be put: in the bucket's open block where it fits in the rest; else,
    /// where a buffer is free, in the next block of the bucket's page, or of a page that would be opened.
    pub fn room(&self, bucket: Bucket, length: usize) -> Room
        ensures { result ≡ room_for self.now bucket length }
    {
        if self.fits_here(bucket, length) {
            return Room::Here;
        }
        if !self.buffers.has_free() {
            return Room::NoBuffer;
        }
        if self.has_next(bucket) {
            return Room::Next;
        }
        match self.pages.next_page(bucket) {
            Opened::Page(label) => Room::Opens(label),
            Opened::NoPage => Room::NoPage,
        }
    }

    /// Puts the record of these parts where `room` says, with the version of its page, and counts it as live. Where
    /// it doesn't fit in the bucket's open block, that block is sealed, and a page opened where the bucket's has no
    /// further block. After an error nothing has changed. The record may not be longer than a block.
    pub fn put(
        &mut self,
        bucket: Bucket,
        key: &Key,
        flags: u32,
        cas: u64,
        value: &[u8],
    ) -> Result<Put, Full>
        requires { length_of key.now value.now ≤ self.old.buffers.size }
        ensures exact { result ≡ put_answer self.old bucket (length_of key.now value.now) }
        ensures after { self.new ≡ table_after (puts bucket key.now flags cas value.now) self.old }
    {
        let length = self.length_of(key, value);
        let room = self.room(bucket, length);
        let opened = self.make_room(bucket, length, room)?;
        let place = self.append(bucket, key, flags, cas, value);
        Ok(Put { place, opened })
    }

    /// Puts the bucket's open block into the queue of those that are to be written, where it holds a record. Its
    /// next record goes to another block.
    pub fn seal(&mut self, bucket: Bucket) -> bool
        ensures exact { result ≡ holds_record self.old bucket }
        ensures after { self.new ≡ table_after (seals bucket) self.old }
    {
        let holds = self.holds_record(bucket);
        if holds {
            self.seal_block(bucket);
        }
        holds
    }

    /// The bytes of the place, where a buffer covers it.
    pub fn read(&self, place: Place) -> Option<&[u8]>
        ensures exact { option_copied result ≡ read_of self.now.buffers place }
        ensures whole { IfSome result (λ bytes. count bytes.now ≡ place.length) }
    {
        self.buffers.read(place)
    }

    /// Counts the record of this place as live no longer. Its page has to have the label's version, a live record
    /// and so many live bytes.
    pub fn take_live(&mut self, place: Place)
        requires { HasLive self.old.pages place.label place.length }
        ensures { self.new ≡ table_after (takes_live place) self.old }
    {
        self.pages.take_live(place.label, place.length);
    }

    /// Whether the label has ended: its page has another version, or is no longer in use. There has to be such a
    /// page.
    pub fn has_ended(&self, label: Label) -> bool
        requires { label.page < count self.now.pages.rows }
        ensures { result ≡ has_ended_in self.now.pages label }
    {
        self.pages.has_ended(label)
    }

    /// The label that the page has now; none where it is free, or where there is no such page.
    pub fn page_label(&self, page: u32) -> Option<Label>
        ensures { result ≡ label_of_page self.now.pages page }
    {
        self.pages.page_label(page)
    }

    /// The number of pages that are free.
    pub fn free_pages(&self) -> u32
        ensures { result ≡ free_count self.now.pages }
    {
        self.pages.free_pages()
    }

    /// The oldest sealed block; `None` where none is sealed or a job is out. The job has to be given back.
    pub fn write_begin(&mut self) -> Option<WriteJob>
        ensures exact { result ≡ next_job self.old.buffers }
        ensures none { (result ≡ None) ↔ IsTrue (is_idle self.old.buffers) }
        ensures after { self.new ≡ table_after begins self.old }
    {
        self.buffers.write_begin()
    }

    /// Takes back the job of a block that wasn't written: it is still the first of the queue. It has to be the job
    /// that is out.
    pub fn unwritten(&mut self, job: WriteJob)
        requires { IsInFlight self.old.buffers job }
        ensures { self.new ≡ table_after (unwrites job) self.old }
    {
        self.buffers.unwritten(job);
    }

    /// Counts one pin more on the label's page, unless the label has ended. There has to be such a page, with
    /// fewer than 2^64 - 1 pins.
    pub fn pin(&mut self, label: Label) -> Pinned
        requires { CanPin self.old.pages label }
        ensures exact { result ≡ (if has_ended_in self.old.pages label then Pinned.Ended else Pinned.Yes) }
        ensures after { self.new ≡ table_after (pins label) self.old }
    {
        self.pages.pin(label)
    }

    /// Counts one pin fewer on the label's page. The page has to have the label's version and a pin.
    pub fn unpin(&mut self, label: Label)
        requires { HasPin self.old.pages label }
        ensures { self.new ≡ table_after (unpins label) self.old }
    {
        self.pages.unpin(label);
    }

    /// Ends the label: its page may be freed once no read has a pin on it. The page has to be Full with the label's
    /// version.
    pub fn end(&mut self, label: Label)
        requires { IsAt is_full self.old.pages label }
        ensures { self.new ≡ table_after (ends label) self.old }
    {
        self.pages.end(label);
    }

    /// The ended page of lowest number that has no pin.
    pub fn freeable(&self) -> Option<Label>
        ensures { result ≡ freeable self.now.pages }
    {
        self.pages.freeable()
    }

    /// Makes the label's page free. The page has to have ended, with the label's version and no pin.
    pub fn free(&mut self, label: Label)
        requires { CanFree self.old.pages label }
        ensures { self.new ≡ table_after (frees label) self.old }
    {
        self.pages.free(label);
    }

    /// The page to evict: the Full page of lowest version that isn't under compaction, where at most the geometry's
    /// `drop_under` pages are free.
    pub fn victim_evict(&self) -> Option<Label>
        ensures { result ≡ victim_evict self.now.pages }
    {
        self.pages.victim_evict()
    }

    // The buffer of the bucket's open block.
    fn open_buffer(&self, bucket: Bucket) -> Option<BufferId>
        ensures exact { result ≡ (page_of self.now bucket).buffer }
        ensures open { ForSome result (λ id. IsOpen self.now.buffers id.number) }
    {
        match self.opened.of(bucket) {
            None => None,
            Some(page) => page.buffer,
        }
    }

    fn fits_here(&self, bucket: Bucket, length: usize) -> bool
        ensures { result ≡ fits_here self.now bucket length }
    {
        match self.open_buffer(bucket) {
            None => false,
            Some(id) => self.buffers.fits(id, length),
        }
    }

    // A block in which a record of its whole size doesn't fit holds one.
    fn holds_record(&self, bucket: Bucket) -> bool
        ensures { result ≡ holds_record self.now bucket }
    {
        match self.open_buffer(bucket) {
            None => false,
            Some(id) => !self.buffers.fits(id, self.block_size as usize),
        }
    }

    // Whether the bucket's page has a further block.
    fn has_next(&self, bucket: Bucket) -> bool
        ensures { result ≡ has_next self.now bucket }
    {
        match self.opened.of(bucket) {
            None => false,
            Some(page) => {
                let next = page.closed().offset(self.block_size);
                self.block_size <= self.page_size - next
            }
        }
    }

    // How many bytes the record of this key and value has.
    fn length_of(&self, key: &Key, value: &[u8]) -> usize
        requires { length_of key.now value.now ≤ self.now.buffers.size }
        ensures { result ≡ length_of key.now value.now }
    {
        // Read for the proof: a block has fewer than 2^32 bytes.
        let _size = self.block_size;
        HEAD_AND_CHECKSUM + key.bytes().len() + value.len()
    }

    // Does what this room asks for, and answers the label of the page that was opened for it.
    fn make_room(
        &mut self,
        bucket: Bucket,
        length: usize,
        room: Room,
    ) -> Result<Option<Label>, Full>
        requires room { room ≡ room_for self.old bucket length }
        requires short { length ≤ self.old.buffers.size }
        ensures exact { result ≡ opened_in room }
        ensures after { self.new ≡ with_room self.old bucket room }
        ensures fits { IsOk result → fits_here self.new bucket length ≡ true }
    {
        match room {
            Room::Here => Ok(None),
            Room::Next => {
                self.seal_block(bucket);
                self.take_block(bucket);
                Ok(None)
            }
            Room::Opens(label) => {
                self.seal_block(bucket);
                self.open_first(bucket, label);
                self.take_block(bucket);
                Ok(Some(label))
            }
            Room::NoBuffer => Err(Full::NoBuffer),
            Room::NoPage => Err(Full::NoPage),
        }
    }

    // Seals the bucket's open block, where it has one; its block is used up.
    fn seal_block(&mut self, bucket: Bucket)
        ensures { self.new ≡ with_block_sealed self.old bucket }
    {
        let Some(page) = self.opened.of(bucket) else {
            return;
        };
        seal_buffer(&mut self.buffers, page.buffer);
        self.opened.set(bucket, Some(page.closed()));
    }

    // Opens the page of this label for the bucket.
    fn open_first(&mut self, bucket: Bucket, label: Label)
        requires { next_opening self.old.pages bucket ≡ Opened.Page label }
        ensures after { self.new ≡ with_page_opened self.old bucket label }
        ensures ready { ForSome (open_page self.new bucket) (HasNextBlock self.new) }
    {
        let _ = self.pages.open_page(bucket);
        self.opened.set(bucket, Some(OpenPage::new(label)));
    }

    // Takes a free buffer for the next block of the bucket's page, which has no open block.
    fn take_block(&mut self, bucket: Bucket)
        requires { ForSome (open_page self.old bucket) (HasNextBlock self.old) }
        ensures after { self.new ≡ with_block_taken self.old bucket }
        ensures room { IsSome (open_page self.old bucket) → IsSome (first_free self.old.buffers)
            → (n : ℕ) → n ≤ self.old.buffers.size → fits_here self.new bucket n ≡ true }
    {
        let Some(page) = self.opened.of(bucket) else {
            return;
        };
        let buffer = self.buffers.take(page.label, page.offset(self.block_size));
        self.opened.set(bucket, Some(OpenPage { buffer, ..page }));
    }

    // Appends the record to the bucket's open block, in which it fits, and counts it as live.
    fn append(&mut self, bucket: Bucket, key: &Key, flags: u32, cas: u64, value: &[u8]) -> Place
        requires { fits_here self.old bucket (length_of key.now value.now) ≡ true }
        ensures place { result ≡ next_place self.old bucket (length_of key.now value.now) }
        ensures after { self.new ≡ with_record self.old bucket key.now flags cas value.now }
    {
        let Some(id) = self.open_buffer(bucket) else {
            unreachable!();
        };
        let Some(place) = self.buffers.append(id, key, flags, cas, value) else {
            unreachable!();
        };
        self.pages.add_live(place.label, place.length);
        place
    }
}

// Seals the buffer, where there is one.
fn seal_buffer(buffers: &mut Buffers, buffer: Option<BufferId>)
    requires { ForSome buffer (λ id. IsOpen buffers.old id.number) }
    ensures { buffers.new ≡ with_sealed buffers.old buffer }
{
    if let Some(id) = buffer {
        buffers.seal(id);
    }
}
