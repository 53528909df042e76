ghost use Rattle.std.specs.Prelude.{◌≡◌, ℕ, ◌+◌, ◌^◌, ◌<◌, ◌≤◌, ◌↔◌, ◌||◌, true, false, List, [], length, map, All, is_none, is_some, nat_eq, IsTrue, IsSome, IfOk, option_map, slice_index_or, MatchOption, filter, vec_len, vec_capacity, ◌++◌, ◌∷◌, IfSome};
ghost use Rattle.std.specs.Option.{option_copied};
ghost use Rattle.std.specs.List.{position_from};
ghost use Rattle.flash_buffers.specs.Block.{Slot, blocks_in, block_bytes, fits_in, place_in};
ghost use Rattle.flash_buffers.specs.Covering.{covers, bytes_in, read_in};
ghost use Rattle.flash_buffers.specs.BufferTable.{block_without, slot_without, first_table, block_of, first_free, IsOpen, read_of, first_block};
ghost use Rattle.flash_buffers.specs.Sound.{free_slot, Covers};

use crate::buffer::Buffer;
use flash_names::{Blob, Key, Label, Place};
use std::alloc::{AllocError, Global};
use std::marker::Model;

/// A write buffer that was taken, by its number. Once its block was written or dropped, the number may be that
/// of another block.
#[derive(Clone, Copy, Debug, PartialEq, Eq)]
pub struct BufferId {
    /// Its number, counted from 0.
    pub number: u32,
}

/// A block that is to be written to its page.
#[derive(Debug, Drop)]
pub struct WriteJob {
    /// The block's place.
    pub place: Place,
    /// Its bytes: records one after the other, then zeros.
    pub bytes: Blob,
}

/// The write buffers, the queue of those that are sealed, and one buffer more, whose bytes a job takes along.
#[derive(Debug, Drop)]
pub struct Buffers {
    rows: Vec<Buffer>,
    queue: Vec<u32>,
    job_buffer: Option<Blob>,
    size: u32,
}

impl Model for Buffers {
    ghost use Rattle.std.specs.Prelude.{◌≡◌, length, is_none, vec_capacity};
    ghost use Rattle.std.specs.Option.{ForSome};
    ghost use Rattle.flash_buffers.specs.Block.{blocks_in};
    ghost use Rattle.flash_buffers.specs.BufferTable.{BufferTable};
    ghost use Rattle.flash_buffers.specs.Sound.{IsSound};

    ghost Value = { BufferTable };

    ghost view = { λ b. record { size = b.size; blocks = blocks_in b.rows.items; queue = b.queue.items; in_flight = is_none b.job_buffer } };

    ghost invariant = { λ b. IsSound b.size b.rows.items b.queue.items (vec_capacity b.queue) × ForSome b.job_buffer (λ bytes. length bytes ≡ b.size) };
}

impl Buffers {
    ghost use Rattle.flash_buffers.specs.Calls.{table_after, takes, appends, seals, begins, writes, unwrites, drops, next_job, is_idle, IsInFlight, IsNotInFlight, CanTake};

    /// So many free buffers of so many bytes, and one more for jobs, or an error where memory runs out. No later call answers that.
    pub fn open(alloc: Global, buffers: u32, size: u32) -> Result<Buffers, AllocError>
        ensures { IfOk result (λ all. all ≡ first_table buffers size) }
    {
        let mut rows = Vec::with_capacity(alloc, buffers as usize)?;
        'rows: for _ in 0..buffers {
            rows.push(Buffer::new(alloc, size)?)?;
        }
        Ok(Buffers {
            rows,
            queue: Vec::with_capacity(alloc, buffers as usize)?,
            job_buffer: Some(Blob::from(vec![in alloc; 0; size as usize]?)),
            size,
        })
    }

    /// Whether a buffer is free.
    pub fn has_free(&self) -> bool
        ensures { result ≡ is_some (first_free self.now) }
    {
        first_free(&self.rows).is_some()
    }

    /// Takes the free buffer of lowest number, zeroed, for the block of this label from this offset of its
    /// page on; `None` where no buffer is free. The range has to end below 2^32 bytes of the page, and no
    /// buffer of the label may have a byte of it.
    pub fn take(&mut self, label: Label, offset: u32) -> Option<BufferId>
        requires { CanTake self.old label offset }
        ensures exact { result ≡ option_map (λ number. record { number = number }) (first_free self.old) }
        ensures unsealed { IfSome result (λ id. IsOpen self.new id.number) }
        ensures after { self.new ≡ table_after (takes label offset) self.old }
    {
        let number = first_free(&self.rows)?;
        let row = &mut self.rows[number as usize];
        row.take(label, offset);
        Some(BufferId { number })
    }

    /// Whether a record of so many bytes fits in the rest of the buffer, which has to be taken and not sealed.
    pub fn fits(&self, id: BufferId, length: usize) -> bool
        requires { IsOpen self.now id.number }
        ensures { option_map (λ block. fits_in self.now.size length block) (block_of self.now id.number) ≡ Some result }
    {
        let row = &self.rows[id.number as usize];
        row.fits(length)
    }

    /// Writes the record of these parts, with the version of the buffer's label, after those that are there,
    /// and answers its place; `None`, and nothing has changed, where it doesn't fit in the rest. The buffer has
    /// to be taken and not sealed.
    pub fn append(
        &mut self,
        id: BufferId,
        key: &Key,
        flags: u32,
        cas: u64,
        value: &[u8],
    ) -> Option<Place>
        requires { IsOpen self.old id.number }
        ensures place { result ≡ place_in self.old.size key.now flags cas value.now (block_of self.old id.number) }
        ensures after { self.new ≡ table_after (appends id.number key.now flags cas value.now) self.old }
    {
        let row = &mut self.rows[id.number as usize];
        row.append(key, flags, cas, value)
    }

    /// Puts the buffer at the end of the queue of those that are to be written. It has to be taken and not
    /// sealed.
    pub fn seal(&mut self, id: BufferId)
        requires { IsOpen self.old id.number }
        ensures { self.new ≡ table_after (seals id.number) self.old }
    {
        put_last(&mut self.queue, id.number);
    }

    /// The oldest sealed buffer's bytes, copied into the buffer for jobs; `None` where none is sealed or a job is
    /// out. The job has to be given back by `written` or `unwritten`.
    pub fn write_begin(&mut self) -> Option<WriteJob>
        ensures exact { result ≡ next_job self.old }
        ensures whole { IfSome result (λ job. length job.bytes ≡ self.old.size) }
        ensures none { (result ≡ None) ↔ IsTrue (is_idle self.old) }
        ensures after { self.new ≡ table_after begins self.old }
    {
        let number = *self.queue.first()?;
        let place = self.rows[number as usize].place()?;
        let job_buffer = self.job_buffer.take()?;
        let row = &self.rows[number as usize];
        Some(WriteJob {
            place,
            bytes: filled(job_buffer, row.bytes()),
        })
    }

    /// Takes back the job of a block that was written: its buffer is free. It has to be the job that is out.
    pub fn written(&mut self, job: WriteJob)
        requires { IsInFlight self.old job }
        ensures { self.new ≡ table_after (writes job) self.old }
    {
        self.take_back(job);
        let number = self.queue.remove(0);
        let row = &mut self.rows[number as usize];
        row.clear();
    }

    /// Takes back the job of a block that wasn't written: its buffer is still the first of the queue. It has to
    /// be the job that is out.
    pub fn unwritten(&mut self, job: WriteJob)
        requires { IsInFlight self.old job }
        ensures { self.new ≡ table_after (unwrites job) self.old }
    {
        self.take_back(job);
    }

    /// Frees the buffers of the label. No job of the label may be out.
    pub fn drop_of(&mut self, label: Label)
        requires { IsNotInFlight self.old label }
        ensures { self.new ≡ table_after (drops label) self.old }
    {
        clear_label(&mut self.rows, label);
        keep_taken(&mut self.queue, &self.rows);
    }

    /// The bytes of the place, where a buffer of its label covers it.
    pub fn read(&self, place: Place) -> Option<&[u8]>
        ensures exact { option_copied result ≡ read_of self.now place }
        ensures whole { IfSome result (λ bytes. length bytes.now ≡ place.length) }
    {
        let number = first_covering(&self.rows, self.size, place)?;
        let row = &self.rows[number];
        Some(row.read(place))
    }

    // The job's bytes are the buffer for jobs again: they are as many as the bytes of each buffer.
    fn take_back(&mut self, job: WriteJob)
        requires { IsInFlight self.old job }
        ensures { self.new ≡ table_after (unwrites job) self.old }
    {
        // Read for the proof: the first buffer's size is that of the buffer for jobs.
        let row = &self.rows[self.queue[0] as usize];
        let _size = row.bytes().len();
        self.job_buffer = Some(job.bytes);
    }
}

// The bytes, in the blob's memory.
fn filled(blob: Blob, bytes: &[u8]) -> Blob
    requires { length blob ≡ length bytes.now }
    ensures { result ≡ bytes.now }
{
    let mut blob = blob;
    blob.bytes_mut().copy_from_slice(bytes);
    blob
}

fn first_free(rows: &[Buffer]) -> Option<u32>
    requires { length rows.now < 2 ^ 32 }
    ensures first { result ≡ position_from (λ block. is_none block) 0 (blocks_in rows.now) }
    ensures inside { IfSome result (λ number. number < length rows.now) }
{
    let mut number = 0;
    'rows: for row in rows {
        if row.is_free() {
            return Some(number);
        }
        number += 1;
    }
    None
}

// The number of the first buffer that covers the place.
fn first_covering(rows: &[Buffer], size: u32, place: Place) -> Option<usize>
    requires { All (λ slot. slot.size ≡ size) rows.now }
    ensures { MatchOption result (read_in size place (blocks_in rows.now) ≡ None) (Covers size place rows.now) }
{
    'rows: for (number, row) in rows.iter().enumerate() {
        if row.covers(place) {
            return Some(number);
        }
    }
    None
}

// Puts a number at the end of the queue, which has room for it.
fn put_last(queue: &mut Vec<u32>, number: u32)
    requires { vec_len queue.old < vec_capacity queue.old }
    ensures last { queue.new.items ≡ queue.old.items ++ number ∷ [] }
    ensures room { vec_capacity queue.old ≤ vec_capacity queue.new }
{
    let _ = queue.push(number);
}

// Clears the buffers of the label.
fn clear_label(rows: &mut [Buffer], label: Label)
    ensures { rows.new ≡ map (slot_without label) rows.old }
{
    'rows: for row in rows.iter_mut() {
        row.drop_label(label);
    }
}

// Takes the numbers of free buffers out of the queue.
fn keep_taken(queue: &mut Vec<u32>, rows: &[Buffer])
    ensures kept { queue.new.items
        ≡ filter (λ number. is_some (slice_index_or rows.now number free_slot).block) queue.old.items }
    ensures room { vec_capacity queue.new ≡ vec_capacity queue.old }
{
    queue.retain(|number| is_taken(rows, *number));
}

fn is_taken(rows: &[Buffer], number: u32) -> bool
    ensures { result ≡ is_some (slice_index_or rows.now number free_slot).block }
{
    match rows.get(number as usize) {
        None => false,
        Some(row) => !row.is_free(),
    }
}
