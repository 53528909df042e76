ghost use Rattle.std.specs.Prelude.{◌≡◌, ℕ, ◌+◌, ◌-◌, ◌^◌, ◌<◌, ◌≤◌, ◌++◌, nat_le, if◌then◌else◌, take, drop, replicate, IfNone, length, IfOk, IfSome, IsTrue, is_none, [], Option, Some, None, option_map};
ghost use Rattle.flash_record.specs.Record.{parts_with, Parts, record_bytes, record_length};
ghost use Rattle.flash_buffers.specs.Block.{Slot, block_bytes, block_place, fits_in, place_in, block_with_record};
ghost use Rattle.flash_buffers.specs.BufferTable.{slot_without};
ghost use Rattle.flash_buffers.specs.Covering.{has_label, covers, bytes_in};

use flash_names::{Key, Label, Place};
use flash_record::write_record;
use std::alloc::{AllocError, Global};
use std::marker::Model;

/// A write buffer: free, or taken by a block of a page.
#[derive(Debug, Drop)]
pub struct Buffer {
    label: Option<Label>,
    offset: u32,
    used: usize,
    bytes: Vec<u8>,
}

impl Model for Buffer {
    ghost use Rattle.std.specs.Prelude.{◌≡◌, ◌+◌, ◌-◌, ◌^◌, ◌<◌, ◌≤◌, length, take, drop, replicate, option_map};
    ghost use Rattle.flash_buffers.specs.Block.{Slot};

    ghost Value = { Slot };

    ghost view = { λ b. record {
      size = length b.bytes.items;
      block = option_map (λ label. record { label = label; offset = b.offset; records = take b.used b.bytes.items }) b.label;
    } };

    // After its records a buffer has zeros.
    ghost invariant = { λ b. (b.used ≤ length b.bytes.items) × (b.offset + length b.bytes.items < 2 ^ 32)
        × (drop b.used b.bytes.items ≡ replicate (length b.bytes.items - b.used) 0) };
}

impl Buffer {
    /// A free buffer of this size, or an error where memory runs out.
    pub fn new(alloc: Global, size: u32) -> Result<Buffer, AllocError>
        ensures { IfOk result (λ buffer. buffer ≡ record { size = size; block = None }) }
    {
        Ok(Buffer {
            label: None,
            offset: 0,
            used: 0,
            bytes: vec![in alloc; 0; size as usize]?,
        })
    }

    /// Whether it is free.
    pub fn is_free(&self) -> bool
        ensures { result ≡ is_none self.now.block }
    {
        self.label.is_none()
    }

    /// Whether it is taken by a block of this label.
    pub fn has_label(&self, label: Label) -> bool
        ensures { result ≡ has_label label self.now.block }
    {
        match self.label {
            None => false,
            Some(own) => own.is_same(label),
        }
    }

    /// A block of this label, from this offset of its page on, takes it. It has no records yet.
    pub fn take(&mut self, label: Label, offset: u32)
        requires { offset + self.old.size < 2 ^ 32 }
        ensures { self.new ≡ record self.old {
          block = Some
              (record { label = label; offset = offset; records = [] });
        } }
    {
        zero_front(&mut self.bytes, self.used);
        self.label = Some(label);
        self.offset = offset;
        self.used = 0;
    }

    /// Frees it.
    pub fn clear(&mut self)
        ensures { self.new ≡ record self.old { block = None } }
    {
        self.label = None;
    }

    /// Frees it, if it is taken by a block of this label.
    pub fn drop_label(&mut self, label: Label)
        ensures { self.new ≡ slot_without label self.old }
    {
        if self.has_label(label) {
            self.clear();
        }
    }

    /// Its bytes: the records, then zeros.
    pub fn bytes(&self) -> &[u8]
        ensures bytes { IfSome self.now.block (λ block. result.now ≡ block_bytes self.now.size block) }
        ensures len { length result.now ≡ self.now.size }
    {
        &self.bytes
    }

    /// The place of its block in the page.
    pub fn place(&self) -> Option<Place>
        ensures { result ≡ option_map (λ block. block_place self.now.size block) self.now.block }
    {
        let label = self.label?;
        Some(Place {
            label,
            offset: self.offset,
            length: self.bytes.len() as u32,
        })
    }

    /// Whether a record of so many bytes fits after those that are there.
    pub fn fits(&self, length: usize) -> bool
        ensures { IfSome self.now.block (λ block. result ≡ fits_in self.now.size length block) }
    {
        length <= self.bytes.len() - self.used
    }

    /// Whether it is taken by a block of the place's label that the place lies in.
    pub fn covers(&self, place: Place) -> bool
        ensures { result ≡ covers self.now.size place self.now.block }
    {
        let begin = u64::from(self.offset);
        let end = begin + self.bytes.len() as u64;
        let place_begin = u64::from(place.offset);
        let place_end = place_begin + u64::from(place.length);
        self.has_label(place.label) && begin <= place_begin && place_end <= end
    }

    /// The bytes of a place that it covers.
    pub fn read(&self, place: Place) -> &[u8]
        requires { IsTrue (covers self.now.size place self.now.block) }
        ensures exact { result.now ≡ bytes_in self.now.size place self.now.block }
        ensures whole { length result.now ≡ place.length }
    {
        let start = (place.offset - self.offset) as usize;
        &self.bytes[start..start + place.length as usize]
    }

    /// Writes the record of these parts, with the version of its label, after those that are there, and
    /// answers its place; `None` where it doesn't fit.
    pub fn append(&mut self, key: &Key, flags: u32, cas: u64, value: &[u8]) -> Option<Place>
        ensures place { result ≡ place_in self.old.size key.now flags cas value.now self.old.block }
        ensures after { let block = block_with_record self.old.size key.now flags cas value.now self.old.block in
            self.new ≡ record self.old { block = block } }
    {
        let label = self.label?;
        let used = self.used;
        let length = write_behind(&mut self.bytes, used, key, flags, cas, label.version, value)?;
        self.used = used + length;
        Some(Place {
            label,
            offset: self.offset + used as u32,
            length: length as u32,
        })
    }
}

// Sets the bytes before those that are zero.
fn zero_front(bytes: &mut [u8], used: usize)
    requires used { used ≤ length bytes.old }
    requires zeros { drop used bytes.old ≡ replicate (length bytes.old - used) 0 }
    ensures { bytes.new ≡ replicate (length bytes.old) 0 }
{
    bytes[..used].fill(0);
}

// Writes the record after the used bytes, and answers its length; `None` where it doesn't fit.
fn write_behind(
    bytes: &mut [u8],
    used: usize,
    key: &Key,
    flags: u32,
    cas: u64,
    version: u64,
    value: &[u8],
) -> Option<usize>
    requires used { used ≤ length bytes.old }
    requires short { length bytes.old < 2 ^ 32 }
    ensures answer { let p = parts_with key.now flags cas version value.now in
        result ≡ (if nat_le (used + record_length p) (length bytes.old) then Some (record_length p) else None) }
    ensures written { let p = parts_with key.now flags cas version value.now in
        IfSome result (λ n. bytes.new ≡ take used bytes.old ++ (record_bytes p ++ drop (used + n) bytes.old)) }
    ensures inside { IfSome result (λ n. used + n ≤ length bytes.old) }
    ensures refused { IfNone result (bytes.new ≡ bytes.old) }
{
    write_record(&mut bytes[used..], key, flags, cas, version, value)
}
