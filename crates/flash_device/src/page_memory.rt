ghost use Rattle.std.specs.Prelude.{◌≡◌, ℕ, ◌+◌, ◌/◌, ◌<◌, ◌≤◌, [], List, length, take, get_or, replicate, set, IfOk, IsSomeAnd, None, Some, OnOk, OnErr};
ghost use Rattle.flash_device.specs.Memory.{Held, IsFitted, blank};
ghost use Rattle.flash_device.specs.Pages.{shape_with, Within, range_of, put_at, pages_with};

use crate::Shape;
use flash_names::Blob;
use std::alloc::{AllocError, Global};
use std::marker::Model;

/// Pages in memory.
#[derive(Debug, Drop)]
pub struct PageMemory {
    alloc: Global,
    shape: Option<Shape>,
    pages: Vec<Blob>,
}

impl Model for PageMemory {
    ghost Value = { Held };

    ghost view = { λ m. record { shape = m.shape; pages = m.pages.items } };

    ghost invariant = { λ m. IsFitted m.shape m.pages.items };
}

impl PageMemory {
    /// No pages.
    pub fn new(alloc: Global) -> PageMemory
        ensures { result ≡ record { shape = None; pages = [] } }
    {
        PageMemory {
            alloc,
            shape: None,
            pages: Vec::new(alloc),
        }
    }

    /// So many pages of so many zero bytes, in place of those before.
    pub fn prepare(&mut self, pages: u32, page_size: u32) -> Result<(), AllocError>
        ensures ready { OnOk result (self.new ≡ blank (shape_with pages page_size)) }
        ensures refused { OnErr result (self.new ≡ self.old) }
    {
        self.pages = zero_pages(self.alloc, pages, page_size as usize)?;
        self.shape = Some(Shape { pages, page_size });
        Ok(())
    }

    /// Copies the bytes at a place.
    pub fn read(&self, page: u32, offset: u32, into: &mut [u8])
        requires { IsSomeAnd self.now.shape (Within page offset (length into.old)) }
        ensures { into.new ≡ range_of page offset (length into.old) self.now.pages }
    {
        let at = offset as usize;
        let end = at + into.len();
        into.copy_from_slice(&self.pages[page as usize].bytes()[at..end]);
    }

    /// Puts these bytes at a place.
    pub fn write(&mut self, page: u32, offset: u32, bytes: &[u8])
        requires { IsSomeAnd self.old.shape (Within page offset (length bytes.now)) }
        ensures shape { self.new.shape ≡ self.old.shape }
        ensures pages { self.new.pages ≡ pages_with page offset bytes.now self.old.pages }
    {
        put(&mut self.pages[page as usize], offset as usize, bytes);
    }

    /// Puts the first half of these bytes at a place, as a write that is cut off.
    pub fn write_half(&mut self, page: u32, offset: u32, bytes: &[u8])
        requires { IsSomeAnd self.old.shape (Within page offset (length bytes.now)) }
        ensures shape { self.new.shape ≡ self.old.shape }
        ensures pages { self.new.pages ≡ pages_with page offset (take (length bytes.now / 2) bytes.now) self.old.pages }
        ensures spoiled { (left : List ℕ) × (length left ≡ length bytes.now)
            × (self.new.pages ≡ pages_with page offset left self.old.pages) }
    {
        put_half(&mut self.pages[page as usize], offset as usize, bytes);
    }
}

fn zero_pages(alloc: Global, pages: u32, page_size: usize) -> Result<Vec<Blob>, AllocError>
    ensures { IfOk result (λ all. all.items ≡ replicate pages (replicate page_size 0)) }
{
    let mut all = Vec::new(alloc);
    'pages: for _ in 0..pages {
        all.push(Blob::from(vec![in alloc; 0u8; page_size]?))?;
    }
    Ok(all)
}

fn put(page: &mut Blob, offset: usize, bytes: &[u8])
    requires { offset + length bytes.now ≤ length page.old }
    ensures { page.new ≡ put_at offset bytes.now page.old }
{
    page.bytes_mut()[offset..offset + bytes.len()].copy_from_slice(bytes);
}

fn put_half(page: &mut Blob, offset: usize, bytes: &[u8])
    requires { offset + length bytes.now ≤ length page.old }
    ensures half { page.new ≡ put_at offset (take (length bytes.now / 2) bytes.now) page.old }

    // That is one way of putting as many bytes there as were given.
    ensures spoiled { (left : List ℕ) × (length left ≡ length bytes.now) × (page.new ≡ put_at offset left page.old) }
{
    put(page, offset, &bytes[..bytes.len() / 2]);
}
