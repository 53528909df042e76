ghost use Rattle.flash_device.specs.Pages.{shape_with};
ghost use Rattle.std.specs.Prelude.{◌≡◌, ◌+◌, ◌*◌, ◌≤◌, None, Some, IfOk, OnOk, OnErr, IsTrue, is_err, length};
ghost use Rattle.flash_names.specs.Faults.{Rose, next_count};
ghost use Rattle.flash_device.specs.Calls.{is_fault};

use crate::{Device, DeviceFault, PrepareError, Shape};
use std::fs::{OpenFile, OpenOptions};
use std::io;
use std::io::ErrorKind;
use std::os::unix::fs::FileExt;
use std::rt::Files;

/// A file as a device: its pages are one after the other in it. It tells neither its bytes nor its calls. What the
/// file holds rests with the system; nothing outside the file is written. Several threads may each have a handle.
#[derive(Drop)]
pub struct FileDevice<F> {
    file: F,
    shape: Option<Shape>,
    faults: u64,
}

impl<F: FileExt + OpenFile> FileDevice<F> {
    ghost use Rattle.flash_device.specs.FileDevice.{shape_of, faults_of};

    /// The device over the file of this path, which is made where it isn't there. It isn't prepared. The error says
    /// why the file can't be opened, as a directory or one without the permission.
    pub fn open<R: Files<File = F>>(rt: &R, path: &str) -> io::Result<FileDevice<F>>
        ensures shape { IfOk result (λ device. shape_of device ≡ None) }
        ensures faults { IfOk result (λ device. faults_of device ≡ 0) }
    {
        let file = OpenOptions::new()
            .read(true)
            .write(true)
            .create(true)
            .open(rt, path)?;
        Ok(FileDevice {
            file,
            shape: None,
            faults: 0,
        })
    }

    /// A further handle on the file, which was prepared for these numbers by another one and counts as prepared for
    /// them.
    pub fn open_prepared<R: Files<File = F>>(
        rt: &R,
        path: &str,
        pages: u32,
        page_size: u32,
    ) -> io::Result<FileDevice<F>>
        ensures shape { IfOk result (λ device. shape_of device ≡ Some (shape_with pages page_size)) }
        ensures faults { IfOk result (λ device. faults_of device ≡ 0) }
    {
        let mut device = FileDevice::open(rt, path)?;
        device.shape = Some(Shape { pages, page_size });
        Ok(device)
    }

    /// A further handle on the same open file, prepared as this one, with a count of faults of its own.
    pub fn handle(&self) -> io::Result<FileDevice<F>>
        ensures shape { IfOk result (λ device. shape_of device ≡ shape_of self.now) }
        ensures faults { IfOk result (λ device. faults_of device ≡ 0) }
    {
        let file = self.file.try_clone()?;
        Ok(FileDevice {
            file,
            shape: self.shape,
            faults: 0,
        })
    }

    // Counts a fault.
    fn count(&mut self)
        ensures shape { shape_of self.new ≡ shape_of self.old }
        ensures faults { faults_of self.new ≡ next_count (faults_of self.old) }
        ensures kept { faults_of self.old ≤ faults_of self.new }
    {
        self.faults = self.faults.saturating_add(1);
    }
}

impl<F: FileExt + OpenFile> Device for FileDevice<F> {
    ghost use Rattle.flash_device.specs.FileDevice.{shape_of, faults_of};

    ghost content = { λ _. None };

    ghost calls = { λ _. None };

    ghost prepared = { λ d. shape_of d };

    ghost faults = { λ d. faults_of d };

    fn prepare(&mut self, pages: u32, page_size: u32) -> Result<(), PrepareError>
        ensures ready { OnOk result (shape_of self.new ≡ Some (shape_with pages page_size)) }
        ensures refused { OnErr result (shape_of self.new ≡ shape_of self.old) }
        ensures kept { faults_of self.old ≤ faults_of self.new }
        ensures cause { IsTrue (is_fault result) → Rose (faults_of self.old) (faults_of self.new) }

        // It takes no memory: every error is a fault.
        ensures memory { is_fault result ≡ is_err result }
    {
        let bytes = u64::from(pages) * u64::from(page_size);
        match self.file.set_len(bytes) {
            Ok(()) => {
                self.shape = Some(Shape { pages, page_size });
                Ok(())
            }
            Err(_) => {
                self.count();
                Err(PrepareError::Fault)
            }
        }
    }

    fn read(&mut self, page: u32, offset: u32, into: &mut [u8]) -> Result<(), DeviceFault> {
        let Some(shape) = self.shape else {
            unreachable!()
        };
        match read_whole(&self.file, into, offset_in_file(shape, page, offset)) {
            Ok(_) => Ok(()),
            Err(_) => {
                self.count();
                Err(DeviceFault)
            }
        }
    }

    fn write(&mut self, page: u32, offset: u32, bytes: &[u8]) -> Result<(), DeviceFault> {
        let Some(shape) = self.shape else {
            unreachable!()
        };
        match write_whole(&self.file, bytes, offset_in_file(shape, page, offset)) {
            Ok(_) => Ok(()),
            Err(_) => {
                self.count();
                Err(DeviceFault)
            }
        }
    }
}

// The offset in the file of a byte of a page.
fn offset_in_file(shape: Shape, page: u32, offset: u32) -> u64
    ensures { result ≡ page * shape.page_size + offset }
{
    u64::from(page) * u64::from(shape.page_size) + u64::from(offset)
}

// Reads as many bytes as the slice has from this offset of the file on, in as many calls as it takes, and answers how
// many it read. A file that ends before is an error.
fn read_whole<F: FileExt>(file: &F, into: &mut [u8], offset: u64) -> io::Result<usize>
    ensures whole { IfOk result (λ count. count ≡ length into.old) }
{
    let mut count = 0;
    'calls: for _ in 0..u64::MAX {
        if count >= into.len() {
            return Ok(count);
        }
        match file.read_at(&mut into[count..], offset.saturating_add(count as u64)) {
            Ok(0) => return Err(io::Error::from(ErrorKind::UnexpectedEof)),
            Ok(n) => count += n,
            Err(e) if e.kind() == ErrorKind::Interrupted => {}
            Err(e) => return Err(e),
        }
    }
    Err(io::Error::from(ErrorKind::TimedOut))
}

// Writes the bytes from this offset of the file on, in as many calls as it takes, and answers how many it wrote.
fn write_whole<F: FileExt>(file: &F, bytes: &[u8], offset: u64) -> io::Result<usize>
    ensures whole { IfOk result (λ count. count ≡ length bytes.now) }
{
    let mut count = 0;
    'calls: for _ in 0..u64::MAX {
        if count >= bytes.len() {
            return Ok(count);
        }
        match file.write_at(&bytes[count..], offset.saturating_add(count as u64)) {
            Ok(0) => return Err(io::Error::from(ErrorKind::WriteZero)),
            Ok(n) => count += n,
            Err(e) if e.kind() == ErrorKind::Interrupted => {}
            Err(e) => return Err(e),
        }
    }
    Err(io::Error::from(ErrorKind::TimedOut))
}
