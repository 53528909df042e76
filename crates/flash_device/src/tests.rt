use super::*;
use std::sync::Arc;
use std::test::Fail;
use std::{fs, process};

#[test]
fn holds_what_was_written(rt: HostRuntime) -> Result<(), Fail> {
    let mut device = FaultlessDevice::new(rt.alloc());
    assert_eq!(rt; device.prepare(2, 4), Ok(()));
    assert_eq!(rt; device.write(1, 1, b"ab"), Ok(()));
    let mut bytes = [9; 4];
    assert_eq!(rt; device.read(1, 0, &mut bytes), Ok(()));
    assert_eq!(rt; bytes, [0, b'a', b'b', 0]);
    assert_eq!(rt; device.read(0, 0, &mut bytes), Ok(()));
    assert_eq!(rt; bytes, [0; 4]);
    Ok(())
}

#[test]
fn fails_in_the_planned_calls(rt: HostRuntime) -> Result<(), Fail> {
    let mut device = MemoryDevice::new(rt.alloc(), vec![in rt.alloc(); 1, 4, 6]?);
    assert_eq!(rt; device.prepare(1, 8), Err(PrepareError::Fault));
    assert_eq!(rt; device.prepare(1, 8), Ok(()));
    assert_eq!(rt; device.write(0, 0, b"abcdefgh"), Ok(()));
    assert_eq!(rt; device.write(0, 2, b"1234"), Err(DeviceFault));
    let mut bytes = [9; 8];
    assert_eq!(rt; device.read(0, 0, &mut bytes), Ok(()));
    assert_eq!(rt; bytes, *b"ab12efgh");
    assert_eq!(rt; device.read(0, 0, &mut bytes), Err(DeviceFault));
    Ok(())
}

#[test]
fn is_prepared_anew(rt: HostRuntime) -> Result<(), Fail> {
    let mut device = MemoryDevice::new(rt.alloc(), vec![in rt.alloc()]?);
    assert_eq!(rt; device.prepare(1, 2), Ok(()));
    assert_eq!(rt; device.write(0, 0, b"ab"), Ok(()));
    assert_eq!(rt; device.prepare(3, 2), Ok(()));
    let mut bytes = [9; 2];
    assert_eq!(rt; device.read(0, 0, &mut bytes), Ok(()));
    assert_eq!(rt; bytes, [0; 2]);
    assert_eq!(rt; device.read(2, 2, &mut bytes[..0]), Ok(()));
    Ok(())
}

// Both devices through the trait alone.
#[test]
fn serves_the_trait(rt: HostRuntime) -> Result<(), Fail> {
    let mut planned = MemoryDevice::new(rt.alloc(), vec![in rt.alloc(); 3]?);
    let mut faultless = FaultlessDevice::new(rt.alloc());
    assert_eq!(rt; first_and_last(&mut planned), None);
    assert_eq!(rt; first_and_last(&mut faultless), Some((b'x', 0)));
    Ok(())
}

// The first and last byte of a page after a write of its first.
fn first_and_last<D: Device>(device: &mut D) -> Option<(u8, u8)> {
    device.prepare(1, 2).ok()?;
    device.write(0, 0, b"x").ok()?;
    let mut bytes = [9; 2];
    device.read(0, 0, &mut bytes).ok()?;
    Some((bytes[0], bytes[1]))
}

#[test]
fn damages_one_byte(rt: HostRuntime) -> Result<(), Fail> {
    let memory = MemoryDevice::new(rt.alloc(), vec![in rt.alloc()]?);
    let mut device = DamagedDevice::new(memory, 1, 2);
    assert_eq!(rt; device.prepare(2, 4), Ok(()));
    assert_eq!(rt; device.write(1, 0, b"abcd"), Ok(()));
    let mut bytes = [9; 3];
    assert_eq!(rt; device.read(1, 1, &mut bytes), Ok(()));
    assert_eq!(rt; bytes, *b"bbd");
    assert_eq!(rt; device.read(0, 1, &mut bytes), Ok(()));
    assert_eq!(rt; bytes, [0; 3]);
    Ok(())
}

#[test]
fn waits_for_its_gate(rt: HostRuntime) -> Result<(), Fail> {
    let gate = Arc::new(rt.alloc(), Gate::new())?;
    let behind = FaultlessDevice::new(rt.alloc());
    let mut device = GatedDevice::new(behind, Arc::try_clone(&gate)?, 3);
    assert_eq!(rt; device.prepare(1, 2), Ok(()));
    assert_eq!(rt; device.write(0, 0, b"ab"), Ok(()));
    let mut bytes = [9; 2];
    assert_eq!(rt; device.read(0, 0, &mut bytes), Err(DeviceFault));
    gate.open();
    assert_eq!(rt; device.read(0, 0, &mut bytes), Ok(()));
    assert_eq!(rt; bytes, *b"ab");
    Ok(())
}

#[test]
fn keeps_its_bytes_in_a_file(rt: HostRuntime) -> Result<(), Fail> {
    let path = format!(in rt.alloc(); "/tmp/flash_device_{}", process::id(rt.process()))?;
    let mut device = FileDevice::open(&rt, path.as_str())?;
    assert_eq!(rt; device.prepare(3, 4), Ok(()));
    assert_eq!(rt; device.write(2, 1, b"abc"), Ok(()));
    let mut second = device.handle()?;
    let mut bytes = [9; 4];
    assert_eq!(rt; second.read(2, 0, &mut bytes), Ok(()));
    assert_eq!(rt; bytes, [0, b'a', b'b', b'c']);
    let mut third = FileDevice::open_prepared(&rt, path.as_str(), 3, 4)?;
    assert_eq!(rt; third.read(2, 2, &mut bytes[..2]), Ok(()));
    assert_eq!(rt; bytes, [b'b', b'c', b'b', b'c']);
    fs::remove_file(&rt, path.as_str())?;
    assert!(rt; FileDevice::open(&rt, "/tmp").is_err());
    Ok(())
}

#[test]
fn prints_its_errors(rt: HostRuntime) -> Result<(), Fail> {
    let fault = format!(in rt.alloc(); "{}", DeviceFault)?;
    assert_eq!(rt; fault.as_str(), "the device failed to read or to write");
    let unprepared = format!(in rt.alloc(); "{}", PrepareError::Fault)?;
    assert_eq!(rt; unprepared.as_str(), "the device can't be prepared");
    let crowded = format!(in rt.alloc(); "{}", PrepareError::NoMemory)?;
    assert_eq!(rt; crowded.as_str(), "out of memory");
    Ok(())
}
