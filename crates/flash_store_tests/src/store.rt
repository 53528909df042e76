ghost use Rattle.std.specs.Prelude.{◌≡◌, [], Some, IfOk};

use flash_calls::Found;
use flash_core::{Core, OpenWhy};
use flash_entry::{Counted, Kept, Look, Mode, Put, Stored};
use flash_names::{Blob, Geometry, Id, Key};
use std::alloc::{AllocError, Global};
use std::test::Fail;

const GEOMETRY: Geometry = Geometry {
    memory: 4096,
    item_size: 64,
    item_max: 1024,
    pages: 3,
    page_size: 512,
    buffer_size: 256,
    buffers: 3,
    compact_under: 1,
    drop_under: 0,
    max_frag: 80,
    recache: 0,
};

const LOOK: Look = Look {
    value: true,
    renew: None,
};

fn id(seq: u64) -> Id
    ensures { result ≡ record { pass = 1; seq = seq } }
{
    Id { pass: 1, seq }
}

fn key(name: &[u8]) -> Result<Key, AllocError> {
    Key::from_bytes(name).ok_or(AllocError)
}

fn put(alloc: Global, value: &[u8]) -> Result<Put, AllocError> {
    Ok(Put {
        key: key(b"a")?,
        mode: Mode::Set,
        flags: 5,
        exptime: 0,
        compare: None,
        value: Blob::from_slice(alloc, value)?,
    })
}

fn open_counted(alloc: Global) -> Result<Core<Counted>, AllocError> {
    Core::open(alloc, GEOMETRY, Counted::new()).map_err(|_| AllocError)
}

fn open_kept(alloc: Global) -> Result<Core<Kept>, AllocError>
    ensures { IfOk result (λ core. core.told ≡ Some []) }
{
    Core::open(alloc, GEOMETRY, Kept::new(alloc)).map_err(|_| AllocError)
}

#[test]
fn refuses_a_geometry(rt: HostRuntime) {
    let bad = Geometry {
        buffers: 2,
        ..GEOMETRY
    };
    let why = Core::open(rt.alloc(), bad, Counted::new())
        .err()
        .map(|error| error.why);
    assert_eq!(rt; why, Some(OpenWhy::BadGeometry(5)));
}

#[test]
fn clock_never_falls(rt: HostRuntime) -> Result<(), Fail> {
    let mut core = open_counted(rt.alloc())?;
    let table = [
        (0, false),
        (5, true),
        (5, false),
        (4, false),
        (1 << 62, true),
        ((1 << 62) + 1, false),
        (u64::MAX, false),
    ];
    for (reading, rose) in table {
        assert_eq!(rt; core.clock(reading)?, rose, "{reading}");
    }
    Ok(())
}

// Stores one value.
fn note_a_store(core: &mut Core<Kept>, alloc: Global) -> Result<Stored, AllocError>
    requires { core.old.told ≡ Some [] }
{
    let put = put(alloc, b"x")?;
    core.store(alloc, id(1), &put)
}

// Looks a value up, and tells whether it is found.
fn note_a_lookup(core: &mut Core<Kept>, alloc: Global) -> Result<bool, AllocError>
    requires { core.old.told ≡ Some [] }
{
    let name = key(b"a")?;
    let found = core.look(alloc, id(1), &name, LOOK)?;
    Ok(matches!(found, Found::Here(_)))
}

#[test]
fn keeps_its_store(rt: HostRuntime) -> Result<(), Fail> {
    let mut core = open_kept(rt.alloc())?;
    assert_eq!(rt; note_a_store(&mut core, rt.alloc())?, Stored::Stored(1));
    assert_eq!(rt; core.journal().entries().len(), 1);
    Ok(())
}

#[test]
fn keeps_its_lookup(rt: HostRuntime) -> Result<(), Fail> {
    let mut core = open_kept(rt.alloc())?;
    assert!(rt; !note_a_lookup(&mut core, rt.alloc())?);
    assert_eq!(rt; core.into_journal().entries().len(), 1);
    Ok(())
}

#[test]
fn keeps_its_clock(rt: HostRuntime) -> Result<(), Fail> {
    let mut core = open_kept(rt.alloc())?;
    assert!(rt; core.clock(7)?);
    assert_eq!(rt; core.journal().entries().len(), 1);
    Ok(())
}
