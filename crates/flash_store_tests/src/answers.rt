ghost use Rattle.std.specs.Prelude.{◌≡◌, None, IfOk, OnOk};

use flash_answers::do_ask;
use flash_core::Core;
use flash_entry::{
    Arith, Ask, Counted, Gone, Look, LookAnswer, Mode, Put, Stored, Sum, Told, Touched,
};
use flash_names::{Blob, Geometry, Id, Key};
use std::alloc::{AllocError, Global};
use std::test::Fail;

const GEOMETRY: Geometry = Geometry {
    memory: 4096,
    item_size: 64,
    item_max: 1024,
    pages: 3,
    page_size: 512,
    buffer_size: 256,
    buffers: 3,
    compact_under: 1,
    drop_under: 0,
    max_frag: 80,
    recache: 0,
};

fn key() -> Result<Key, AllocError> {
    Key::from_bytes(b"n").ok_or(AllocError)
}

fn open(alloc: Global) -> Result<Core<Counted>, AllocError>
    ensures { IfOk result (λ core. core.told ≡ None) }
{
    Core::open(alloc, GEOMETRY, Counted::new()).map_err(|_| AllocError)
}

fn tell(core: &mut Core<Counted>, alloc: Global, ask: &Ask) -> Result<Told, AllocError>
    requires { core.old.told ≡ None }
    ensures { OnOk result (core.new.told ≡ None) }
{
    do_ask(core, alloc, Id { pass: 1, seq: 1 }, ask)
}

fn put(alloc: Global) -> Result<Ask, AllocError> {
    Ok(Ask::Store(Put {
        key: key()?,
        mode: Mode::Set,
        flags: 0,
        exptime: 0,
        compare: None,
        value: Blob::from_slice(alloc, b"9")?,
    }))
}

fn one_more() -> Result<Ask, AllocError> {
    Ok(Ask::Sum(Arith {
        key: key()?,
        down: false,
        delta: 1,
        compare: None,
        renew: None,
        create: None,
    }))
}

fn look() -> Result<Ask, AllocError> {
    let look = Look {
        value: true,
        renew: None,
    };
    Ok(Ask::Look(key()?, look))
}

// Whether a key that is stored, counted on, touched and looked up is there.
fn tells_of_an_item(core: &mut Core<Counted>, alloc: Global) -> Result<bool, AllocError>
    requires { core.old.told ≡ None }
    ensures { OnOk result (core.new.told ≡ None) }
{
    let stored = tell(core, alloc, &put(alloc)?)?;
    let counted = tell(core, alloc, &one_more()?)?;
    let touched = tell(core, alloc, &Ask::Touch(key()?, 60))?;
    let found = tell(core, alloc, &look()?)?;
    Ok(
        matches!(stored, Told::Stored(Stored::Stored(1)))
            && matches!(counted, Told::Sum(Sum::Now(_)))
            && matches!(touched, Told::Touched(Touched::Touched))
            && matches!(found, Told::Found(LookAnswer::Hit(_))),
    )
}

// Whether a key that is deleted isn't there.
fn tells_of_none(core: &mut Core<Counted>, alloc: Global) -> Result<bool, AllocError>
    requires { core.old.told ≡ None }
    ensures { OnOk result (core.new.told ≡ None) }
{
    let gone = tell(core, alloc, &Ask::Delete(key()?, Some(2)))?;
    let flushed = tell(core, alloc, &Ask::Flush(0))?;
    let missed = tell(core, alloc, &look()?)?;
    let tally = tell(core, alloc, &Ask::Stats)?;
    Ok(
        matches!(gone, Told::Gone(Gone::Deleted))
            && matches!(flushed, Told::Flushed)
            && matches!(missed, Told::Found(LookAnswer::Miss))
            && matches!(tally, Told::Tally(_)),
    )
}

#[test]
fn tells_each_kind(rt: HostRuntime) -> Result<(), Fail> {
    let mut core = open(rt.alloc())?;
    assert!(rt; tells_of_an_item(&mut core, rt.alloc())?);
    assert!(rt; tells_of_none(&mut core, rt.alloc())?);
    Ok(())
}
