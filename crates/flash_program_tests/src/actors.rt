ghost use Rattle.std.specs.Prelude.{◌≡◌, [], None, IfOk};
ghost use Rattle.flash_core.specs.SharedStore.{geometry_of, own_steps};
ghost use Rattle.flash_turn.specs.Passes.{IsPassOf, left_own};
ghost use Rattle.flash_actors.specs.Passing.{IsReady, journal_seen};

use flash_actors::{KeeperStep, SessionEnd, first_turn, keeper_turn, serve_session, step};
use flash_core::Core;
use flash_entry::{Ask, Counted, Look, LookAnswer, Mode, Put, Stored, Told};
use flash_names::{Blob, Geometry, Key, ListClock, MemorySink, MemorySource};
use flash_turn::{Pass, Split, Turn};
use std::alloc::{AllocError, Global};
use std::sync::Wait;
use std::test::Fail;

const GEOMETRY: Geometry = Geometry {
    memory: 4096,
    item_size: 64,
    item_max: 1024,
    pages: 3,
    page_size: 512,
    buffer_size: 256,
    buffers: 3,
    compact_under: 1,
    drop_under: 0,
    max_frag: 80,
    recache: 0,
};

fn opened(
    alloc: Global,
) -> Result<
    (
        Turn<Core<Counted>>,
        Pass<Core<Counted>>,
        Pass<Core<Counted>>,
    ),
    AllocError,
>
    ensures one { IfOk result (λ r. IsPassOf geometry_of r.0 r.1 × (left_own own_steps r.1 ≡ []) × (journal_seen r.1 ≡ None)) }
    ensures two { IfOk result (λ r. IsPassOf geometry_of r.0 r.2 × (left_own own_steps r.2 ≡ []) × (journal_seen r.2 ≡ None)) }
{
    let Ok(core) = Core::open(alloc, GEOMETRY, Counted::new()) else {
        return Err(AllocError);
    };
    let Ok((turn, mut one)) = Turn::new(alloc, core) else {
        return Err(AllocError);
    };
    let Split::Pass(two) = one.split(&turn) else {
        return Err(AllocError);
    };
    Ok((turn, one, two))
}

// A first lock turn of a pass over a journal that tells nothing.
fn enter<R: Wait>(rt: &R, turn: &Turn<Core<Counted>>, pass: &mut Pass<Core<Counted>>)
    requires pass { IsPassOf geometry_of turn.now pass.old }
    requires none { left_own own_steps pass.old ≡ [] }
    requires untold { journal_seen pass.old ≡ None }
    ensures ready { IsReady turn.now pass.new }
    ensures untold { journal_seen pass.new ≡ None }
{
    first_turn(rt, turn, pass);
}

// A step of a pass over a journal that tells nothing.
fn tell<R: Wait>(
    rt: &R,
    alloc: Global,
    turn: &Turn<Core<Counted>>,
    pass: &mut Pass<Core<Counted>>,
    ask: &Ask,
    reading: u64,
) -> Told
    requires ready { IsReady turn.now pass.old }
    requires untold { journal_seen pass.old ≡ None }
    ensures ready { IsReady turn.now pass.new }
    ensures untold { journal_seen pass.new ≡ None }
{
    step(rt, alloc, turn, pass, 1, ask, reading)
}

fn key(name: &[u8]) -> Result<Key, AllocError> {
    Key::from_bytes(name).ok_or(AllocError)
}

// Stores 1,000 bytes for ten seconds.
fn put(alloc: Global, name: &[u8]) -> Result<Ask, AllocError> {
    Ok(Ask::Store(Put {
        key: key(name)?,
        mode: Mode::Set,
        flags: 0,
        exptime: 10,
        compare: None,
        value: Blob::from_slice(alloc, &[7; 1000])?,
    }))
}

fn look(name: &[u8]) -> Result<Ask, AllocError> {
    Ok(Ask::Look(
        key(name)?,
        Look {
            value: true,
            renew: None,
        },
    ))
}

fn is_hit(told: &Told) -> bool {
    matches!(told, Told::Found(LookAnswer::Hit(_)))
}

fn is_miss(told: &Told) -> bool {
    matches!(told, Told::Found(LookAnswer::Miss))
}

fn is_stored(told: &Told) -> bool {
    matches!(told, Told::Stored(Stored::Stored(_)))
}

#[test]
fn a_pass_finds_what_another_stored(rt: HostRuntime) -> Result<(), Fail> {
    let alloc = rt.alloc();
    let (turn, mut one, mut two) = opened(alloc)?;
    enter(&rt, &turn, &mut one);
    enter(&rt, &turn, &mut two);
    assert!(rt; is_stored(&tell(&rt, alloc, &turn, &mut one, &put(alloc, b"a")?, 5)));
    assert!(rt; is_hit(&tell(&rt, alloc, &turn, &mut two, &look(b"a")?, 7)));
    assert_eq!(rt; keeper_turn(&rt, &turn, &mut two), KeeperStep::Stepped);
    // The reading sets the store's clock in the turn of the step, so the item is dead at its deadline.
    assert!(rt; is_miss(&tell(&rt, alloc, &turn, &mut two, &look(b"a")?, 15)));
    Ok(())
}

#[test]
fn a_step_evicts_what_exceeds_the_memory(rt: HostRuntime) -> Result<(), Fail> {
    let alloc = rt.alloc();
    let (turn, mut one, mut two) = opened(alloc)?;
    enter(&rt, &turn, &mut one);
    enter(&rt, &turn, &mut two);
    assert!(rt; is_stored(&tell(&rt, alloc, &turn, &mut one, &put(alloc, b"a")?, 5)));
    assert!(rt; is_stored(&tell(&rt, alloc, &turn, &mut one, &put(alloc, b"b")?, 5)));
    assert!(rt; is_stored(&tell(&rt, alloc, &turn, &mut one, &put(alloc, b"c")?, 5)));
    assert!(rt; is_hit(&tell(&rt, alloc, &turn, &mut one, &look(b"a")?, 5)));
    assert!(rt; is_stored(&tell(&rt, alloc, &turn, &mut one, &put(alloc, b"d")?, 5)));
    assert!(rt; is_miss(&tell(&rt, alloc, &turn, &mut two, &look(b"a")?, 5)));
    assert!(rt; is_hit(&tell(&rt, alloc, &turn, &mut two, &look(b"b")?, 5)));
    Ok(())
}

#[test]
fn a_session_is_served_in_any_pieces(rt: HostRuntime) -> Result<(), Fail> {
    let alloc = rt.alloc();
    let (turn, mut one, mut two) = opened(alloc)?;
    let mut clock = ListClock::new(vec![in alloc; 5u64, 7]?);
    let sent = Vec::from_slice(alloc, b"set a 0 0 5\r\nhello\r\nget a\r\n")?;
    let mut source = MemorySource::in_pieces(sent, 4, Vec::new(alloc));
    let mut sink = MemorySink::new(alloc, Vec::new(alloc));
    let end = serve_session(
        &rt,
        alloc,
        &turn,
        &mut one,
        &mut source,
        &mut sink,
        &mut clock,
    );
    assert_eq!(rt; end, SessionEnd::End);
    assert!(rt; sink.bytes() == b"STORED\r\nVALUE a 0 5\r\nhello\r\nEND\r\n".as_slice());
    let sent = Vec::from_slice(alloc, b"get a b\r\nnone\r\nquit\r\nget a\r\n")?;
    let mut source = MemorySource::new(sent, Vec::new(alloc));
    let mut sink = MemorySink::new(alloc, Vec::new(alloc));
    let end = serve_session(
        &rt,
        alloc,
        &turn,
        &mut two,
        &mut source,
        &mut sink,
        &mut clock,
    );
    assert_eq!(rt; end, SessionEnd::Quit);
    assert!(rt; sink.bytes() == b"VALUE a 0 5\r\nhello\r\nEND\r\nERROR\r\n".as_slice());
    Ok(())
}
