// The lock turns of a session.
ghost use Rattle.std.specs.Prelude.{◌≡◌, []};
ghost use Rattle.flash_names.specs.Shared.{Begins};
ghost use Rattle.flash_core.specs.SharedStore.{geometry_of, own_steps};
ghost use Rattle.flash_core.specs.Sound.{IsNewTold};
ghost use Rattle.flash_turn.specs.Passes.{IsPassOf, number_of, left_own};
ghost use Rattle.flash_answers.specs.Records.{AreOfOthers};
ghost use Rattle.flash_actors.specs.Passing.{IsReady, geometry_known, journal_seen};
ghost use Rattle.flash_actors.specs.Stepping.{BothTold, IsStep};

use crate::under::step_under;
use flash_core::Core;
use flash_entry::{Ask, Journal, Told};
use flash_names::{Geometry, Id};
use flash_turn::{Pass, Turn};
use std::alloc::Global;
use std::sync::Wait;

/// The first lock turn of a pass that has left nothing. It learns the geometry, and that the journal is a run and has no
/// step of its own.
pub fn first_turn<J: Journal, R: Wait>(
    rt: &R,
    store: &Turn<Core<J>>,
    pass: &mut Pass<Core<J>>,
) -> Geometry
    requires pass { IsPassOf geometry_of store.now pass.old }
    requires none { left_own own_steps pass.old ≡ [] }
    ensures ready { IsReady store.now pass.new }
    ensures number { number_of pass.new ≡ number_of pass.old }
    ensures geometry { result ≡ geometry_known store.now }
    ensures begins { Begins (journal_seen pass.old) (journal_seen pass.new) }
    ensures none { left_own own_steps pass.new ≡ [] }
{
    let mut held = store.enter(rt, pass);
    let core = held.state();
    core.journal();
    let geometry = core.geometry();
    held.leave();
    geometry
}

/// One step of a session in one lock turn: the store's clock is set to this reading, in Unix seconds, and it does what is
/// asked. `NoMemory` where memory ran out for either. The number of the step has to be new in what the pass has seen.
pub fn step<J: Journal, R: Wait>(
    rt: &R,
    alloc: Global,
    store: &Turn<Core<J>>,
    pass: &mut Pass<Core<J>>,
    seq: u64,
    ask: &Ask,
    reading: u64,
) -> Told
    requires ready { IsReady store.now pass.old }
    requires new { IsNewTold (journal_seen pass.old) (record { pass = number_of pass.old; seq = seq }) }
    ensures ready { IsReady store.now pass.new }
    ensures number { number_of pass.new ≡ number_of pass.old }
    ensures step { BothTold (IsStep (AreOfOthers (number_of pass.old)) (geometry_known store.now)
        (record { pass = number_of pass.old; seq = seq }) ask.now reading result)
        (journal_seen pass.old) (journal_seen pass.new) }
{
    let id = Id {
        pass: pass.number(),
        seq,
    };
    let mut held = store.enter(rt, pass);
    let told = step_under(held.state(), alloc, id, ask, reading);
    held.leave();
    told
}
