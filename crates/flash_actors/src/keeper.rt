// The keeper of a store, which keeps it within its memory.
ghost use Rattle.std.specs.Prelude.{◌≡◌, ◌||◌, IsTrue};
ghost use Rattle.flash_names.specs.Shared.{Begins};
ghost use Rattle.flash_core.specs.SharedStore.{face_of};
ghost use Rattle.flash_core.specs.Sound.{IsToldRun};
ghost use Rattle.flash_turn.specs.Passes.{number_of};
ghost use Rattle.flash_actors.specs.Keeping.{HasKept, HasKeptIn, step_of};
ghost use Rattle.flash_actors.specs.Passing.{IsReady, journal_seen};
ghost use Rattle.flash_actors.specs.declared.keeper.KeeperStep.TheVariants as steps;

use flash_core::Core;
use flash_entry::Journal;
use flash_turn::{Pass, Turn};
use std::sync::Wait;

/// What the keeper did in its turn.
#[derive(Clone, Copy, Debug, PartialEq, Eq)]
pub enum KeeperStep {
    /// An item was dropped, or a key was moved between the three lists.
    Stepped,
    /// There was nothing to do.
    Idle,
    /// Memory ran out for the journal.
    NoMemory,
}

/// The keeper's turn of the lock: it drops an item that is dead, or whose page has ended, moves a key between the three
/// lists, and evicts an item where they take more than the memory; each where there is one. It is never out of memory
/// over a journal of a type that is always ready.
pub fn keeper_turn<J: Journal, R: Wait>(
    rt: &R,
    store: &Turn<Core<J>>,
    pass: &mut Pass<Core<J>>,
) -> KeeperStep
    requires { IsReady store.now pass.old }
    ensures ready { IsReady store.now pass.new }
    ensures number { number_of pass.new ≡ number_of pass.old }
    ensures begins { Begins (journal_seen pass.old) (journal_seen pass.new) }
    ensures kept { HasKeptIn store.now result pass.new }
    ensures sure { IsTrue J.always_ready → result ≡ steps.NoMemory → ⊥ }
{
    let mut held = store.enter(rt, pass);
    let step = keep_under(held.state());
    held.leave();
    step
}

// What the keeper does with the store while its lock is held.
fn keep_under<J: Journal>(core: &mut Core<J>) -> KeeperStep
    ensures kept { HasKept result core.old.geometry core.old.told (face_of core.old) core.new.told (face_of core.new) }
    ensures geometry { core.new.geometry ≡ core.old.geometry }
    ensures run { IsToldRun core.new.geometry core.new.cache core.new.told }
    ensures sure { IsTrue J.always_ready → result ≡ steps.NoMemory → ⊥ }
{
    core.journal();
    core.is_listed();
    let reaped = match core.reap_one() {
        Ok(reaped) => reaped,
        Err(_) => return out_of_memory(core),
    };
    let juggled = core.juggle_one();
    let roomed = match core.make_room() {
        Ok(roomed) => roomed,
        Err(_) => return out_of_memory(core),
    };
    core.journal();
    step_of(reaped.is_some(), juggled, roomed.is_some())
}

// The answer where memory ran out, over a journal that is a run.
fn out_of_memory<J: Journal>(core: &Core<J>) -> KeeperStep
    ensures answer { result ≡ steps.NoMemory }
    ensures run { IsToldRun core.now.geometry core.now.cache core.now.told }
{
    core.journal();
    KeeperStep::NoMemory
}

// The answer, by what was done.
fn step_of(reaped: bool, juggled: bool, roomed: bool) -> KeeperStep
    ensures { result ≡ step_of ((reaped || juggled) || roomed) }
{
    if reaped || juggled || roomed {
        KeeperStep::Stepped
    } else {
        KeeperStep::Idle
    }
}
