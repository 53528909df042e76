// What a step does with the store while its lock is held: the clock's reading and the step itself, in one lock turn.
ghost use Rattle.std.specs.Prelude.{◌≡◌};
ghost use Rattle.flash_entry.specs.declared.found.Told.TheVariants as tolds;
ghost use Rattle.flash_core.specs.Sound.{IsNewTold, IsToldRun};
ghost use Rattle.flash_answers.specs.Records.{AreOfNoStep};
ghost use Rattle.flash_actors.specs.Stepping.{BothTold, IsStep};

use crate::room::make_room_after;
use flash_answers::{
    calls_of_no_session_record_no_step, do_ask, each_ask_notes_itself, numbers_stay_new,
};
use flash_core::Core;
use flash_entry::{Ask, Journal, Told};
use flash_names::Id;
use std::alloc::Global;

/// Sets the store's clock to this reading, in Unix seconds, and does what is asked; `NoMemory` where memory ran out for
/// either. Where the step may have stored an item, at most eight are then evicted while the items take more than the
/// memory.
pub fn step_under<J: Journal>(
    core: &mut Core<J>,
    alloc: Global,
    id: Id,
    ask: &Ask,
    reading: u64,
) -> Told
    requires { IsNewTold core.old.told id }
    ensures geometry { core.new.geometry ≡ core.old.geometry }
    ensures step { BothTold (IsStep AreOfNoStep core.old.geometry id ask.now reading result) core.old.told core.new.told }
{
    // The laws do nothing: the calls bring them into this function's proof.
    each_ask_notes_itself();
    calls_of_no_session_record_no_step();
    numbers_stay_new();
    match core.clock(reading) {
        Ok(_) => {
            core.journal();
        }
        Err(_) => return refused(core),
    }
    match do_ask(core, alloc, id, ask) {
        Ok(told) => {
            make_room_after(core, ask);
            core.journal();
            told
        }
        Err(_) => refused(core),
    }
}

// A step without memory, over a journal that is a run.
fn refused<J: Journal>(core: &Core<J>) -> Told
    ensures told { result ≡ tolds.NoMemory }
    ensures run { IsToldRun core.now.geometry core.now.cache core.now.told }
{
    core.journal();
    Told::NoMemory
}
