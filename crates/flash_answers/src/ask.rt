ghost use Rattle.std.specs.Prelude.{◌≡◌, false, IfOk, OnOk, OnErr, IsOk, IsTrue};
ghost use Rattle.flash_core.specs.Sound.{IsNewTold};
ghost use Rattle.flash_calls.specs.Store.{Becomes, Stays};
ghost use Rattle.flash_answers.specs.AskCalls.{ask_call, takes_memory, told_found};

use flash_calls::Found;
use flash_core::Core;
use flash_entry::{Ask, Journal, LookAnswer, Told};
use flash_names::Id;
use std::alloc::{AllocError, Global};

/// Does what a session asks of the store, and answers what the session is told. Where memory runs out nothing changes;
/// it doesn't run out where the journal is ready and the step takes none: it stores nothing, and wants no value. `id`
/// has to be new: its pass isn't 0, and each step of that pass in the journal has a smaller number, where the journal
/// tells its entries.
pub fn do_ask<J: Journal>(
    core: &mut Core<J>,
    alloc: Global,
    id: Id,
    ask: &Ask,
) -> Result<Told, AllocError>
    requires { IsNewTold core.old.told id }
    ensures ok { OnOk result (Becomes core.old
        (ask_call core.old.geometry core.old.cache core.old.desk id ask.now) core.new) }
    ensures answer { IfOk result (λ told. told
        ≡ (ask_call core.old.geometry core.old.cache core.old.desk id ask.now).answer) }
    ensures err { OnErr result (Stays core.old core.new) }
    ensures ready { IsTrue core.old.ready → IsTrue core.new.ready }
    ensures sure { IsTrue core.old.ready → takes_memory ask.now ≡ false → IsOk result }
{
    match ask {
        Ask::Look(key, look) => Ok(told_of(core.look(alloc, id, key, *look)?)),
        Ask::Store(put) => Ok(Told::Stored(core.store(alloc, id, put)?)),
        Ask::Delete(key, compare) => Ok(Told::Gone(core.delete(id, key, *compare)?)),
        Ask::Sum(arith) => Ok(Told::Sum(core.arith(alloc, id, arith)?)),
        Ask::Touch(key, exptime) => Ok(Told::Touched(core.touch(id, key, *exptime)?)),
        Ask::Flush(delay) => {
            core.flush(id, *delay)?;
            Ok(Told::Flushed)
        }
        Ask::Stats => Ok(Told::Tally(core.tally(id)?)),
    }
}

// What a session is told of a lookup.
fn told_of(found: Found) -> Told
    ensures { result ≡ told_found found }
{
    match found {
        Found::Miss | Found::Away(_) => Told::Found(LookAnswer::Miss),
        Found::Head(head) => Told::Found(LookAnswer::Head(head)),
        Found::Here(hit) => Told::Found(LookAnswer::Hit(hit)),
    }
}
