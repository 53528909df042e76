// A session over a store that threads share.
ghost use Rattle.std.specs.Prelude.{◌≡◌, []};
ghost use Rattle.std.specs.Option.{ForSome};
ghost use Rattle.flash_names.specs.Shared.{Begins, told_length};
ghost use Rattle.flash_core.specs.SharedStore.{geometry_of, own_steps};
ghost use Rattle.flash_turn.specs.Passes.{IsPassOf, number_of, left_own};
ghost use Rattle.flash_actors.specs.Headline.{IsHeadline, HasCause};
ghost use Rattle.flash_actors.specs.Passing.{geometry_known, journal_seen};

use crate::batch::Batch;
use crate::input::Input;
use crate::laws::sessions_keep_their_laws;
use crate::output::Output;
use crate::service::Service;
use crate::session_end::SessionEnd;
use crate::turns::first_turn;
use flash_core::Core;
use flash_entry::Journal;
use flash_names::{Clock, Sink, Source};
use flash_session::Session;
use flash_turn::{Pass, Turn};
use std::alloc::Global;
use std::sync::Wait;

/// Serves one session to its end: does the commands of the bytes that its source gives, each step in a turn of the lock
/// of its own, at a reading of the clock that is made for it, and writes the replies in order. The pass has to be one
/// of this lock that has done no step.
pub fn serve_session<J: Journal, S: Source, K: Sink, C: Clock, R: Wait>(
    rt: &R,
    alloc: Global,
    store: &Turn<Core<J>>,
    pass: &mut Pass<Core<J>>,
    source: &mut S,
    sink: &mut K,
    clock: &mut C,
) -> SessionEnd
    requires pass { IsPassOf geometry_of store.now pass.old }
    requires none { left_own own_steps pass.old ≡ [] }
    ensures pass { IsPassOf geometry_of store.now pass.new }
    ensures number { number_of pass.new ≡ number_of pass.old }
    ensures begins { Begins (journal_seen pass.old) (journal_seen pass.new) }
    ensures headline { ForSome (journal_seen pass.new)
        (IsHeadline (geometry_known store.now) (number_of pass.old) (told_length (C.given clock.old)) result
        (record { left = S.left source.old; held = K.held sink.old; given = C.given clock.old })
        (record { left = S.left source.new; held = K.held sink.new; given = C.given clock.new })) }
    ensures cause { HasCause result (S.left source.new)
        (S.faults source.old) (S.faults source.new) (K.faults sink.old) (K.faults sink.new) }
{
    sessions_keep_their_laws();
    let geometry = first_turn(rt, store, pass);
    let Ok(input) = Input::new(alloc) else {
        return SessionEnd::NoMemory;
    };
    let mut service = Service {
        session: Session::new(alloc, pass.number(), geometry.item_max),
        input,
        output: Output::new(alloc),
    };
    let mut batch = Batch::new();
    'turns: for _ in rt.forever() {
        match service.turn(rt, alloc, store, pass, &mut batch, source, sink, clock) {
            Ok(()) => {}
            Err(end) => {
                batch.end(store);
                return end;
            }
        }
    }
    unreachable!()
}
