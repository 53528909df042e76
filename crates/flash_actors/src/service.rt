// A session under way: its input, what it needs next, and its output.
ghost use Rattle.std.specs.Prelude.{◌≡◌, ◌+◌, ◌≤◌, ℕ, true, false, length, List, Option, None, [], Some};
ghost use Rattle.std.specs.Prelude.{IfErr, OnOk, OnErr};
ghost use Rattle.flash_names.specs.Shared.{Begins};
ghost use Rattle.flash_core.specs.Sound.{IsNewTold};
ghost use Rattle.flash_turn.specs.Passes.{number_of};
ghost use Rattle.flash_session.specs.States.{front_now, ask_at, sent};
ghost use Rattle.flash_session.specs.Todos.{IsNext};
ghost use Rattle.flash_session.specs.declared.todo.Todo.TheVariants as todos;
ghost use Rattle.flash_actors.specs.Headline.{HasCause};
ghost use Rattle.flash_actors.specs.Passing.{IsReady, geometry_known, journal_seen};
ghost use Rattle.flash_actors.specs.Serving.{rest_of, GoesOn, EndsSo, KeepsOn, Stops, IsUnwritten};

use crate::batch::Batch;
use crate::input::Input;
use crate::laws::sessions_keep_their_laws;
use crate::output::Output;
use crate::session_end::SessionEnd;
use crate::turns::step;
use flash_core::Core;
use flash_entry::{Ask, Journal};
use flash_names::{Clock, Sink, SinkFault, Source};
use flash_session::{Ending, Session, Todo};
use flash_turn::{Pass, Turn};
use std::alloc::{AllocError, Global};
use std::sync::Wait;

#[derive(Drop)]
pub struct Service {
    pub session: Session,
    pub input: Input,
    pub output: Output,
}

impl Service {
    // Does what the session needs next: takes a piece of its replies, does a step, or gives it more bytes. No read and no
    // write is made in a batch.
    pub fn turn<J: Journal, S: Source, K: Sink, C: Clock, R: Wait>(
        &mut self,
        rt: &R,
        alloc: Global,
        store: &Turn<Core<J>>,
        pass: &mut Pass<Core<J>>,
        batch: &mut Batch,
        source: &mut S,
        sink: &mut K,
        clock: &mut C,
    ) -> Result<(), SessionEnd>
        requires ready { IsReady store.now pass.old }
        requires free { self.old.session.owed ≡ false }
        requires new { IsNewTold (journal_seen pass.old)
            (record { pass = number_of pass.old; seq = self.old.session.last + 1 }) }
        ensures ready { IsReady store.now pass.new }
        ensures number { number_of pass.new ≡ number_of pass.old }
        ensures begins { Begins (journal_seen pass.old) (journal_seen pass.new) }
        ensures free { OnOk result (self.new.session.owed ≡ false) }
        ensures new { OnOk result (IsNewTold (journal_seen pass.new)
            (record { pass = number_of pass.old; seq = self.new.session.last + 1 })) }
        ensures goes { OnOk result (GoesOn (geometry_known store.now) (number_of pass.old)
            (record { left = S.left source.old; held = K.held sink.old; given = C.given clock.old })
            (record { left = S.left source.new; held = K.held sink.new; given = C.given clock.new })
            self.old self.new (journal_seen pass.old) (journal_seen pass.new)) }
        ensures ends { IfErr result (λ end. EndsSo (geometry_known store.now) (number_of pass.old) end
            (record { left = S.left source.old; held = K.held sink.old; given = C.given clock.old })
            (record { left = S.left source.new; held = K.held sink.new; given = C.given clock.new })
            self.old (journal_seen pass.old) (journal_seen pass.new)) }
        ensures cause { IfErr result (λ end. HasCause end (S.left source.new)
            (S.faults source.old) (S.faults source.new) (K.faults sink.old) (K.faults sink.new)) }
        ensures source_kept { S.faults source.old ≤ S.faults source.new }
        ensures sink_kept { K.faults sink.old ≤ K.faults sink.new }
    {
        sessions_keep_their_laws();
        match self.session.next(alloc) {
            Ok(todo) => match todo {
                Todo::Write => {
                    let writes = self.output.is_full_with(self.session.out().len());
                    batch.end_where(store, writes);
                    self.collect(sink)
                }
                Todo::Do(id, ask) => {
                    batch.step(rt, store);
                    self.take_step(rt, alloc, store, pass, clock, id.seq, &ask)
                }
                Todo::Input => {
                    batch.end(store);
                    self.take_input(source, sink)
                }
                Todo::Closed(ending) => {
                    batch.end(store);
                    Err(self.close(sink, ending))
                }
                Todo::Wait => unreachable!(),
            },
            Err(AllocError) => Err(SessionEnd::NoMemory),
        }
    }

    // Takes the session's replies.
    fn collect<K: Sink>(&mut self, sink: &mut K) -> Result<(), SessionEnd>
        ensures goes { OnOk result ((left given : Option (List ℕ)) → KeepsOn
            (record { left = left; held = K.held sink.old; given = given })
            (record { left = left; held = K.held sink.new; given = given }) self.old self.new) }
        ensures ends { IfErr result (λ end. (left given : Option (List ℕ)) → Stops end
            (record { left = left; held = K.held sink.old; given = given })
            (record { left = left; held = K.held sink.new; given = given }) self.old) }
        ensures session { OnOk result (self.new.session ≡ sent self.old.session (length self.old.session.out)) }
        ensures end { IfErr result IsUnwritten }
        ensures cause { IfErr result (λ end. HasCause end None 0 0 (K.faults sink.old) (K.faults sink.new)) }
        ensures kept { K.faults sink.old ≤ K.faults sink.new }
    {
        sessions_keep_their_laws();
        match self.output.take(sink, self.session.out()) {
            Ok(()) => {
                self.session.sent(self.session.out().len());
                Ok(())
            }
            Err(end) => Err(end),
        }
    }

    // Does the step that is asked, at a reading of the clock that is made for it, and tells the session the answer.
    fn take_step<J: Journal, C: Clock, R: Wait>(
        &mut self,
        rt: &R,
        alloc: Global,
        store: &Turn<Core<J>>,
        pass: &mut Pass<Core<J>>,
        clock: &mut C,
        seq: u64,
        ask: &Ask,
    ) -> Result<(), SessionEnd>
        requires ready { IsReady store.now pass.old }
        requires new { IsNewTold (journal_seen pass.old) (record { pass = number_of pass.old; seq = seq }) }
        requires owed { self.old.session.owed ≡ true }
        requires asks { ask_at self.old.session.step (front_now self.old.session) ≡ Some ask.now }
        requires last { self.old.session.last ≡ seq }
        ensures ready { IsReady store.now pass.new }
        ensures number { number_of pass.new ≡ number_of pass.old }
        ensures begins { Begins (journal_seen pass.old) (journal_seen pass.new) }
        ensures free { OnOk result (self.new.session.owed ≡ false) }
        ensures new { OnOk result (IsNewTold (journal_seen pass.new)
            (record { pass = number_of pass.old; seq = self.new.session.last + 1 })) }
        ensures goes { OnOk result ((left held : Option (List ℕ)) →
            GoesOn (geometry_known store.now) (number_of pass.old)
            (record { left = left; held = held; given = C.given clock.old })
            (record { left = left; held = held; given = C.given clock.new })
            self.old self.new (journal_seen pass.old) (journal_seen pass.new)) }
        ensures ends { IfErr result (λ end. (left held : Option (List ℕ)) →
            EndsSo (geometry_known store.now) (number_of pass.old) end
            (record { left = left; held = held; given = C.given clock.old })
            (record { left = left; held = held; given = C.given clock.new })
            self.old (journal_seen pass.old) (journal_seen pass.new)) }
        ensures end { IfErr result (λ end. end ≡ SessionEnd.NoMemory) }
    {
        sessions_keep_their_laws();
        let told = step(rt, alloc, store, pass, seq, ask, clock.now());
        match self.session.answer(&told) {
            Ok(()) => Ok(()),
            Err(AllocError) => Err(SessionEnd::NoMemory),
        }
    }

    // Feeds the session more of the bytes that were read, and reads more where none are left.
    fn take_input<S: Source, K: Sink>(
        &mut self,
        source: &mut S,
        sink: &mut K,
    ) -> Result<(), SessionEnd>
        requires next { IsNext self.old.session todos.Input }
        ensures goes { OnOk result ((given : Option (List ℕ)) → KeepsOn
            (record { left = S.left source.old; held = K.held sink.old; given = given })
            (record { left = S.left source.new; held = K.held sink.new; given = given }) self.old self.new) }
        ensures ends { IfErr result (λ end. (given : Option (List ℕ)) → Stops end
            (record { left = S.left source.old; held = K.held sink.old; given = given })
            (record { left = S.left source.new; held = K.held sink.new; given = given }) self.old) }
        ensures free { OnOk result (self.new.session.owed ≡ self.old.session.owed) }
        ensures last { OnOk result (self.new.session.last ≡ self.old.session.last) }
        ensures cause { IfErr result (λ end. HasCause end (S.left source.new)
            (S.faults source.old) (S.faults source.new) (K.faults sink.old) (K.faults sink.new)) }
        ensures source_kept { S.faults source.old ≤ S.faults source.new }
        ensures sink_kept { K.faults sink.old ≤ K.faults sink.new }
    {
        sessions_keep_their_laws();
        if self.input.is_empty() {
            return self.read(source, sink);
        }
        match self.input.feed(&mut self.session) {
            Ok(()) => Ok(()),
            Err(AllocError) => Err(SessionEnd::NoMemory),
        }
    }

    // Writes what is gathered, and reads more.
    fn read<S: Source, K: Sink>(&mut self, source: &mut S, sink: &mut K) -> Result<(), SessionEnd>
        requires next { IsNext self.old.session todos.Input }
        requires none { rest_of self.old.input ≡ [] }
        ensures goes { OnOk result ((given : Option (List ℕ)) → KeepsOn
            (record { left = S.left source.old; held = K.held sink.old; given = given })
            (record { left = S.left source.new; held = K.held sink.new; given = given }) self.old self.new) }
        ensures ends { IfErr result (λ end. (given : Option (List ℕ)) → Stops end
            (record { left = S.left source.old; held = K.held sink.old; given = given })
            (record { left = S.left source.new; held = K.held sink.new; given = given }) self.old) }
        ensures session { self.new.session ≡ self.old.session }
        ensures cause { IfErr result (λ end. HasCause end (S.left source.new)
            (S.faults source.old) (S.faults source.new) (K.faults sink.old) (K.faults sink.new)) }
        ensures source_kept { S.faults source.old ≤ S.faults source.new }
        ensures sink_kept { K.faults sink.old ≤ K.faults sink.new }
    {
        sessions_keep_their_laws();
        match self.output.send(sink) {
            Ok(()) => {}
            Err(SinkFault) => return Err(SessionEnd::SinkFault),
        }
        match self.input.read(source) {
            Ok(()) => Ok(()),
            Err(end) => Err(end),
        }
    }

    // Writes what is gathered, and ends by its cause.
    fn close<K: Sink>(&mut self, sink: &mut K, ending: Ending) -> SessionEnd
        requires next { IsNext self.old.session (todos.Closed ending) }
        ensures ends { (left given : Option (List ℕ)) → Stops result
            (record { left = left; held = K.held sink.old; given = given })
            (record { left = left; held = K.held sink.new; given = given }) self.old }
        ensures cause { (left : Option (List ℕ)) (source source_after : ℕ) →
            HasCause result left source source_after (K.faults sink.old) (K.faults sink.new) }
        ensures kept { K.faults sink.old ≤ K.faults sink.new }
    {
        sessions_keep_their_laws();
        match self.output.send(sink) {
            Ok(()) => {}
            Err(SinkFault) => return SessionEnd::SinkFault,
        }
        match ending {
            Ending::Quit => SessionEnd::Quit,
            Ending::LineTooLong => SessionEnd::LineTooLong,
            Ending::UsedUp => SessionEnd::UsedUp,
        }
    }
}
