ghost use Rattle.std.specs.Prelude.{◌≡◌, ℕ, ◌+◌, ◌≤◌, ◌<◌, List, [], min, take, length, false, true, None, Some, IfOk, IfSome, IsNone, OnOk, OnErr};
ghost use Rattle.flash_reader.specs.Readers.{room_of, fed};
ghost use Rattle.flash_session.specs.States as states;
ghost use Rattle.flash_session.specs.States.{first_session, front_now, read_at_once, ask_at, is_done, told_at, sent};
ghost use Rattle.flash_session.specs.Todos.{HasReadOn, IsFree, IsAtRest, IsNext, IsCounted, Needs};
ghost use Rattle.flash_commands.specs.Asks.{asks_of};

use crate::laws::{a_read_goes_on, a_read_holds_a_piece, an_ask_goes_on};
use crate::lookup::{Lookup, keep_lookup};
use crate::steps::{ask_at, has_step};
use crate::todo::{Ending, Todo};
use bytes::BytesMut;
use flash_commands::{Place, a_lookup_asks_at_each_key};
use flash_entry::{Ask, Told};
use flash_names::Id;
use flash_reader::{Asked, Reader};
use flash_reply::{Command, reply_plain, reply_refusal, reply_step};
use std::alloc::{AllocError, Global};
use std::marker::Model;

/// A session.
#[derive(Drop)]
pub struct Session {
    pass: u32,
    reader: Reader,
    step: u32,
    owed: bool,
    last: u64,
    out: BytesMut,
    // The lookup at the front, once its first step was asked, and the bytes of all its keys.
    lookup: Option<Lookup>,
    keys: Vec<u8>,
}

impl Model for Session {
    ghost use Rattle.flash_session.specs.States as states;
    ghost use Rattle.flash_session.specs.Lookups.{IsKept};

    ghost Value = { states.Session };

    ghost view = { λ s. record {
      pass = s.pass;
      reads = s.reader;
      step = s.step;
      owed = s.owed;
      last = s.last;
      out = s.out.items;
    } };

    ghost invariant = { λ s. IsKept s.reader s.step s.lookup s.keys.items };
}

impl Session {
    /// A session of this pass that was fed nothing, whose values have at most so many bytes.
    pub fn new(alloc: Global, pass: u32, item_max: u32) -> Session
        ensures { result ≡ first_session pass item_max }
    {
        Session {
            pass,
            reader: Reader::new(alloc, item_max),
            step: 0,
            owed: false,
            last: 0,
            out: BytesMut::new(alloc),
            lookup: None,
            keys: Vec::new(alloc),
        }
    }

    /// Takes as many of these bytes as leave at most `item_max` + 65,538 unread, and says how many. Where memory runs out
    /// nothing changes.
    pub fn feed(&mut self, bytes: &[u8]) -> Result<usize, AllocError>
        ensures count { IfOk result (λ n. n ≡ min (length bytes.now) (room_of self.old.reads)) }
        ensures fed { OnOk result (self.new ≡ record self.old {
          reads = record self.old.reads {
            reader = fed self.old.reads.reader (take (min (length bytes.now) (room_of self.old.reads)) bytes.now);
          };
        }) }
        ensures refused { OnErr result (self.new ≡ self.old) }
    {
        self.reader.feed(bytes)
    }

    /// The replies that weren't sent.
    pub fn out(&self) -> &[u8]
        ensures { result.now ≡ self.now.out }
    {
        self.out.as_slice()
    }

    /// So many bytes of the replies were sent.
    pub fn sent(&mut self, n: usize)
        requires { n ≤ length self.old.out }
        ensures { self.new ≡ sent self.old n }
    {
        self.out.advance(n);
    }

    /// Tells it the answer to the step that it asked last: an answer has to be owed. Where memory runs out nothing
    /// changes.
    pub fn answer(&mut self, told: &Told) -> Result<(), AllocError>
        ensures told { OnOk result (self.new ≡ told_at self.old (front_now self.old) told.now) }
        ensures refused { OnErr result (self.new ≡ self.old) }
    {
        // The law does nothing: the call brings it into this function's proof.
        a_lookup_asks_at_each_key();
        let Some(lookup) = self.lookup else {
            return self.answer_front(told);
        };
        let step = self.step.checked_add(1).ok_or(AllocError)?;
        // Of the keys that are left the step's is the first one.
        let command = Command::Text(lookup.rest(&self.keys));
        reply_step(&mut self.out, &command, 1, told)?;
        self.owed = false;
        if is_done(told, &command, 1) {
            self.step = 0;
            self.lookup = None;
            self.reader.take(lookup.bytes, lookup.next);
        } else {
            self.step = step;
            self.lookup = Some(lookup.after_key(&self.keys));
        }
        Ok(())
    }

    // The same where no lookup is kept: the front is read again.
    fn answer_front(&mut self, told: &Told) -> Result<(), AllocError>
        ensures told { OnOk result (self.new ≡ told_at self.old (front_now self.old) told.now) }
        ensures refused { OnErr result (self.new ≡ self.old) }
    {
        self.lookup = None;
        let Some(front) = self.reader.front() else {
            return Ok(());
        };
        let Asked::Asks(command, _) = &front.asked else {
            return Ok(());
        };
        let step = self.step.checked_add(1).ok_or(AllocError)?;
        reply_step(&mut self.out, command, step, told)?;
        let done = is_done(told, command, step);
        let (bytes, next) = (front.bytes, front.next);
        self.owed = false;
        if done {
            self.step = 0;
            self.reader.take(bytes, next);
        } else {
            self.step = step;
        }
        Ok(())
    }

    /// What it needs next. First it reads the fronts of its bytes that ask no step, such as refusals, and replies to them,
    /// as long as there is nothing to send. Where memory runs out it stands for the same.
    pub fn next(&mut self, alloc: Global) -> Result<Todo, AllocError>
        ensures needs { IfOk result (λ todo. Needs self.old todo self.new) }
        ensures refused { OnErr result (HasReadOn self.old self.new) }
    {
        a_read_goes_on();
        a_read_holds_a_piece();
        if self.owed {
            return Ok(if self.out.is_empty() {
                Todo::Wait
            } else {
                Todo::Write
            });
        }
        'fronts: while self.out.is_empty() {
            if let Some(todo) = self.go_on(alloc)? {
                return Ok(todo);
            }
        }
        Ok(Todo::Write)
    }

    // What it needs where it is free, or `None` where its front asked no step: that is read then, and replied to. Where
    // memory runs out nothing changes.
    fn go_on(&mut self, alloc: Global) -> Result<Option<Todo>, AllocError>
        requires free { IsFree self.old }
        ensures needs { IfOk result (λ todo. IfSome todo (λ todo. Needs self.old todo self.new)) }
        ensures read { IfOk result (λ todo. IsNone todo → read_at_once self.old (front_now self.old) ≡ Some self.new) }
        ensures refused { OnErr result (self.new ≡ self.old) }
    {
        // The law does nothing: the call brings it into this function's proof.
        a_lookup_asks_at_each_key();
        let Some(lookup) = self.lookup else {
            return self.read_front(alloc);
        };
        let command = Command::Text(lookup.rest(&self.keys));
        let ask = ask_at(alloc, &command, &[], 0)?.ok_or(AllocError)?;
        Ok(Some(self.ask(ask)))
    }

    // The same where no lookup is kept.
    fn read_front(&mut self, alloc: Global) -> Result<Option<Todo>, AllocError>
        requires free { IsFree self.old }
        ensures needs { IfOk result (λ todo. IfSome todo (λ todo. Needs self.old todo self.new)) }
        ensures read { IfOk result (λ todo. IsNone todo → read_at_once self.old (front_now self.old) ≡ Some self.new) }
        ensures refused { OnErr result (self.new ≡ self.old) }
    {
        self.lookup = None;
        let Some(front) = self.reader.front() else {
            self.reader.look();
            return Ok(Some(rest_at(self.reader.place())));
        };
        match &front.asked {
            Asked::Nothing => {}
            Asked::Refused(refusal) => reply_refusal(&mut self.out, *refusal)?,
            Asked::Asks(command, block) => {
                if has_step(command, 0) {
                    // Where a command has done its last step, its front is taken.
                    let ask = ask_at(alloc, command, block, self.step as usize)?.ok_or(AllocError)?;
                    if self.step == 0 {
                        self.lookup = keep_lookup(
                            &mut self.keys,
                            command,
                            front.bytes,
                            front.next,
                        )?;
                    }
                    return Ok(Some(self.ask(ask)));
                }
                reply_plain(&mut self.out, command)?;
            }
        }
        let (bytes, next) = (front.bytes, front.next);
        self.step = 0;
        self.reader.take(bytes, next);
        Ok(None)
    }

    // Asks the step that is next at its front.
    fn ask(&mut self, ask: Ask) -> Todo
        requires free { IsFree self.old }
        requires next { ask_at self.old.step (front_now self.old) ≡ Some ask }
        ensures { Needs self.old result self.new }
    {
        an_ask_goes_on();
        let Some(seq) = self.last.checked_add(1) else {
            return Todo::Closed(Ending::UsedUp);
        };
        self.last = seq;
        self.owed = true;
        let id = Id {
            pass: self.pass,
            seq,
        };
        Todo::Do(id, ask)
    }
}

// What a session needs where it is at rest, by the place of its next bytes.
fn rest_at(place: Place) -> Todo
    ensures next { (s : states.Session) → IsAtRest s → s.reads.reader.place ≡ place → IsNext s result }
    ensures counted { (s : states.Session) → IsCounted s result s }
{
    match place {
        Place::AtQuit => Todo::Closed(Ending::Quit),
        Place::TooLong => Todo::Closed(Ending::LineTooLong),
        Place::InLine | Place::InSkip => Todo::Input,
    }
}

// Whether a command is done after this answer to its step of this number, counted from 1.
fn is_done(told: &Told, command: &Command<'_>, step: u32) -> bool
    ensures { (block : List ℕ) → result ≡ is_done told.now step (asks_of command.now block) }
{
    match told {
        Told::NoMemory => true,
        _ => !has_step(command, step as usize),
    }
}
