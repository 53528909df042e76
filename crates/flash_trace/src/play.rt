ghost use Rattle.std.specs.Prelude.{◌≡◌, ℕ, ◌-◌, not, [], ◌∷◌, ◌++◌, Option, None, Some, decimal, length, replicate, slice_set, if◌then◌else◌, IfOk, OnOk, IsTrue, is_some};
ghost use Rattle.flash_calls.specs.Store.{Becomes};
ghost use Rattle.flash_play.specs.Playing as play;
ghost use Rattle.flash_seats.specs.Seats.{IsSeat};
ghost use Rattle.flash_script.specs.CodeScripts.{step_meant, IsWithin};
ghost use Rattle.flash_trace.specs.Seats.{IsMade, AreSeats, IsPlay, TraceGoesOn, with_turn_line};

use flash_core::Core;
use flash_entry::Journal;
use flash_names::Geometry;
use flash_script::{MAX_SESSIONS, SessionNumber, Step, Upkeep};
use flash_seats::{Seat, Turn, a_seat_has_the_next_number};
use itoa::Buffer;
use std::alloc::{AllocError, Global};

/// What a trace has printed and answered so far.
#[derive(Drop)]
pub struct Play {
    /// The lines that steps printed.
    pub printed: Vec<u8>,
    /// The sessions from 1 to 16, as far as they are made.
    pub seats: Vec<Option<Seat>>,
}

impl Play {
    /// Before the first step: nothing was printed, and no session was made.
    pub fn new(alloc: Global) -> Result<Play, AllocError>
        ensures printed { IfOk result (λ play. play.printed.items ≡ []) }
        ensures seats { IfOk result (λ play. play.seats.items ≡ replicate 16 None) }
    {
        let mut seats = Vec::new(alloc);
        'seats: for _ in 0..MAX_SESSIONS {
            seats.push(None)?;
        }
        Ok(Play {
            printed: Vec::new(alloc),
            seats,
        })
    }

    /// Does one step of the script, which is on this line.
    pub fn step<J: Journal>(
        &mut self,
        alloc: Global,
        core: &mut Core<J>,
        script: &[u8],
        step: Step,
        line: u64,
    ) -> Result<(), AllocError>
        requires going { TraceGoesOn core.old self.old }
        requires within { IsWithin (length script.now) step }
        ensures done { OnOk result ((p : play.Play) → IsPlay p core.old self.old
            → IsPlay (play.play_step core.old.geometry p line (step_meant script.now step)) core.new self.new) }
        ensures places { OnOk result (length self.new.seats.items ≡ 16) }
        ensures tells { OnOk result (IsTrue (is_some core.new.told)) }
        ensures geometry { OnOk result (core.new.geometry ≡ core.old.geometry) }
    {
        match step {
            Step::Clock(reading) => self.clock(core, reading, line),
            Step::Say(session, first, last) => {
                let input = &script[first as usize..last as usize];
                self.feed(alloc, &core.geometry(), session, input, b"\r\n", line)
            }
            Step::Feed(session, first, last) => {
                let input = &script[first as usize..last as usize];
                self.feed(alloc, &core.geometry(), session, input, b"", line)
            }
            Step::Turn(session) => self.turn(alloc, core, session, line),
            Step::Run(session) => self.run(alloc, core, session),
            Step::Keep(kind) => self.upkeep(core, kind, line),
        }
    }

    // Reads the clock. Where the moment doesn't rise, a line is printed.
    fn clock<J: Journal>(
        &mut self,
        core: &mut Core<J>,
        reading: u64,
        line: u64,
    ) -> Result<(), AllocError>
        requires tells { IsTrue (is_some core.old.told) }
        ensures done { OnOk result ((p : play.Play) → IsPlay p core.old self.old
            → IsPlay (play.clock p line reading) core.new self.new) }
        ensures seats { OnOk result (self.new.seats.items ≡ self.old.seats.items) }
        ensures tells { OnOk result (IsTrue (is_some core.new.told)) }
        ensures geometry { OnOk result (core.new.geometry ≡ core.old.geometry) }
    {
        let rose = core.clock(reading)?;
        self.print_unless(rose, b"idle", line)
    }

    // Keeps the store within its memory. Where there is nothing to do, a line is printed.
    fn upkeep<J: Journal>(
        &mut self,
        core: &mut Core<J>,
        kind: Upkeep,
        line: u64,
    ) -> Result<(), AllocError>
        requires tells { IsTrue (is_some core.old.told) }
        ensures done { OnOk result ((p : play.Play) → IsPlay p core.old self.old
            → IsPlay (play.upkeep core.old.geometry p line kind) core.new self.new) }
        ensures seats { OnOk result (self.new.seats.items ≡ self.old.seats.items) }
        ensures tells { OnOk result (IsTrue (is_some core.new.told)) }
        ensures geometry { OnOk result (core.new.geometry ≡ core.old.geometry) }
    {
        let done = do_upkeep(core, kind)?;
        self.print_unless(done, b"idle", line)
    }

    // Gives the session these bytes, and those of the end after them. One that is closed takes nothing, and a line is
    // printed.
    fn feed(
        &mut self,
        alloc: Global,
        geometry: &Geometry,
        session: SessionNumber,
        input: &[u8],
        end: &[u8],
        line: u64,
    ) -> Result<(), AllocError>
        requires places { length self.old.seats.items ≡ 16 }
        ensures done { OnOk result ((p : play.Play) → (length p.seats ≡ 16)
            → AreSeats geometry.now.item_max 1 p.seats self.old.seats.items → p.printed ≡ self.old.printed.items
            → (AreSeats geometry.now.item_max 1
            (play.feed p line session.number (input.now ++ end.now)).seats self.new.seats.items)
            × ((play.feed p line session.number (input.now ++ end.now)).printed ≡ self.new.printed.items)) }
        ensures places { OnOk result (length self.new.seats.items ≡ 16) }
    {
        let mut seat = self.take_seat(alloc, geometry.item_max, session);
        let taken = give_both(&mut seat, input, end)?;
        self.put_seat(session, seat);
        self.print_unless(taken, b"closed", line)
    }

    // The session's next turn. Where there is none, a line is printed.
    fn turn<J: Journal>(
        &mut self,
        alloc: Global,
        core: &mut Core<J>,
        session: SessionNumber,
        line: u64,
    ) -> Result<(), AllocError>
        requires going { TraceGoesOn core.old self.old }
        ensures done { OnOk result ((p : play.Play) → IsPlay p core.old self.old
            → IsPlay (play.turn core.old.geometry p line session.number) core.new self.new) }
        ensures places { OnOk result (length self.new.seats.items ≡ 16) }
        ensures tells { OnOk result (IsTrue (is_some core.new.told)) }
        ensures geometry { OnOk result (core.new.geometry ≡ core.old.geometry) }
    {
        a_seat_has_the_next_number();
        let mut seat = self.take_seat(alloc, core.geometry().item_max, session);
        let turn = seat.turn(alloc, core)?;
        self.put_seat(session, seat);
        self.print_turn(turn, line)
    }

    // All turns of the session: does the commands that it was given.
    fn run<J: Journal>(
        &mut self,
        alloc: Global,
        core: &mut Core<J>,
        session: SessionNumber,
    ) -> Result<(), AllocError>
        requires going { TraceGoesOn core.old self.old }
        ensures done { OnOk result ((p : play.Play) → IsPlay p core.old self.old
            → IsPlay (play.run core.old.geometry p session.number) core.new self.new) }
        ensures places { OnOk result (length self.new.seats.items ≡ 16) }
        ensures tells { OnOk result (IsTrue (is_some core.new.told)) }
        ensures geometry { OnOk result (core.new.geometry ≡ core.old.geometry) }
    {
        a_seat_has_the_next_number();
        let mut seat = self.take_seat(alloc, core.geometry().item_max, session);
        seat.run(alloc, core)?;
        self.put_seat(session, seat);
        Ok(())
    }

    // Takes the session of this number out, a new one where it isn't made yet.
    fn take_seat(&mut self, alloc: Global, item_max: u32, session: SessionNumber) -> Seat
        requires places { length self.old.seats.items ≡ 16 }
        ensures seat { (p : play.Play) → AreSeats item_max 1 p.seats self.old.seats.items
            → IsSeat item_max session.number (play.seat_at p session.number) result }
        ensures seats { self.new.seats.items ≡ slice_set self.old.seats.items (session.number - 1) None }
        ensures printed { self.new.printed.items ≡ self.old.printed.items }
    {
        let made = std::mem::replace(&mut self.seats[session.index()], None);
        made_or_new(alloc, item_max, session, made)
    }

    // Puts it back.
    fn put_seat(&mut self, session: SessionNumber, seat: Seat)
        requires places { length self.old.seats.items ≡ 16 }
        ensures seats { self.new.seats.items ≡ slice_set self.old.seats.items (session.number - 1) (Some seat) }
        ensures printed { self.new.printed.items ≡ self.old.printed.items }
    {
        self.seats[session.index()] = Some(seat);
    }

    // Prints the word and the line's number where it wasn't done.
    fn print_unless(&mut self, done: bool, word: &[u8], line: u64) -> Result<(), AllocError>
        ensures printed { OnOk result (self.new.printed.items ≡ (if done then self.old.printed.items
            else self.old.printed.items ++ word.now ++ 32 ∷ decimal line ++ 10 ∷ [])) }
        ensures seats { OnOk result (self.new.seats.items ≡ self.old.seats.items) }
    {
        if done {
            return Ok(());
        }
        self.print(word, line)
    }

    // Prints the line of a session's turn where there was none.
    fn print_turn(&mut self, turn: Turn, line: u64) -> Result<(), AllocError>
        ensures printed { OnOk result (self.new.printed.items ≡ with_turn_line self.old.printed.items line turn) }
        ensures seats { OnOk result (self.new.seats.items ≡ self.old.seats.items) }
    {
        match turn {
            Turn::Taken => Ok(()),
            Turn::Idle => self.print(b"idle", line),
            Turn::Closed => self.print(b"closed", line),
        }
    }

    // Prints the word and the line's number.
    fn print(&mut self, word: &[u8], line: u64) -> Result<(), AllocError>
        ensures printed { OnOk result (self.new.printed.items
            ≡ self.old.printed.items ++ word.now ++ 32 ∷ decimal line ++ 10 ∷ []) }
        ensures seats { OnOk result (self.new.seats.items ≡ self.old.seats.items) }
    {
        self.printed.extend_from_slice(word)?;
        self.printed.extend_from_slice(b" ")?;
        self.printed
            .extend_from_slice(Buffer::new().format(line).as_bytes())?;
        self.printed.extend_from_slice(b"\n")
    }
}

// Gives the session these bytes, and those of the end after them, and answers whether it took them: one that is closed
// takes nothing.
fn give_both(seat: &mut Seat, input: &[u8], end: &[u8]) -> Result<bool, AllocError>
    ensures taken { IfOk result (λ taken. taken ≡ not seat.old.closed) }
    ensures heard { IfOk result (λ taken. (item_max number : ℕ) (s : play.Seat) → IsSeat item_max number s seat.old
        → IsSeat item_max number (if taken then play.seat_with_more s (input.now ++ end.now) else s) seat.new) }
{
    if seat.is_closed() {
        return Ok(false);
    }
    seat.give(input)?;
    seat.give(end)?;
    Ok(true)
}

// Does it, and answers whether there was something to do.
fn do_upkeep<J: Journal>(core: &mut Core<J>, kind: Upkeep) -> Result<bool, AllocError>
    ensures done { OnOk result (Becomes core.old
        (play.upkeep_call core.old.geometry core.old.cache core.old.desk kind) core.new) }
    ensures answer { IfOk result (λ done. done
        ≡ (play.upkeep_call core.old.geometry core.old.cache core.old.desk kind).answer) }
{
    match kind {
        Upkeep::Room => Ok(core.make_room()?.is_some()),
        Upkeep::Reap => Ok(core.reap_one()?.is_some()),
        Upkeep::Juggle => Ok(core.juggle_one()),
    }
}

fn made_or_new(alloc: Global, item_max: u32, session: SessionNumber, made: Option<Seat>) -> Seat
    ensures { (seat : Option play.Seat) → IsMade item_max session.number seat made
        → IsSeat item_max session.number (play.seat_or_new (Some seat)) result }
{
    match made {
        Some(seat) => seat,
        None => Seat::new(alloc, session, item_max),
    }
}
