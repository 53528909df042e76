ghost use Rattle.std.specs.Prelude.{◌≤◌, length};

use crate::laws::sessions_keep_their_laws;
use flash_answers::{do_ask, each_ask_records_itself, numbers_stay_new};
use flash_core::Core;
use flash_entry::Journal;
use flash_play::each_answer_had_memory;
use flash_script::SessionNumber;
use flash_session::{Ending, Session, Todo, a_new_session_stands_for_nothing};
use std::alloc::{AllocError, Global};

/// What a turn of a session was.
#[derive(Clone, Copy, Debug, PartialEq, Eq)]
pub enum Turn {
    /// A piece of its replies was taken, or a step of it was done.
    Taken,
    /// None: the session needs more bytes.
    Idle,
    /// None: the session's bytes have met their end, and it is closed.
    Closed,
}

/// A session of a script.
#[derive(Drop)]
pub struct Seat {
    session: Session,
    // The bytes that it was given: those from `start` on weren't fed yet.
    given: Vec<u8>,
    start: usize,
    // What it was answered.
    replies: Vec<u8>,
    // A turn of it has met the end of its bytes.
    closed: bool,
    ghost within: { start ≤ length given.items },
}

impl Seat {
    ghost use Rattle.std.specs.Prelude.{◌≡◌, ℕ, false, IfOk, OnOk, IsTrue, is_some};
    ghost use Rattle.flash_core.specs.Sound.{IsNewTold};
    ghost use Rattle.flash_play.specs.Playing as play;
    ghost use Rattle.flash_seats.specs.Seats.{IsSeat};
    ghost use Rattle.flash_seats.specs.Turns.{GoesOnBy, FedOrTurned, HasTurned, next_id, HasCollected, HasFed, HasEnded, HasRun};

    /// A session of this number that was given nothing. Its values have at most `item_max` bytes.
    pub fn new(alloc: Global, number: SessionNumber, item_max: u32) -> Seat
        ensures { IsSeat item_max number.number play.new_seat result }
    {
        a_new_session_stands_for_nothing();
        Seat {
            session: Session::new(alloc, number.number, item_max),
            given: Vec::new(alloc),
            start: 0,
            replies: Vec::new(alloc),
            closed: false,
        }
    }

    /// Gives the session more bytes. Where memory runs out nothing changes.
    pub fn give(&mut self, bytes: &[u8]) -> Result<(), AllocError>
        ensures given { OnOk result ((item_max number : ℕ) (seat : play.Seat) → IsSeat item_max number seat self.old
            → IsSeat item_max number (play.seat_with_more seat bytes.now) self.new) }
        ensures closed { OnOk result (self.new.closed ≡ self.old.closed) }
    {
        self.given.extend_from_slice(bytes)
    }

    /// Whether a turn of it has met the end of its bytes: it takes no more.
    pub fn is_closed(&self) -> bool
        ensures { result ≡ self.now.closed }
    {
        self.closed
    }

    /// What it was answered, one reply after the other.
    pub fn replies(&self) -> &[u8]
        ensures { result.now ≡ self.now.replies.items }
    {
        &self.replies
    }

    /// The session's next turn: a piece of its replies is taken, or else its next step is done. The number of that step has to
    /// be new. Where memory runs out it is of no more use.
    pub fn turn<J: Journal>(
        &mut self,
        alloc: Global,
        core: &mut Core<J>,
    ) -> Result<Turn, AllocError>
        requires tells { IsTrue (is_some core.old.told) }
        requires new { IsNewTold core.old.told (next_id self.old) }
        ensures turned { IfOk result (λ turn. (number : ℕ) (seat : play.Seat)
            → IsSeat core.old.geometry.item_max number seat self.old → HasTurned turn number seat core.old core.new self.new) }
        ensures tells { OnOk result (IsTrue (is_some core.new.told)) }
        ensures geometry { OnOk result (core.new.geometry ≡ core.old.geometry) }
    {
        'parts: for _ in 0..u64::MAX {
            if let Some(turn) = self.turn_or_feed(alloc, core)? {
                return Ok(turn);
            }
        }
        Err(AllocError)
    }

    /// All turns of the session: it does all steps that its bytes ask. The number of its next step has to be new. Where
    /// memory runs out it is of no more use.
    pub fn run<J: Journal>(&mut self, alloc: Global, core: &mut Core<J>) -> Result<(), AllocError>
        requires tells { IsTrue (is_some core.old.told) }
        requires new { IsNewTold core.old.told (next_id self.old) }
        ensures run { OnOk result ((number : ℕ) (seat : play.Seat)
            → IsSeat core.old.geometry.item_max number seat self.old → HasRun number seat core.old core.new self.new) }
        ensures tells { OnOk result (IsTrue (is_some core.new.told)) }
        ensures geometry { OnOk result (core.new.geometry ≡ core.old.geometry) }
    {
        'parts: for _ in 0..u64::MAX {
            if let Some(turn) = self.turn_or_feed(alloc, core)? {
                match turn {
                    Turn::Taken => {}
                    Turn::Idle => return Ok(()),
                    Turn::Closed => return Ok(()),
                }
            }
        }
        Err(AllocError)
    }

    // The session's next turn, or nothing where it was fed more of its bytes in place of it.
    fn turn_or_feed<J: Journal>(
        &mut self,
        alloc: Global,
        core: &mut Core<J>,
    ) -> Result<Option<Turn>, AllocError>
        requires tells { IsTrue (is_some core.old.told) }
        requires new { IsNewTold core.old.told (next_id self.old) }
        ensures turned { IfOk result (λ part. (number : ℕ) (seat : play.Seat)
            → IsSeat core.old.geometry.item_max number seat self.old → FedOrTurned part number seat core.old core.new self.new) }
        ensures part { IfOk result (λ part. GoesOnBy core.old self.old part core.new self.new) }
        ensures new { OnOk result (IsNewTold core.new.told (next_id self.new)) }
        ensures tells { OnOk result (IsTrue (is_some core.new.told)) }
        ensures geometry { OnOk result (core.new.geometry ≡ core.old.geometry) }
    {
        sessions_keep_their_laws();
        each_ask_records_itself();
        numbers_stay_new();
        each_answer_had_memory();
        match self.session.next(alloc)? {
            Todo::Write => self.collect()?,
            Todo::Do(id, ask) => {
                let told = do_ask(core, alloc, id, &ask)?;
                self.session.answer(&told)?;
            }
            Todo::Input => return Ok(if self.feed()? { Some(Turn::Idle) } else { None }),
            Todo::Closed(ending) => {
                self.end(ending)?;
                return Ok(Some(Turn::Closed));
            }
            Todo::Wait => return Err(AllocError),
        }
        Ok(Some(Turn::Taken))
    }

    // Ends the session. A script has too few bytes for 2^64 steps.
    fn end(&mut self, ending: Ending) -> Result<(), AllocError>
        ensures { OnOk result (HasEnded ending self.old self.new) }
    {
        match ending {
            Ending::UsedUp => Err(AllocError),
            Ending::Quit | Ending::LineTooLong => {
                self.closed = true;
                Ok(())
            }
        }
    }

    // Takes the session's replies.
    fn collect(&mut self) -> Result<(), AllocError>
        ensures { OnOk result (HasCollected self.old self.new) }
    {
        self.replies.extend_from_slice(self.session.out())?;
        self.session.sent(self.session.out().len());
        Ok(())
    }

    // Feeds the session as many of its bytes as it takes, and answers whether none are left to feed.
    fn feed(&mut self) -> Result<bool, AllocError>
        ensures { IfOk result (λ over. HasFed over self.old self.new) }
    {
        let rest = self.given.split_at(self.start).1;
        if rest.is_empty() {
            self.closed = false;
            return Ok(true);
        }
        self.start += self.session.feed(rest)?;
        Ok(false)
    }
}
