ghost use Rattle.std.specs.Prelude.{ℕ, List};
ghost use Rattle.flash_names.specs.declared.place.Id.{Id};
ghost use Rattle.flash_io.specs.TicketTable.{TicketTable, queued_with};
ghost use Rattle.flash_io.specs.Sound.{IsSound};
ghost use Rattle.flash_io.specs.Finding.{IsFinding};
ghost use Rattle.flash_io.specs.Calls.{Call};
ghost use Rattle.flash_io.specs.Law.{AllAllowed, ClosesAtMost};

/// Each ticket is closed at most once: however the calls follow each other, the tickets in a slot are closed no more
/// often than tickets were put into it, the one that was there before included.
pub fn closes_once()
    ensures { (t : TicketTable) (slot : ℕ) (calls : List Call) → AllAllowed t calls → ClosesAtMost t slot calls }
{}

/// What is found by an id in the queue is a queued ticket with the id, and nothing is found exactly where no queued
/// ticket has it. `Tickets::keep_the_law` says that all tickets are sound at any time.
pub fn finds_the_queued()
    ensures { (t : TicketTable) (id : Id) → IsSound t → IsFinding t id (queued_with t id) }
{}
