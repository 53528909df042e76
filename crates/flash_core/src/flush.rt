ghost use Rattle.std.specs.Prelude.{◌≡◌, ◌^◌, ◌≤◌, IfOk, OnOk, OnErr, IsOk, IsTrue};
ghost use Rattle.flash_machine.specs.Cache.{Items};
ghost use Rattle.flash_machine.specs.Touching.{flush_next};
ghost use Rattle.flash_calls.specs.Calls.{flush_call};
ghost use Rattle.flash_calls.specs.Store.{Becomes, Stays};
ghost use Rattle.flash_core.specs.Numbers.{cache_of_items};
ghost use Rattle.flash_core.specs.Sound.{IsNewTold};

use crate::choice::deadline_of;
use crate::numbers::Numbers;
use crate::state::Core;
use flash_calls::each_flush_goes_on;
use flash_entry::{DoneNote, Journal, Note};
use flash_names::Id;
use std::alloc::AllocError;

impl<J: Journal> Core<J> {
    /// Makes each item dead that is there, at the deadline of this delay, an exptime as `Put::exptime`. Where that is
    /// none, or is reached, it is done at once, and a pending flush is forgotten; else the flush is pending in the place
    /// of one that is, and the clock step that reaches its deadline does it. Memory runs out only where the journal
    /// isn't ready, and changes nothing. `id` has to be new: its pass isn't 0, and each step of that pass in the journal
    /// has a smaller number, where the journal tells its entries.
    pub fn flush(&mut self, id: Id, delay: i64) -> Result<(), AllocError>
        requires { IsNewTold self.old.told id }
        ensures ok { OnOk result (Becomes self.old (flush_call self.old.cache self.old.desk id delay) self.new) }
        ensures err { OnErr result (Stays self.old self.new) }
        ensures ready { IsTrue self.old.ready → IsOk result × IsTrue self.new.ready }
    {
        each_flush_goes_on();
        let did = Note::Did(id, DoneNote::Flush(delay));
        self.journal.note(did, None, None, None)?;
        self.numbers = flushed_after(self.numbers, delay);
        Ok(())
    }
}

// The numbers after a flush with this delay.
fn flushed_after(numbers: Numbers, delay: i64) -> Numbers
    requires { numbers.moment ≤ 2 ^ 62 }
    ensures { (items : Items) → cache_of_items items result ≡ flush_next (cache_of_items items numbers) delay }
{
    match deadline_of(delay, numbers.moment) {
        Some(moment) if moment > numbers.moment => Numbers {
            pending_flush: Some(moment),
            ..numbers
        },
        _ => Numbers {
            flush_mark: numbers.last_cas,
            pending_flush: None,
            ..numbers
        },
    }
}
