ghost use Rattle.std.specs.Prelude.{◌≡◌, IfOk, OnOk, OnErr, IsOk, IsTrue};
ghost use Rattle.flash_machine.specs.Cache.{Items};
ghost use Rattle.flash_machine.specs.Steps.{clock_next};
ghost use Rattle.flash_calls.specs.Calls.{clock_call};
ghost use Rattle.flash_calls.specs.Store.{Becomes, Stays};
ghost use Rattle.flash_core.specs.Numbers.{cache_of_items};

use crate::numbers::Numbers;
use crate::state::Core;
use flash_calls::each_clock_goes_on;
use flash_entry::{Journal, Note};
use std::alloc::AllocError;

// The last moment that a clock may give, in Unix seconds.
const LAST_MOMENT: u64 = 1 << 62;

impl<J: Journal> Core<J> {
    /// Sets the moment to a clock's reading, in Unix seconds, where it is above the moment. A reading above
    /// 2^62 counts as 2^62. A delayed flush whose moment is reached takes effect. Answers whether the moment rose.
    /// Memory runs out only where the journal isn't ready, and changes nothing.
    pub fn clock(&mut self, reading: u64) -> Result<bool, AllocError>
        ensures ok { OnOk result (Becomes self.old (clock_call self.old.cache self.old.desk reading) self.new) }
        ensures answer { IfOk result (λ answer. answer ≡ (clock_call self.old.cache self.old.desk reading).answer) }
        ensures err { OnErr result (Stays self.old self.new) }
        ensures ready { IsTrue self.old.ready → IsOk result × IsTrue self.new.ready }
    {
        each_clock_goes_on();
        let moment = reading.min(LAST_MOMENT);
        if moment <= self.numbers.moment {
            return Ok(false);
        }
        self.journal.note(Note::Clock(moment), None, None, None)?;
        self.numbers = at_moment(self.numbers, moment);
        Ok(true)
    }
}

// The numbers at a new moment.
fn at_moment(numbers: Numbers, moment: u64) -> Numbers
    ensures { (items : Items) → cache_of_items items result ≡ clock_next (cache_of_items items numbers) moment }
{
    match numbers.pending_flush {
        Some(at) if at <= moment => Numbers {
            moment,
            flush_mark: numbers.last_cas,
            pending_flush: None,
            ..numbers
        },
        _ => Numbers { moment, ..numbers },
    }
}
