ghost use Rattle.std.specs.Prelude.{◌≡◌, IfOk, OnOk, OnErr, IsOk, IsTrue};
ghost use Rattle.flash_calls.specs.Calls.{tally_call};
ghost use Rattle.flash_calls.specs.Store.{Becomes, Stays};
ghost use Rattle.flash_core.specs.Sound.{IsNewTold};

use crate::state::Core;
use flash_calls::each_tally_goes_on;
use flash_entry::{DoneNote, Journal, Note, Tally};
use flash_names::Id;
use std::alloc::AllocError;

impl<J: Journal> Core<J> {
    /// The numbers of the store: its items, dead ones included that were not dropped yet, their load in bytes, the last
    /// CAS number, the moment, and the free pages. Memory runs out only where the journal isn't ready, and changes
    /// nothing. `id` has to be new: its pass isn't 0, and each step of that pass in the journal has a smaller number,
    /// where the journal tells its entries.
    pub fn tally(&mut self, id: Id) -> Result<Tally, AllocError>
        requires { IsNewTold self.old.told id }
        ensures ok { OnOk result (Becomes self.old
            (tally_call self.old.cache self.old.desk id) self.new) }
        ensures answer { IfOk result (λ answer. answer
            ≡ (tally_call self.old.cache self.old.desk id).answer) }
        ensures err { OnErr result (Stays self.old self.new) }
        ensures ready { IsTrue self.old.ready → IsOk result × IsTrue self.new.ready }
    {
        each_tally_goes_on();
        let tally = Tally {
            items: self.index.len(),
            load: self.index.load(),
            last_cas: self.numbers.last_cas,
            now: self.numbers.moment,
            free_pages: u64::from(self.blocks.free_pages()),
        };
        let did = Note::Did(id, DoneNote::Stats(tally));
        self.journal.note(did, None, None, None)?;
        Ok(tally)
    }
}
