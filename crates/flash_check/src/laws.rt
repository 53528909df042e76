// Laws over every journal: the contract is the law.
ghost use Rattle.flash_check.specs.JournalLaws.{EachRunIsLegal};

use flash_entry::{
    each_entry_is_one_line, each_entry_is_read_back, what_is_read_is_an_entry,
    what_is_read_is_its_line,
};
use flash_machine::{each_entry_is_a_step, rules_decide};

/// A check answers `Legal` with a number of entries exactly on one good `store` line and the lines of so many entries,
/// each ended by a line feed, that are a run of the one-thread cache.
pub fn each_run_is_legal()
    ensures { EachRunIsLegal }
{
    // These laws have no bodies: the calls bring what they say into this function's proof.
    each_entry_is_one_line();
    each_entry_is_read_back();
    what_is_read_is_an_entry();
    what_is_read_is_its_line();
    each_entry_is_a_step();
    rules_decide();
}
