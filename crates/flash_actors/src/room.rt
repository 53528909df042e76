// What keeps a store within its memory where a step has stored an item.
ghost use Rattle.std.specs.Prelude.{◌≡◌, ℕ};
ghost use Rattle.flash_actors.specs.Stepping.{HasEvicted};

use flash_core::Core;
use flash_entry::{Ask, Journal};

// How many items a step evicts at most.
const MOST_EVICTED: u32 = 8;

/// Where the step may have stored an item, evicts items while they take more than the memory, at most eight. It stops
/// where the journal has no memory.
pub fn make_room_after<J: Journal>(core: &mut Core<J>, ask: &Ask)
    ensures { HasEvicted core.old core.new }
{
    if !may_store(ask) {
        return;
    }
    'rounds: for _ in 0..MOST_EVICTED {
        match core.make_room() {
            Ok(Some(_)) => {}
            Ok(None) => return,
            Err(_) => return,
        }
    }
}

// Whether a step may store an item.
fn may_store(ask: &Ask) -> bool {
    match ask {
        Ask::Store(_) | Ask::Sum(_) => true,
        Ask::Look(_, _) | Ask::Delete(_, _) | Ask::Touch(_, _) | Ask::Flush(_) | Ask::Stats => {
            false
        }
    }
}
