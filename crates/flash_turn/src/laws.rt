// Laws of the numbers of passes. The function has no body: its contract is the law.
ghost use Rattle.flash_turn.specs.Apart.{NumbersDiffer};

use crate::Shared;

/// A pass that is split off has another number than the pass that it is split off, and than each pass that this one
/// has split off before or has joined.
pub fn numbers_differ<T: Shared>()
    ensures { NumbersDiffer T.story T.own T.face T.fixed }
{}
