// Laws of runs that are known by their heads. Each function has no body: its contract is the law.
ghost use Rattle.flash_heads.specs.KnownRun.{TheFirstRunIsKnown, AKnownRunGoesOn, AKnownRunGoesOnByMoves};
ghost use Rattle.flash_heads.specs.KnownRun.{AKnownRunGoesOnByAMove, AKnownRunGoesOnByARecache};

/// The empty journal is known by the first cache.
pub fn the_first_run_is_known()
    ensures { TheFirstRunIsKnown }
{}

/// A run that is known by its heads goes on by entries that are legal over them and move no value.
pub fn a_known_run_goes_on()
    ensures { AKnownRunGoesOn }
{}

/// A run that is known by its heads goes on by moves to pages, after which the heads are hidden.
pub fn a_known_run_goes_on_by_moves()
    ensures { AKnownRunGoesOnByMoves }
{}

/// A run that is known by its heads goes on by a move, after which the heads have the item with its label and zeros.
pub fn a_known_run_goes_on_by_a_move()
    ensures { AKnownRunGoesOnByAMove }
{}

/// A run that is known by its heads goes on by a recache, after which the heads have the item with its value.
pub fn a_known_run_goes_on_by_a_recache()
    ensures { AKnownRunGoesOnByARecache }
{}
