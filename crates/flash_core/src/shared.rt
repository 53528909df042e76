// A store behind a lock that threads take in turn.
ghost use Rattle.flash_names.specs.declared.geometry.Geometry.{Geometry};
ghost use Rattle.flash_entry.specs.declared.entry.Entry.{Entry};
ghost use Rattle.flash_core.specs.SharedStore.{Face, told_of, geometry_of, own_steps, face_of};

use crate::state::Core;
use flash_entry::Journal;
use flash_names::Shared;

/// Its story is its journal. A pass's own are the entries of its steps. The geometry never changes.
impl<J: Journal> Shared for Core<J> {
    ghost Entry = { Entry };

    ghost Thing = { Entry };

    ghost Fixed = { Geometry };

    ghost Face = { Face };

    ghost story = { told_of };

    ghost own = { own_steps };

    ghost fixed = { geometry_of };

    ghost face = { face_of };
}
