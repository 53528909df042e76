ghost use Rattle.std.specs.Prelude.{◌+◌, ◌<◌, ◌≤◌, IsTrue, List, MatchOption};
ghost use Rattle.std.specs.List.{IsDistinct};
ghost use Rattle.flash_names.specs.declared.place.Label.{Label};
ghost use Rattle.flash_names.specs.Labels.{same_label};
ghost use Rattle.flash_pages.specs.PageTable.{PageTable};
ghost use Rattle.flash_pages.specs.Calls.{Call, has_ended};
ghost use Rattle.flash_pages.specs.Freeable.{freeable, NoneToFree, IsFirstToFree};
ghost use Rattle.flash_pages.specs.Victims.{victim_evict, victim_compact, NoneToEvict, IsOldest, NoneToCompact, IsEmptiest};
ghost use Rattle.flash_pages.specs.Law.{AllAllowed, after_all, labels_given, Rise, pins_of, all_pins_taken, IsKept};

/// What holds over any list of calls that each may be made: a page keeps its version while a pin is left on
/// it, a label that has ended stays ended, and a label that was given is never given again; and which pages
/// are named to be freed, evicted and compacted. It does nothing.
pub fn keeps_the_law()
    // A label's pins fall by those that are taken from it alone, and while one is left its page is neither
    // freed nor opened again.
    ensures counted { (t : PageTable) (label : Label) (calls : List Call) →
        AllAllowed t calls → pins_of t label ≤ pins_of (after_all calls t) label + all_pins_taken label calls }
    ensures pinned { (t : PageTable) (label : Label) (calls : List Call) →
        AllAllowed t calls → all_pins_taken label calls < pins_of t label → IsKept (after_all calls t) label }

    // A label that was given and has ended stays ended.
    ensures ended { (t : PageTable) (label : Label) (calls : List Call) →
        AllAllowed t calls → label.version ≤ t.last_version → IsTrue (has_ended t label) → IsTrue (has_ended (after_all calls t) label) }

    // The versions of the labels that are given rise, and so no label is given twice.
    ensures rising { (t : PageTable) (calls : List Call) → Rise t.last_version (labels_given t calls) }
    ensures fresh { (t : PageTable) (calls : List Call) → IsDistinct same_label (labels_given t calls) }

    // The page that is named to be freed is the first that may be freed; none is named only where none may be.
    ensures freeable { (t : PageTable) → MatchOption (freeable t) (NoneToFree t) (IsFirstToFree t) }

    // The page to evict is the oldest, and the page to compact the emptiest of those that may be; there is
    // none only where too many pages are free, or none may be.
    ensures evicted { (t : PageTable) → MatchOption (victim_evict t) (NoneToEvict t) (IsOldest t) }
    ensures compacted { (t : PageTable) → MatchOption (victim_compact t) (NoneToCompact t) (IsEmptiest t) }
{}
