// The law of a touch.
ghost use Rattle.flash_steps.specs.Touched.{ATouchChangesTheDeadlineAlone};

/// A touch gives the item its deadline, and changes nothing else of it, of other items, or of the numbers.
pub fn a_touch_changes_the_deadline_alone()
    ensures { ATouchChangesTheDeadlineAlone }
{}
