// The definitions on a worked example. The function has no body: its contract says what they make of it.
ghost use Rattle.flash_answers.specs.Examples.{ReadsOutcomes, KeepsToAsks};

/// Of a journal with the steps of two passes, those of one pass were told what their entries say, and a step without an
/// entry had no memory; and the journal keeps to what that pass asked.
pub fn worked_example()
    ensures outcomes { ReadsOutcomes }
    ensures keeps { KeepsToAsks }
{}
