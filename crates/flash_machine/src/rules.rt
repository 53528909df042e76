// What the rules decide, and those of pages, reads and writes in facts. Each function has no body: its contract is the
// law.
ghost use Rattle.flash_machine.specs.Deciding.{RulesDecide, TheLowestIsNamed};
ghost use Rattle.flash_machine.specs.RuleFacts.{InUseInFacts, OverInFacts, OpenedInFacts, WriteBeganInFacts};
ghost use Rattle.flash_machine.specs.RuleFacts.{WriteEndedInFacts, ReadBeganInFacts, ReadEndedInFacts};

/// The tests of the rules 7, 19 to 22 and 26, and of rule 6 but for whose the read is, pass exactly where the facts
/// hold that the rules name.
pub fn rules_of_pages_in_facts()
    ensures ended { InUseInFacts }
    ensures freed { OverInFacts }
    ensures opened { OpenedInFacts }
    ensures write_began { WriteBeganInFacts }
    ensures write_ended { WriteEndedInFacts }
    ensures read_began { ReadBeganInFacts }
    ensures read_ended { ReadEndedInFacts }
{}

/// No rule is broken exactly where each holds: what the checker decides is what a run asks. The rule that is named is
/// broken, and each of the entry's rules of a lower number holds.
pub fn rules_decide()
    ensures decide { RulesDecide }
    ensures lowest { TheLowestIsNamed }
{}
