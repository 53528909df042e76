// Laws of the rules of entries. Each function has no body: its contract is the law.
ghost use Rattle.flash_heads.specs.RuleLaws.{EachAnswerIsThatOfTheHeads, EachFindIsThatOfTheHeads};
ghost use Rattle.flash_heads.specs.RuleLaws.{EachRuleIsThatOfTheHeads, EachEntryMeetsAlike, EachRunIsLegalAlike};

/// A command's answer is that of its step over the heads exactly where it is that of its step.
pub fn each_answer_is_that_of_the_heads()
    ensures { EachAnswerIsThatOfTheHeads }
{}

/// What a lookup found is right over the heads exactly where it is right.
pub fn each_find_is_that_of_the_heads()
    ensures { EachFindIsThatOfTheHeads }
{}

/// The rules of an entry, of whatever kind, are the same over the heads.
pub fn each_rule_is_that_of_the_heads()
    ensures { EachRuleIsThatOfTheHeads }
{}

/// An entry meets its rules over the heads exactly where it meets them.
pub fn each_entry_meets_alike()
    ensures { EachEntryMeetsAlike }
{}

/// Entries that move no value into memory are legal over the heads exactly where they are legal.
pub fn each_run_is_legal_alike()
    ensures { EachRunIsLegalAlike }
{}
