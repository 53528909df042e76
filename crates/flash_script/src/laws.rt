// Laws over every script. Each function's contract is the law; its body is empty, and does nothing.
ghost use Rattle.flash_script.specs.ScriptLaws.{AreReadOrBad, IsReadByFronts, IsNextFront, IsFirstBadFront, IsBadFirstLine, IsShortLine, IsShortFirstLine, HasTooManyBytes, HasTooManySteps, IsALine, IsAFeed, EachFeedIsRead, HasSeats, IsAnExample, IsAnExampleOfAFault};

/// Bytes are read as a script, and in one way, exactly where no line of theirs is bad.
pub fn each_script_is_read_or_bad()
    ensures { AreReadOrBad }
{}

/// A script that was read is its parts: its first line and the steps behind it, one directly behind
/// the other. Each is read, in order, and nothing is left over.
pub fn each_line_is_read()
    ensures parts { IsReadByFronts }

    // Directly behind a step's bytes the next step begins.
    ensures next { IsNextFront }
{}

/// A step is its line alone, or where that begins with the word `feed`, its line and the bytes
/// behind it, as many as the line says, with a line feed behind them.
pub fn each_step_is_a_line_or_a_feed()
    ensures line { IsALine }
    ensures feed { IsAFeed }
    ensures each_feed { EachFeedIsRead }

    // Two examples.
    ensures example { IsAnExample }
    ensures fault { IsAnExampleOfAFault }
{}

/// Where a step is bad, and line 1 and the steps before it are good, its line is the fault, with
/// its number.
pub fn the_first_bad_line_is_the_fault()
    ensures step { IsFirstBadFront }

    // A bad line 1 is the fault, and so is a last line that no line feed ends. Too many bytes are
    // before all, and too many steps before all faults of the first step too many and behind it.
    ensures first_line { IsBadFirstLine }
    ensures short { IsShortLine }
    ensures short_first_line { IsShortFirstLine }
    ensures long { HasTooManyBytes }
    ensures many { HasTooManySteps }
{}

/// The sessions of a script that was read are from 1 to 16.
pub fn each_session_has_a_seat()
    ensures { HasSeats }
{}
