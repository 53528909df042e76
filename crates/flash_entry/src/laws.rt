// Laws of the texts. Each function has no body: its contract is the law.
ghost use Rattle.flash_entry.specs.EntryLaws.{EachEntryIsOneLine, EachEntryIsReadBack, WhatIsReadIsAnEntry, WhatIsReadIsItsLine};
ghost use Rattle.flash_entry.specs.GeometryLineLaws.{GeometryLinesAreReadBack};

/// The line that is printed of a geometry that keeps its rules is read as that geometry.
pub fn geometry_lines_are_read_back()
    ensures { GeometryLinesAreReadBack }
{}

/// The line of every entry, without its line feed, is read as that entry.
pub fn each_entry_is_read_back()
    ensures { EachEntryIsReadBack }
{}

/// A line that is read as an entry is the line of that entry, without its line feed.
pub fn what_is_read_is_its_line()
    ensures { WhatIsReadIsItsLine }
{}

/// What is read of a line is an entry of the type: each number fits its field.
pub fn what_is_read_is_an_entry()
    ensures { WhatIsReadIsAnEntry }
{}

/// The line of every entry has a line feed at its end, and none before it.
pub fn each_entry_is_one_line()
    ensures { EachEntryIsOneLine }
{}
