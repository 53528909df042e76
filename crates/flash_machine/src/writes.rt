// Laws of the bytes that were written. Each function has no body: its contract is the law.
ghost use Rattle.flash_machine.specs.WriteLaws.{AByteBeingWrittenIsUnknown, AGoodWriteIsKnown, WhatIsKnownStays};
ghost use Rattle.flash_machine.specs.WriteLaws.{AReadGivesTheLastWrite};

/// After a good end of a write its bytes are known to be at its place, and stay known until a write over the place
/// begins; while that write is open, no byte of its place is known.
pub fn what_is_written_stays()
    ensures known { AGoodWriteIsKnown }
    ensures stays { WhatIsKnownStays }
    ensures unknown { AByteBeingWrittenIsUnknown }
{}

/// In an orderly and honest journal a read of the place of a good write gives the bytes of the write, where no write
/// over the place began between the end of the write and the end of the read.
pub fn a_read_gives_the_last_write()
    ensures { AReadGivesTheLastWrite }
{}
