// Laws of the reads of flash. Each function has no body: its contract is the law.
ghost use Rattle.flash_machine.specs.ReadLaws.{AStepReadsOnce, AReadEndsOnce, AReadHasItsLength};

/// No two reads of a step begin, and none ends twice.
pub fn a_step_reads_once()
    ensures begins { AStepReadsOnce }
    ensures ends { AReadEndsOnce }
{}

/// The bytes of a read are as many as those of its place.
pub fn a_read_has_its_length()
    ensures { AReadHasItsLength }
{}
