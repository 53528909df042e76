// Laws of the replies. Each function has no body: its contract is the law.
ghost use Rattle.flash_reply.specs.ReplyLaws.{EachReplyIsWholeLines, EachLookupEndsOnce};

/// A reply is empty, or ends with `\r\n`.
pub fn each_reply_is_whole_lines()
    ensures { EachReplyIsWholeLines }
{}

/// A lookup whose keys are all answered is replied the blocks of what was found, in order, and then `END` once.
pub fn each_lookup_ends_once()
    ensures { EachLookupEndsOnce }
{}
