// Laws of the commands of bytes. Each function's contract is the law; its body calls the laws that the law rests on, or
// is empty, and does nothing.
ghost use Rattle.flash_commands.specs.Laws.{MoreBytesGoOn, CutsDontMatter, AnEndStays, AReaderIsFed, AReaderSkips};
ghost use Rattle.flash_commands.specs.AskLaws.{ALookupAsksAtEachKey, AOneKeyCommandAsksOnce};
ghost use Rattle.flash_commands.specs.Laws.{AReaderTakesItsFront, ARestIsAll, ABlockIsAwaited, EachFrontHasAByte};
ghost use Rattle.flash_commands.specs.Laws.{BlocksAreWithin, ARestIsShort};

use flash_meta::data_is_within;
use flash_text::{data_follows_storage_lines, numbers_are_in_range};

/// The commands of more bytes go on after those of the first ones: from how many bytes are skipped, the place and the
/// bytes that are left.
pub fn more_bytes_go_on()
    ensures { MoreBytesGoOn }
{}

/// However a session's bytes are cut, their commands are the same.
pub fn cuts_dont_matter()
    ensures { CutsDontMatter }
{}

/// After `quit` and after too long a line no byte is read.
pub fn an_end_stays()
    ensures { AnEndStays }
{}

/// A reader that gets more bytes has read of the longer ones.
pub fn a_reader_is_fed()
    ensures { AReaderIsFed }
{}

/// A reader passes over bytes that are skipped as they come.
pub fn a_reader_skips()
    ensures { AReaderSkips }
{}

/// A reader gives what its front asks, and skips the front's bytes.
pub fn a_reader_takes_its_front()
    ensures { AReaderTakesItsFront }
{}

/// A reader that needs more bytes has given all that its bytes ask.
pub fn a_rest_is_all()
    ensures { ARestIsAll }
{}

/// The block of data that a line announces, of either protocol, has at most `item_max` bytes.
pub fn blocks_are_within()
    ensures { BlocksAreWithin }
{
    numbers_are_in_range();
    data_follows_storage_lines();
    data_is_within();
}

/// Where more bytes are needed, there are fewer unread ones than a line and the longest block with its end may have.
/// After `quit` and after too long a line none are needed.
pub fn a_rest_is_short()
    ensures { ARestIsShort }
{
    blocks_are_within();
}

/// After a line whose block isn't whole, more bytes are needed until the block and its end are there.
pub fn a_block_is_awaited()
    ensures { ABlockIsAwaited }
{}

/// A lookup of the text protocol asks at each of its keys, in their order.
pub fn a_lookup_asks_at_each_key()
    ensures { ALookupAsksAtEachKey }
{}

/// A command of the text protocol that has one key, and asks something at it, asks that alone.
pub fn a_one_key_command_asks_once()
    ensures { AOneKeyCommandAsksOnce }
{}

/// A front has a byte at least, and is there only where there is a byte.
pub fn each_front_has_a_byte()
    ensures { EachFrontHasAByte }
{}
