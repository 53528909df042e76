// Laws of the lines that are read. Each function has no body: its contract is the law.
ghost use Rattle.flash_text.specs.LineLaws.{EachWordOfTheKeysIsAKey, NumbersAreInRange, DataFollowsStorageLines, RefusalsComeInOrder};

/// Each word of the keys of a line that is read is a key: 1 to 250 bytes, above 0x20 and not 0x7f.
pub fn each_word_of_the_keys_is_a_key()
    ensures { EachWordOfTheKeysIsAKey }
{}

/// The numbers of a line that is read are in their ranges, and its length is at most `item_max`.
pub fn numbers_are_in_range()
    ensures { NumbersAreInRange }
{}

/// Data follows exactly the storage lines, and as much as the line says.
pub fn data_follows_storage_lines()
    ensures { DataFollowsStorageLines }
{}

/// A line that has the words of its form is refused for its length that can't be read, else for its delta, else for
/// its other words, else for a length above `item_max`. One that isn't refused is read.
pub fn refusals_come_in_order()
    ensures { RefusalsComeInOrder }
{}
