// Laws of the lines that are read. Each function has no body: its contract is the law.
ghost use Rattle.flash_meta.specs.MetaLaws.{EachKeyIsThatOfItsWord, EachLineGivesItsWordsBack, NoLetterIsGivenTwice, NumbersAreInRange, DataIsWithin, RefusalsComeInOrder};

/// The key of a line that is read is its word, 1 to 250 bytes above 0x20 and not 0x7f. With the flag `b` the word is
/// the padded standard base64 of the key, and of no other.
pub fn each_key_is_that_of_its_word()
    ensures { EachKeyIsThatOfItsWord }
{}

/// A line that is read has the words that it gives back: its command, the key as it was sent, the length where it is
/// `ms`, and the flags as they were sent.
pub fn each_line_gives_its_words_back()
    ensures { EachLineGivesItsWordsBack }
{}

/// Flags that have a letter twice aren't read.
pub fn no_letter_is_given_twice()
    ensures { NoLetterIsGivenTwice }
{}

/// The numbers of a line that is read are in their ranges, and its length is at most `item_max`.
pub fn numbers_are_in_range()
    ensures { NumbersAreInRange }
{}

/// The data that follows a line has at most `item_max` bytes.
pub fn data_is_within()
    ensures { DataIsWithin }
{}

/// A line that has its words is refused for its flags, else for its key, else for a length above `item_max`. One that
/// isn't refused is read.
pub fn refusals_come_in_order()
    ensures { RefusalsComeInOrder }
{}
