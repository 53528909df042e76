// Laws of tables. Each function has no body: its contract is the law.
ghost use Rattle.flash_blocks.specs.Laws.{TheFirstIsInOrder, EachCallKeepsOrder, EachCallKeepsOne, EachCallKeepsSizes};
ghost use Rattle.flash_blocks.specs.Laws.{EachOpeningKeepsOrder, EachRecordStays, EachRecordIsRead, EachPutIsHeld};

/// The first table of a geometry is in order: it is sound, a byte of a label is in one buffer at most, and each sealed
/// buffer is taken.
pub fn the_first_is_in_order()
    ensures { TheFirstIsInOrder }
{}

/// A table stays in order through each call that frees no buffer.
pub fn each_call_keeps_order()
    ensures { EachCallKeepsOrder }
{}

/// A table stays in order where the bucket's next page is opened.
pub fn each_opening_keeps_order()
    ensures { EachOpeningKeepsOrder }
{}

/// A byte of a label stays in one buffer at most through each call.
pub fn each_call_keeps_one()
    ensures { EachCallKeepsOne }
{}

/// The sizes of blocks and of pages stay through each call.
pub fn each_call_keeps_sizes()
    ensures { EachCallKeepsSizes }
{}

/// A record that the buffers hold at a place is held there after each call that frees no buffer.
pub fn each_record_stays()
    ensures { EachRecordStays }
{}

/// A record that the buffers hold at a place is what is read there.
pub fn each_record_is_read()
    ensures { EachRecordIsRead }
{}

/// A record that is put is held at the place that the call answers. The place is in an Open page, which was opened
/// where the answer names it, and which counts one live record more, of the record's length; no other page changes.
pub fn each_put_is_held()
    ensures { EachPutIsHeld }
{}
