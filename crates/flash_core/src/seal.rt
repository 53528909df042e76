ghost use Rattle.std.specs.Prelude.{◌≡◌};
ghost use Rattle.flash_calls.specs.Seals.{seal_call};
ghost use Rattle.flash_calls.specs.Store.{Becomes};

use crate::state::Core;
use flash_calls::each_seal_goes_on;
use flash_entry::Journal;
use flash_pages::Bucket;

impl<J: Journal> Core<J> {
    /// Puts the bucket's open block into the queue of those that are to be written, where it holds a record, and
    /// answers whether it does. The bucket's next record goes to another block.
    pub fn seal(&mut self, bucket: Bucket) -> bool
        ensures done { Becomes self.old (seal_call self.old.cache self.old.desk bucket) self.new }
        ensures answer { result ≡ (seal_call self.old.cache self.old.desk bucket).answer }
        ensures ready { self.new.ready ≡ self.old.ready }
    {
        each_seal_goes_on();
        self.blocks.seal(bucket)
    }
}
