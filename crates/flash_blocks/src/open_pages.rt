ghost use Rattle.std.specs.Prelude.{◌≡◌};
ghost use Rattle.flash_blocks.specs.BlockTable.{BlockTable, open_page, with_open_page};

use crate::open_page::OpenPage;
use flash_pages::Bucket;

/// The open page of each bucket, where it has one.
#[derive(Clone, Copy, Debug, PartialEq, Eq)]
pub struct OpenPages {
    /// That of `Bucket::Default`.
    pub default: Option<OpenPage>,
    /// That of `Bucket::Compact`.
    pub compact: Option<OpenPage>,
}

impl OpenPages {
    /// No bucket has one.
    pub const NONE: OpenPages = OpenPages {
        default: None,
        compact: None,
    };

    /// The bucket's open page.
    pub fn of(&self, bucket: Bucket) -> Option<OpenPage>
        ensures { (t : BlockTable) → result
            ≡ open_page (record t { default = self.now.default; compact = self.now.compact }) bucket }
    {
        match bucket {
            Bucket::Default => self.default,
            Bucket::Compact => self.compact,
        }
    }

    /// Makes this the bucket's open page.
    pub fn set(&mut self, bucket: Bucket, page: Option<OpenPage>)
        ensures { (t : BlockTable) → record t { default = self.new.default; compact = self.new.compact }
            ≡ with_open_page (record t { default = self.old.default; compact = self.old.compact }) bucket page }
    {
        match bucket {
            Bucket::Default => self.default = page,
            Bucket::Compact => self.compact = page,
        }
    }
}
