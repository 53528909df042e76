ghost use Rattle.std.specs.Prelude.{◌≡◌, ◌*◌, ◌^◌, ◌<◌};
ghost use Rattle.flash_blocks.specs.BlockTable.{block_offset};
ghost use Rattle.flash_blocks.specs.Rooms.{closed};

use flash_buffers::BufferId;
use flash_names::Label;

/// The page that a bucket's records are appended to.
#[derive(Clone, Copy, Debug, PartialEq, Eq)]
pub struct OpenPage {
    /// The page and its version.
    pub label: Label,
    /// How many of its blocks are used up. These are its first ones, and the next block stands behind them.
    pub used: u32,
    /// The buffer of its open block, which is the one behind the used ones; `None` where no block is open.
    pub buffer: Option<BufferId>,
}

impl OpenPage {
    /// A page of which no block is used.
    pub fn new(label: Label) -> OpenPage
        ensures { result ≡ record { label = label; used = 0; buffer = None } }
    {
        OpenPage {
            label,
            used: 0,
            buffer: None,
        }
    }

    /// The page after its open block, where it has one, is used up.
    pub fn closed(self) -> OpenPage
        requires { (closed self).used < 2 ^ 32 }
        ensures { result ≡ closed self }
    {
        let open_blocks = if self.buffer.is_some() { 1 } else { 0 };
        OpenPage {
            label: self.label,
            used: self.used + open_blocks,
            buffer: None,
        }
    }

    /// The offset in the page of the block behind the used ones, where blocks have this size.
    pub fn offset(self, size: u32) -> u32
        requires { block_offset size self < 2 ^ 32 }
        ensures { result ≡ block_offset size self }
    {
        self.used * size
    }
}
