ghost use Rattle.std.specs.Prelude.{◌≡◌, ◌*◌, ◌<◌, ◌&&◌, length, nat_le, ◌↔◌, IsOk};
ghost use Rattle.flash_names.specs.Geometry.{check_result, first_broken, rules_of, whole_blocks, Passes};

use thiserror::Error;

/// The sizes of a store, as line 1 of a script gives them. `Geometry::check` tests the range that each field
/// names. The names follow memcached's options: `-m` for the memory, `-I` for the most bytes of an item, and
/// those of extstore (`ext_item_size`, `ext_page_size`, `ext_wbuf_size`, `ext_compact_under`, `ext_drop_under`,
/// `ext_max_frag`, `ext_recache_rate`).
#[derive(Clone, Copy, Debug, PartialEq, Eq)]
pub struct Geometry {
    /// The load in bytes above which items are evicted. From twice `item_max` to 4,294,967,296.
    pub memory: u64,
    /// The least number of value bytes with which an item moves to flash. From 64 on.
    pub item_size: u32,
    /// The most bytes of a value. Up to 1,047,552.
    pub item_max: u32,
    /// The number of pages of the flash file. From 3 to 4,096.
    pub pages: u32,
    /// The bytes of a page. A multiple of `buffer_size`, from that number itself to 67,108,864.
    pub page_size: u32,
    /// The bytes of a write buffer, which are those of a block of a page. From 64 to 4,194,304.
    pub buffer_size: u32,
    /// The number of write buffers. From 3 to 64.
    pub buffers: u32,
    /// Pages are compacted where at most so many are free. Up to `pages`.
    pub compact_under: u32,
    /// Pages are evicted where at most so many are free. Up to `pages`.
    pub drop_under: u32,
    /// A page is compacted where at most so many percent of it are live. Up to 100.
    pub max_frag: u32,
    /// Each n-th read from flash brings its value back to memory; 0 is never. Any number.
    pub recache: u32,
}

/// A geometry that a store refuses.
#[derive(Clone, Copy, Debug, PartialEq, Eq, Error)]
#[error("the geometry breaks rule {rule}")]
pub struct BadGeometry {
    /// The number, from 1 to 10, of the first rule that the geometry breaks.
    pub rule: u32,
}

impl Geometry {
    /// Tests the ten rules of a geometry in their order, and names the first that is broken.
    pub fn check(&self) -> Result<(), BadGeometry>
        ensures exact { result ≡ check_result self.now }
        ensures passes { IsOk result ↔ Passes self.now }
    {
        match first_broken_of(&self.kept_rules()) {
            None => Ok(()),
            Some(rule) => Err(BadGeometry { rule }),
        }
    }

    // Whether each rule is kept, in their order.
    #[tactic(auto, unfolding(crate::specs::Geometry::rules_of))]
    fn kept_rules(&self) -> [bool; 10]
        ensures { result ≡ rules_of self.now }
    {
        [
            64 <= self.item_size,
            is_between(self.buffer_size, 64, 4_194_304),
            is_whole_blocks(self.page_size, self.buffer_size),
            is_between(self.pages, 3, 4096),
            is_between(self.buffers, 3, 64),
            is_item_max(self.item_max, self.memory),
            self.memory <= 4_294_967_296,
            self.compact_under <= self.pages,
            self.drop_under <= self.pages,
            self.max_frag <= 100,
        ]
    }
}

// The number of the first rule that is broken, counted from 1.
fn first_broken_of(rules: &[bool]) -> Option<u32>
    requires { length rules.now < 100 }
    ensures { result ≡ first_broken 1 rules.now }
{
    let mut number = 1;
    'rules: for kept in rules {
        if !*kept {
            return Some(number);
        }
        number += 1;
    }
    None
}

fn is_between(value: u32, low: u32, high: u32) -> bool
    ensures { result ≡ (nat_le low value && nat_le value high) }
{
    low <= value && value <= high
}

fn is_whole_blocks(page_size: u32, buffer_size: u32) -> bool
    ensures { result ≡ whole_blocks page_size buffer_size }
{
    if buffer_size == 0 {
        return false;
    }
    page_size % buffer_size == 0 && is_between(page_size, buffer_size, 67_108_864)
}

fn is_item_max(item_max: u32, memory: u64) -> bool
    ensures { result ≡ (nat_le item_max 1047552 && nat_le (2 * item_max) memory) }
{
    item_max <= 1_047_552 && 2 * u64::from(item_max) <= memory
}
