// The options that take a number.
ghost use Rattle.std.specs.Prelude.{◌≡◌, ◌≤◌, IfSome};
ghost use Rattle.flash_serve.specs.Numbers.{number_within, plain_number};

use flash_names::read_number;

/// An option that takes a number.
#[derive(Clone, Copy)]
pub struct NumberOption {
    /// Its name, without the two hyphens.
    pub name: &'static str,
    /// What it is where it isn't given; of `sessions`, which is then the number of workers, nothing.
    pub default: &'static str,
    /// The least number that it takes.
    pub least: u64,
    /// The greatest.
    pub most: u64,
}

const MOST_U32: u64 = 4_294_967_295;

pub const PORT: NumberOption = NumberOption {
    name: "port",
    default: "11211",
    least: 0,
    most: 65_535,
};

pub const CONNECTIONS: NumberOption = NumberOption {
    name: "connections",
    default: "1000000",
    least: 1,
    most: 1_000_000,
};

pub const WORKERS: NumberOption = NumberOption {
    name: "workers",
    default: "4",
    least: 1,
    most: 16,
};

pub const IO: NumberOption = NumberOption {
    name: "io",
    default: "2",
    least: 1,
    most: 8,
};

pub const SESSIONS: NumberOption = NumberOption {
    name: "sessions",
    default: "",
    least: 1,
    most: 4096,
};

pub const IDLE_TIMEOUT: NumberOption = NumberOption {
    name: "idle-timeout",
    default: "0",
    least: 0,
    most: MOST_U32,
};

pub const MEMORY: NumberOption = NumberOption {
    name: "memory",
    default: "67108864",
    least: 0,
    most: u64::MAX,
};

pub const ITEM_SIZE: NumberOption = NumberOption {
    name: "item-size",
    default: "512",
    least: 0,
    most: MOST_U32,
};

pub const ITEM_MAX: NumberOption = NumberOption {
    name: "item-max",
    default: "1047552",
    least: 0,
    most: MOST_U32,
};

pub const PAGES: NumberOption = NumberOption {
    name: "pages",
    default: "64",
    least: 0,
    most: MOST_U32,
};

pub const PAGE_SIZE: NumberOption = NumberOption {
    name: "page-size",
    default: "4194304",
    least: 0,
    most: MOST_U32,
};

pub const BUFFER_SIZE: NumberOption = NumberOption {
    name: "buffer-size",
    default: "1048576",
    least: 0,
    most: MOST_U32,
};

pub const BUFFERS: NumberOption = NumberOption {
    name: "buffers",
    default: "8",
    least: 0,
    most: MOST_U32,
};

pub const COMPACT_UNDER: NumberOption = NumberOption {
    name: "compact-under",
    default: "16",
    least: 0,
    most: MOST_U32,
};

pub const DROP_UNDER: NumberOption = NumberOption {
    name: "drop-under",
    default: "4",
    least: 0,
    most: MOST_U32,
};

pub const MAX_FRAG: NumberOption = NumberOption {
    name: "max-frag",
    default: "80",
    least: 0,
    most: MOST_U32,
};

pub const RECACHE: NumberOption = NumberOption {
    name: "recache",
    default: "2000",
    least: 0,
    most: MOST_U32,
};

/// The number of a word of decimal digits without a sign or a leading zero, if it lies in this range.
pub fn number_within(word: &[u8], least: u64, most: u64) -> Option<u64>
    ensures exact { result ≡ number_within least most word.now }
    ensures range { IfSome result (λ n. (least ≤ n) × (n ≤ most)) }
{
    match plain_number(word) {
        Some(number) if least <= number && number <= most => Some(number),
        _ => None,
    }
}

fn plain_number(word: &[u8]) -> Option<u64>
    ensures { result ≡ plain_number word.now }
{
    match word {
        [b'0', _, ..] => None,
        _ => read_number(word),
    }
}
