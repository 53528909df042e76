//! CRC-32C by sixteen tables beside a plain loop over the bytes with one table.
ghost use Rattle.std.specs.Prelude.{◌<◌};

use flash_crc::crc32c;
use std::io;
use std::time::Instant;

// The lengths that are measured, in bytes.
const LENGTHS: [usize; 4] = [64, 1024, 4096, 1_048_576];

// How many bytes each way takes in a round, and how many rounds there are.
const ROUND_BYTES: usize = 2_097_152;

const ROUNDS: u32 = 60;

// The polynomial of CRC-32C with its bits reversed (RFC 3720, section 12.1).
const CASTAGNOLI: u32 = 0x82F6_3B78;

/// Whether both ways agree on a few bytes. It prints no times.
pub fn try_out(rt: &HostRuntime) -> io::Result<()> {
    let agree = plain(&byte_table(), b"123456789") == crc32c(b"123456789");
    println!(rt; "checksum: both ways agree: {agree}")?;
    must_agree(agree)
}

/// Measures both ways in turn, and prints the fastest round of each.
pub fn measure(rt: &HostRuntime) -> io::Result<()> {
    let table = byte_table();
    for length in LENGTHS {
        let mut bytes = vec![in rt.alloc(); 0u8; length]?;
        fill(&mut bytes);
        let mut fastest = Times {
            plain: u64::MAX,
            tables: u64::MAX,
        };
        for _ in 0..ROUNDS {
            let times = round(rt, &table, &mut bytes)?;
            fastest.plain = fastest.plain.min(times.plain);
            fastest.tables = fastest.tables.min(times.tables);
        }
        fastest.print(rt, length)?;
    }
    Ok(())
}

// What a round took, in nanoseconds.
#[derive(Clone, Copy)]
struct Times {
    plain: u64,
    tables: u64,
}

impl Times {
    fn print(&self, rt: &HostRuntime, length: usize) -> io::Result<()> {
        let plain = per_hundred(ROUND_BYTES as u64, self.plain);
        let tables = per_hundred(ROUND_BYTES as u64, self.tables);
        let ratio = per_hundred(self.plain, self.tables);
        println!(rt;
            "{length} bytes: plain {}.{:02} GB/s, tables {}.{:02} GB/s, ratio {}.{:02}",
            plain / 100,
            plain % 100,
            tables / 100,
            tables % 100,
            ratio / 100,
            ratio % 100
        )
    }
}

// A hundred times a over b.
fn per_hundred(a: u64, b: u64) -> u64 {
    a.saturating_mul(100) / b.max(1)
}

// Both ways take the bytes again and again, one byte of which is changed each time.
fn round(rt: &HostRuntime, table: &[u32; 256], bytes: &mut [u8]) -> io::Result<Times> {
    let times = ROUND_BYTES / bytes.len().max(1);
    let start = Instant::now(rt)?;
    let first = repeat(bytes, times, |b| plain(table, b));
    let plain = start.elapsed(rt)?.as_nanos();
    let start = Instant::now(rt)?;
    let second = repeat(bytes, times, |b| crc32c(b));
    let tables = start.elapsed(rt)?.as_nanos();
    must_agree(first == second)?;
    Ok(Times {
        plain: u64::try_from(plain).unwrap_or(u64::MAX),
        tables: u64::try_from(tables).unwrap_or(u64::MAX),
    })
}

fn must_agree(agree: bool) -> io::Result<()> {
    if agree {
        Ok(())
    } else {
        Err(io::ErrorKind::InvalidData.into())
    }
}

// The checksums of all turns, added by xor.
fn repeat<F: Fn(&[u8]) -> u32>(bytes: &mut [u8], times: usize, checksum: F) -> u32
    requires { F.IsAlwaysCallable checksum }
{
    let mut all = 0;
    for turn in 0..times {
        if let Some(first) = bytes.first_mut() {
            *first = (turn & 0xff) as u8;
        }
        all ^= checksum(bytes);
    }
    all
}

// Bytes of no pattern, by a linear congruence (Numerical Recipes, ranqd1).
fn fill(bytes: &mut [u8]) {
    let mut state = 1u32;
    for byte in bytes {
        state = state.wrapping_mul(1_664_525).wrapping_add(1_013_904_223);
        *byte = (state >> 24) as u8;
    }
}

fn byte_table() -> [u32; 256] {
    let mut table = [0; 256];
    for i in 0..256 {
        table[i] = remainder(i as u32);
    }
    table
}

// The remainder of one byte.
fn remainder(byte: u32) -> u32 {
    let mut remainder = byte;
    for _ in 0..8 {
        remainder = (remainder >> 1) ^ (CASTAGNOLI * (remainder & 1));
    }
    remainder
}

// The checksum, byte by byte.
fn plain(table: &[u32; 256], bytes: &[u8]) -> u32 {
    let mut remainder = u32::MAX;
    for byte in bytes {
        remainder = (remainder >> 8) ^ table[((remainder ^ u32::from(*byte)) & 0xff) as usize];
    }
    remainder ^ u32::MAX
}
