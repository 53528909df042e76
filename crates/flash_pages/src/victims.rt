ghost use Rattle.std.specs.Prelude.{◌≡◌, ◌^◌, ◌<◌, ◌≤◌, List, length, Option};
ghost use Rattle.flash_pages.specs.Least.{least_from, lesser};
ghost use Rattle.flash_pages.specs.Victims.{to_evict, to_compact, is_under};

use crate::page_row::PageRow;
use flash_names::Label;

/// A page that may be chosen, and the number by which the least is chosen.
#[derive(Clone, Copy, Debug, PartialEq, Eq)]
pub struct Candidate {
    /// The page's label.
    pub label: Label,
    /// Its version, or the bytes of its live records.
    pub weight: u64,
}

/// The Full page of lowest version that isn't under compaction.
pub fn least_to_evict(rows: &[PageRow], under: Option<Label>) -> Option<Candidate>
    requires { length rows.now < 2 ^ 32 }
    ensures { result ≡ least_from (to_evict under) 0 rows.now }
{
    let mut best = None;
    let mut number = 0;
    'rows: for row in rows {
        best = lesser(best, candidate_to_evict(under, number, row));
        number += 1;
    }
    best
}

/// The Full page that isn't spared, with fewest live bytes, of those with at most so many.
pub fn least_to_compact(rows: &[PageRow], most: u64) -> Option<Candidate>
    requires { length rows.now < 2 ^ 32 }
    ensures { result ≡ least_from (to_compact most) 0 rows.now }
{
    let mut best = None;
    let mut number = 0;
    'rows: for row in rows {
        best = lesser(best, candidate_to_compact(most, number, row));
        number += 1;
    }
    best
}

fn candidate_to_evict(under: Option<Label>, number: u32, row: &PageRow) -> Option<Candidate>
    ensures { result ≡ to_evict under number row.now }
{
    let label = Label {
        page: number,
        version: row.version,
    };
    if row.state.is_full() && !is_under(under, label) {
        Some(Candidate {
            label,
            weight: row.version,
        })
    } else {
        None
    }
}

fn is_under(under: Option<Label>, label: Label) -> bool
    ensures { result ≡ is_under under label }
{
    match under {
        None => false,
        Some(other) => other.is_same(label),
    }
}

fn candidate_to_compact(most: u64, number: u32, row: &PageRow) -> Option<Candidate>
    ensures { result ≡ to_compact most number row.now }
{
    let weight = u64::from(row.live_bytes);
    if row.state.is_full() && !row.spared && 100 * weight <= most {
        Some(Candidate {
            label: Label {
                page: number,
                version: row.version,
            },
            weight,
        })
    } else {
        None
    }
}

// The one with the lesser weight, and the first of two that have the same.
fn lesser(first: Option<Candidate>, second: Option<Candidate>) -> Option<Candidate>
    ensures { result ≡ lesser first second }
{
    match (first, second) {
        (None, other) => other,
        (first, None) => first,
        (Some(one), Some(other)) => {
            if one.weight <= other.weight {
                first
            } else {
                second
            }
        }
    }
}
