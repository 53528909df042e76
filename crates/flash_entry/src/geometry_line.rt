ghost use Rattle.std.specs.Prelude.{◌≡◌, ◌≤◌, ◌==◌, length, count_by, IfOk, IfSome};
ghost use Rattle.arrayvec.specs.ArrayVec.{array_vec_len};
ghost use Rattle.std.specs.Option.{option_map};
ghost use Rattle.flash_names.specs.Words.{words_if};
ghost use Rattle.flash_entry.specs.GeometryLine.{geometry_of_line, geometry_line, numbers_of, geometry_from};

use crate::text::Text;
use arrayvec::ArrayVec;
use flash_names::{BadGeometry, Blob, Geometry, read_number, split_word};
use std::alloc::{AllocError, Global};
use thiserror::Error;

/// Why a line isn't the geometry line of a script or a journal.
#[derive(Clone, Copy, Debug, PartialEq, Eq, Error)]
pub enum HeadFault {
    /// Its first word isn't `store`, or there aren't eleven after it.
    #[error("a word is unknown, or there are more or fewer than twelve")]
    BadWord,
    /// One of them is no number, or too large for its field.
    #[error("a number can not be read, or is too large for its field")]
    BadNumber,
    /// The number, from 1 to 10, of the first rule that the geometry breaks.
    #[error("the geometry breaks rule {0}")]
    Geometry(u32),
}

/// Reads the word `store` and the eleven numbers of a geometry, in the order of its fields. The line has
/// no line feed, and one space between two words.
pub fn read_head(line: &[u8]) -> Result<Geometry, HeadFault>
    ensures { result ≡ geometry_of_line line.now }
{
    let (first, rest) = split_word(line);
    if first != b"store".as_slice() || count_words(rest) != 11 {
        return Err(HeadFault::BadWord);
    }
    let numbers = read_numbers(rest).ok_or(HeadFault::BadNumber)?;
    let geometry = geometry_of(numbers.as_slice()).ok_or(HeadFault::BadNumber)?;
    match geometry.check() {
        Ok(()) => Ok(geometry),
        Err(BadGeometry { rule }) => Err(HeadFault::Geometry(rule)),
    }
}

/// The line of a geometry, with its line feed.
pub fn print_head(alloc: Global, geometry: &Geometry) -> Result<Blob, AllocError>
    ensures { IfOk result (λ line. line ≡ geometry_line geometry.now) }
{
    let mut line = Text::new(alloc);
    line.push(b"store")?;
    line.number(geometry.memory)?;
    line.number(u64::from(geometry.item_size))?;
    line.number(u64::from(geometry.item_max))?;
    line.number(u64::from(geometry.pages))?;
    line.number(u64::from(geometry.page_size))?;
    line.number(u64::from(geometry.buffer_size))?;
    line.number(u64::from(geometry.buffers))?;
    line.number(u64::from(geometry.compact_under))?;
    line.number(u64::from(geometry.drop_under))?;
    line.number(u64::from(geometry.max_frag))?;
    line.number(u64::from(geometry.recache))?;
    line.end_line()?;
    Ok(line.into_blob())
}

// How many words a line still has.
fn count_words(rest: Option<&[u8]>) -> usize
    ensures { result ≡ length (words_if (option_map (λ r. r.now) rest.entry)) }
{
    match rest {
        None => 0,
        Some(rest) => 1 + count_spaces(rest),
    }
}

fn count_spaces(bytes: &[u8]) -> usize
    ensures count { result ≡ count_by (λ b. b == 32) bytes.now }
    ensures within { result ≤ length bytes.now }
{
    bytes.iter().filter(|b| **b == b' ').count()
}

// The eleven numbers of the words that are left, where each is one.
fn read_numbers(rest: Option<&[u8]>) -> Option<ArrayVec<u64, 11>>
    requires { length (words_if (option_map (λ r. r.now) rest)) ≡ 11 }
    ensures same { option_map (λ ns. ns.items) result ≡ numbers_of (words_if (option_map (λ r. r.now) rest.entry)) }
    ensures eleven { IfSome result (λ ns. array_vec_len ns ≡ 11) }
{
    let mut numbers = ArrayVec::new();
    let mut left = rest;
    'words: while let Some(line) = left {
        let (word, with_more) = split_word(line);
        match read_number(word) {
            None => return None,
            Some(number) => numbers.push(number),
        }
        left = with_more;
    }
    Some(numbers)
}

#[tactic(auto, unfolding(crate::specs::GeometryLine::geometry_from))]
fn geometry_of(numbers: &[u64]) -> Option<Geometry>
    requires { length numbers.now ≡ 11 }
    ensures { result ≡ geometry_from numbers.now }
{
    Some(Geometry {
        memory: numbers[0],
        item_size: u32::try_from(numbers[1]).ok()?,
        item_max: u32::try_from(numbers[2]).ok()?,
        pages: u32::try_from(numbers[3]).ok()?,
        page_size: u32::try_from(numbers[4]).ok()?,
        buffer_size: u32::try_from(numbers[5]).ok()?,
        buffers: u32::try_from(numbers[6]).ok()?,
        compact_under: u32::try_from(numbers[7]).ok()?,
        drop_under: u32::try_from(numbers[8]).ok()?,
        max_frag: u32::try_from(numbers[9]).ok()?,
        recache: u32::try_from(numbers[10]).ok()?,
    })
}
