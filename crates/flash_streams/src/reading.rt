ghost use Rattle.std.specs.Prelude.{◌≡◌, ◌<◌, ◌≤◌, ◌+◌, ℕ, List, Option, true, false, length, IfOk, IfErr, OnOk, OnErr};
ghost use Rattle.flash_names.specs.Faults.{Rose};
ghost use Rattle.flash_names.specs.Source.{IsAtEnd};
ghost use Rattle.flash_names.specs.Told.{with_front};
ghost use Rattle.flash_streams.specs.Reading.{HasRead, IsRest};

use flash_names::{Source, SourceFault};
use std::alloc::{AllocError, Global};
use thiserror::Error;

// How many bytes a read of the source asks for.
const PIECE: usize = 65_536;

/// Why a source wasn't read.
#[derive(Clone, Copy, Debug, PartialEq, Eq, Error)]
pub enum ReadError {
    /// A read failed.
    #[error("a read failed")]
    Fault,
    /// Memory ran out.
    #[error("out of memory")]
    NoMemory,
}

/// Reads a source to its end, or until it has given more than `limit` bytes. At most 65,536 bytes more than `limit` are
/// read, so an answer of at most `limit` bytes is all that there is. After an error a front part of the source's bytes
/// may have been taken.
pub fn read_all<S: Source>(
    alloc: Global,
    limit: usize,
    source: &mut S,
) -> Result<Vec<u8>, ReadError>
    ensures read { IfOk result (λ bytes. HasRead limit bytes.items (S.left source.old) (S.left source.new)) }
    ensures begun { OnErr result (IsRest (S.left source.old) (S.left source.new)) }
    ensures kept { S.faults source.old ≤ S.faults source.new }
    ensures cause { IfErr result (λ error. error ≡ ReadError.Fault → Rose (S.faults source.old) (S.faults source.new)) }
{
    let Ok(mut piece) = new_piece(alloc) else {
        return Err(ReadError::NoMemory);
    };
    let mut bytes = Vec::new(alloc);
    'reads: while bytes.len() <= limit {
        if !read_piece(source, &mut piece, &mut bytes)? {
            return Ok(bytes);
        }
    }
    Ok(bytes)
}

// Appends what one read gives, and answers whether it gave something.
fn read_piece<S: Source>(
    source: &mut S,
    piece: &mut [u8],
    bytes: &mut Vec<u8>,
) -> Result<bool, ReadError>
    requires { 0 < length piece.old }
    ensures taken { OnOk result ((first : Option (List ℕ)) → first ≡ with_front bytes.old.items (S.left source.old)
        → first ≡ with_front bytes.new.items (S.left source.new)) }
    ensures more { IfOk result (λ more. more ≡ true → length bytes.old.items < length bytes.new.items) }
    ensures bound { OnOk result (length bytes.new.items ≤ length bytes.old.items + length piece.old) }
    ensures end { IfOk result (λ more. more ≡ false → IsAtEnd (S.left source.new)) }
    ensures room { length piece.new ≡ length piece.old }
    ensures begun { OnErr result (IsRest (S.left source.old) (S.left source.new)) }
    ensures kept { S.faults source.old ≤ S.faults source.new }
    ensures cause { IfErr result (λ error. error ≡ ReadError.Fault → Rose (S.faults source.old) (S.faults source.new)) }
{
    match source.read(piece) {
        Err(SourceFault) => Err(ReadError::Fault),
        Ok(0) => Ok(false),
        Ok(n) => match bytes.extend_from_slice(&piece[..n]) {
            Ok(()) => Ok(true),
            Err(AllocError) => Err(ReadError::NoMemory),
        },
    }
}

// Room for what a read gives.
fn new_piece(alloc: Global) -> Result<Vec<u8>, AllocError>
    ensures some { IfOk result (λ piece. 0 < length piece.items) }
    ensures bound { IfOk result (λ piece. length piece.items ≤ 65536) }
{
    Ok(vec![in alloc; 0u8; PIECE]?)
}
