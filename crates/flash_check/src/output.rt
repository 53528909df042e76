// The line of an answer.
ghost use Rattle.std.specs.Prelude.{◌≡◌, ◌++◌, decimal, IfOk, OnOk};
ghost use Rattle.flash_check.specs.Texts.{answer_text};

use crate::status::CheckStatus;
use itoa::Buffer;
use std::alloc::{AllocError, Global};

/// The line of an answer; nothing for an end that is none.
pub fn answer_line(alloc: Global, answer: CheckStatus) -> Result<Vec<u8>, AllocError>
    ensures { IfOk result (λ line. line.items ≡ answer_text answer) }
{
    let mut line = Vec::new(alloc);
    match answer {
        CheckStatus::Legal(entries) => {
            line.extend_from_slice(b"legal ")?;
            push_number(&mut line, entries)?;
            line.extend_from_slice(b"\n")?;
        }
        CheckStatus::Illegal { line: number, rule } => {
            line.extend_from_slice(b"illegal ")?;
            push_number(&mut line, number)?;
            line.extend_from_slice(b" ")?;
            push_number(&mut line, rule)?;
            line.extend_from_slice(b"\n")?;
        }
        CheckStatus::BadLine(number) => {
            line.extend_from_slice(b"bad ")?;
            push_number(&mut line, number)?;
            line.extend_from_slice(b"\n")?;
        }
        _ => {}
    }
    Ok(line)
}

fn push_number(line: &mut Vec<u8>, number: u32) -> Result<(), AllocError>
    ensures { OnOk result (line.new.items ≡ line.old.items ++ decimal number) }
{
    line.extend_from_slice(Buffer::new().format(number).as_bytes())
}
