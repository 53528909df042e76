use super::{PIECE_LEN, VALUE_LEN};
use crate::timing::nanos_since;
use flash_entry::{Ask, Head, Hit, LookAnswer, Stored, Told};
use flash_names::Blob;
use flash_session::{Session, Todo};
use std::alloc::{AllocError, Global};
use std::io;
use std::time::Instant;

const ITEM_MAX: u32 = 1_047_552;

// The answers to a get and to a set.
#[derive(Drop)]
struct Answers {
    found: Told,
    stored: Told,
}

/// The replies to these bytes.
pub fn replies_to(alloc: Global, bytes: &[u8]) -> Result<Vec<u8>, AllocError> {
    let answers = Answers::new(alloc)?;
    let mut sent = Vec::new(alloc);
    talk(alloc, &answers, bytes, PIECE_LEN, &mut sent)?;
    Ok(sent)
}

/// The nanoseconds from these bytes, of which so many come at a time, to the replies to them.
pub fn time(rt: &HostRuntime, bytes: &[u8], piece_len: usize) -> io::Result<u64> {
    let answers = Answers::new(rt.alloc())?;
    let mut sent = Vec::with_capacity(rt.alloc(), bytes.len())?;
    let start = Instant::now(rt)?;
    talk(rt.alloc(), &answers, bytes, piece_len, &mut sent)?;
    nanos_since(rt, start)
}

// Feeds a session the bytes, and sends what it replies.
fn talk(
    alloc: Global,
    answers: &Answers,
    bytes: &[u8],
    piece_len: usize,
    sent: &mut Vec<u8>,
) -> Result<(), AllocError> {
    let mut session = Session::new(alloc, 1, ITEM_MAX);
    for piece in bytes.chunks(piece_len.max(1)) {
        session.feed(piece)?;
        answers.serve(alloc, &mut session, sent)?;
    }
    Ok(())
}

impl Answers {
    fn new(alloc: Global) -> Result<Answers, AllocError> {
        let head = Head {
            flags: 0,
            cas: 1,
            size: VALUE_LEN as u32,
            left: -1,
            before: true,
            idle: 0,
        };
        let value = Blob::from_slice(alloc, &[b'v'; VALUE_LEN])?;
        Ok(Answers {
            found: Told::Found(LookAnswer::Hit(Hit { head, value })),
            stored: Told::Stored(Stored::Stored(1)),
        })
    }

    // Does what the session needs until it needs more bytes. Replies are sent where so many stand, and at last.
    fn serve(
        &self,
        alloc: Global,
        session: &mut Session,
        sent: &mut Vec<u8>,
    ) -> Result<(), AllocError> {
        for _ in 0..u64::MAX {
            match session.next(alloc)? {
                Todo::Write => {
                    sent.extend_from_slice(session.out())?;
                    session.sent(session.out().len());
                }
                Todo::Do(_, ask) => session.answer(self.to(&ask))?,
                Todo::Input | Todo::Wait | Todo::Closed(_) => return Ok(()),
            }
        }
        Ok(())
    }

    fn to(&self, ask: &Ask) -> &Told {
        match ask {
            Ask::Look(_, _) => &self.found,
            _ => &self.stored,
        }
    }
}
