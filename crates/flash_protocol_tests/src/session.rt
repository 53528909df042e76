use flash_entry::{Ask, Gone, LookAnswer, Stored, Told};
use flash_session::{Ending, Session, Todo};
use std::alloc::{AllocError, Global};
use std::test::Fail;

const ITEM_MAX: u32 = 64;

// What a store without items that stores nothing tells.
fn told(ask: &Ask) -> Told {
    match ask {
        Ask::Look(_, _) => Told::Found(LookAnswer::Miss),
        Ask::Store(_) => Told::Stored(Stored::NotStored),
        Ask::Delete(_, _) => Told::Gone(Gone::NotFound),
        _ => Told::NoMemory,
    }
}

// What a session is answered that is fed so many bytes at a time, and how it ends, if it does.
fn answered(
    alloc: Global,
    bytes: &[u8],
    piece: usize,
) -> Result<(Vec<u8>, Option<Ending>), AllocError> {
    let mut session = Session::new(alloc, 1, ITEM_MAX);
    let mut sent = Vec::new(alloc);
    let mut end = None;
    for piece in bytes.chunks(piece.max(1)) {
        session.feed(piece)?;
        end = serve(alloc, &mut session, &mut sent)?;
    }
    Ok((sent, end))
}

// Does what the session needs until it needs more bytes or is over.
fn serve(
    alloc: Global,
    session: &mut Session,
    sent: &mut Vec<u8>,
) -> Result<Option<Ending>, AllocError> {
    for _ in 0..1000 {
        match session.next(alloc)? {
            Todo::Write => {
                sent.extend_from_slice(session.out())?;
                session.sent(session.out().len());
            }
            Todo::Do(_, ask) => session.answer(&told(&ask))?,
            Todo::Input | Todo::Wait => return Ok(None),
            Todo::Closed(end) => return Ok(Some(end)),
        }
    }
    Ok(None)
}

// However the bytes are cut, the replies and the end are the same.
#[test]
fn answers_however_the_bytes_are_cut(rt: HostRuntime) -> Result<(), Fail> {
    let table = [
        (
            "get a\r\nmn\r\nquit\r\nget b\r\n",
            "END\r\nMN\r\n",
            Some(Ending::Quit),
        ),
        (
            "get a b c\r\nset a 0 0 2\r\nxy\r\nmn\r\n",
            "END\r\nNOT_STORED\r\nMN\r\n",
            None,
        ),
        (
            "set a 0 0 2\r\nxyz\r\nget\r\n",
            "CLIENT_ERROR bad data chunk\r\nERROR\r\n",
            None,
        ),
        (
            "set a 0 0 65\r\nmn\r\nset a 0 0 2 noreply\r\nxy\r\ndelete a\r\n",
            "SERVER_ERROR object too large for cache\r\n",
            None,
        ),
        (
            "mg a v q\r\nmd a\r\nms a 1\r\nx\r\nmn\r\n",
            "NF\r\nNS\r\nMN\r\n",
            None,
        ),
        (
            "incr a 1\r\ngat 1 a b\r\n",
            "SERVER_ERROR out of memory\r\nEND\r\n",
            None,
        ),
    ];
    for (bytes, wanted, ending) in table {
        for piece in [1, 2, 7, 1000] {
            let (sent, end) = answered(rt.alloc(), bytes.as_bytes(), piece)?;
            assert_eq!(rt; sent.as_slice(), wanted.as_bytes(), "{bytes}");
            assert_eq!(rt; end, ending, "{bytes}");
        }
    }
    Ok(())
}
