ghost use Rattle.std.specs.Prelude.{◌≡◌, IfOk};
ghost use Rattle.std.specs.Option.{option_map};
ghost use Rattle.flash_entry.specs.Noted.{done_of, close_of, entry_of};

use crate::{Arith, Close, CloseNote, Done, DoneNote, Entry, Note, Put};
use flash_names::Blob;
use std::alloc::{AllocError, Global};

impl Put {
    /// A second one with the same fields, or an error where memory runs out for its value.
    pub fn copy(&self, alloc: Global) -> Result<Put, AllocError>
        ensures { IfOk result (λ put. put ≡ self.now) }
    {
        Ok(Put {
            key: self.key.copy(),
            mode: self.mode,
            flags: self.flags,
            exptime: self.exptime,
            compare: self.compare,
            value: Blob::from_slice(alloc, self.value.bytes())?,
        })
    }
}

impl Arith {
    /// A second one with the same fields. It takes no memory.
    pub fn copy(&self) -> Arith
        ensures { result ≡ self.now }
    {
        Arith {
            key: self.key.copy(),
            down: self.down,
            delta: self.delta,
            compare: self.compare,
            renew: self.renew,
            create: self.create,
        }
    }
}

impl DoneNote<'_> {
    /// The step with what it refers to, or an error where memory runs out for a value.
    pub fn to_done(&self, alloc: Global) -> Result<Done, AllocError>
        ensures { IfOk result (λ done. done ≡ done_of self.now) }
    {
        Ok(match self {
            DoneNote::Store(put, answer) => Done::Store(put.copy(alloc)?, *answer),
            DoneNote::Delete(key, compare, answer) => Done::Delete(key.copy(), *compare, *answer),
            DoneNote::Sum(ask, answer) => Done::Sum(ask.copy(), *answer),
            DoneNote::Touch(key, exptime, answer) => Done::Touch(key.copy(), *exptime, *answer),
            DoneNote::Flush(delay) => Done::Flush(*delay),
            DoneNote::Stats(tally) => Done::Stats(*tally),
        })
    }
}

impl CloseNote<'_> {
    /// The close with what it refers to, or an error where memory runs out for a value.
    pub fn to_close(&self, alloc: Global) -> Result<Close, AllocError>
        ensures { IfOk result (λ close. close ≡ close_of self.now) }
    {
        Ok(match self {
            CloseNote::Hit(hit) => {
                let value = Blob::from_slice(alloc, hit.value.bytes())?;
                Close::Hit(hit.head.flags, hit.head.cas, value)
            }
            CloseNote::Lost(cause) => Close::Lost(*cause),
        })
    }
}

impl Note<'_> {
    /// The entry with what the note refers to, or an error where memory runs out for a value or for bytes.
    pub fn to_entry(&self, alloc: Global) -> Result<Entry, AllocError>
        ensures { IfOk result (λ entry. entry ≡ entry_of self.now) }
    {
        Ok(match self {
            Note::Clock(moment) => Entry::Clock(*moment),
            Note::Did(id, done) => Entry::Did(*id, done.to_done(alloc)?),
            Note::Looked(id, key, look, residence) => Entry::Looked(
                *id,
                key.copy(),
                *look,
                *residence,
            ),
            Note::FromBuffer(id, place) => Entry::FromBuffer(*id, *place),
            Note::ReadBegan(id, place, reader) => Entry::ReadBegan(*id, *place, *reader),
            Note::ReadEnded(id, bytes) => Entry::ReadEnded(*id, blob_if(alloc, *bytes)?),
            Note::Closed(id, close) => Entry::Closed(*id, close.to_close(alloc)?),
            Note::Moved(key, cas, label) => Entry::Moved(key.copy(), *cas, *label),
            Note::Recached(key, cas) => Entry::Recached(key.copy(), *cas),
            Note::Dropped(key, cause) => Entry::Dropped(key.copy(), *cause),
            Note::WriteBegan(place) => Entry::WriteBegan(*place),
            Note::WriteEnded(place, bytes) => Entry::WriteEnded(*place, blob_if(alloc, *bytes)?),
            Note::Opened(label) => Entry::Opened(*label),
            Note::Ended(label, cause) => Entry::Ended(*label, *cause),
            Note::Freed(label) => Entry::Freed(*label),
        })
    }
}

fn blob_if(alloc: Global, bytes: Option<&[u8]>) -> Result<Option<Blob>, AllocError>
    ensures { IfOk result (λ blob. blob ≡ option_map (λ b. b.now) bytes.entry) }
{
    match bytes {
        None => Ok(None),
        Some(bytes) => Ok(Some(Blob::from_slice(alloc, bytes)?)),
    }
}
