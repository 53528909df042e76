ghost use Rattle.std.specs.Prelude.{◌≡◌, ◌≤◌, ◌++◌, min, length, take, drop, [], IfOk, OnOk, OnErr, IsSome, IsNone};
ghost use Rattle.flash_commands.specs.declared.place.Place.TheVariants as places;
ghost use Rattle.flash_commands.specs.Commands.{front_of, line_limit};
ghost use Rattle.flash_commands.specs.Laws.{IsEnd};
ghost use Rattle.flash_reader.specs.Fronts.{front_said};
ghost use Rattle.flash_reader.specs.Readers.{room_of, fed, taken};

pub use crate::front::LINE_LIMIT;
use crate::front::{Front, line_length, read_front};
use crate::wanted::wanted_after;
use flash_commands::{Place, a_rest_is_short};
use std::alloc::{AllocError, Global};
use std::marker::Model;

/// A reader of a session's bytes.
#[derive(Drop)]
pub struct Reader {
    item_max: u32,
    // The unread bytes stand from `start` on.
    bytes: Vec<u8>,
    start: usize,
    // How many bytes to come are passed over; none are unread then.
    skip: usize,
    place: Place,
    // So many of the unread bytes are known to have no line feed.
    scanned: usize,
    // So many unread bytes are needed at least for a front; 0 where nothing is known.
    wanted: usize,
}

impl Model for Reader {
    ghost use Rattle.std.specs.Prelude.{◌≡◌, ◌≤◌, ◌<◌, drop, length};
    ghost use Rattle.flash_reader.specs.Readers.{Reads};
    ghost use Rattle.flash_reader.specs.Remembered.{IsScanned, IsWanted};

    ghost Value = { Reads };

    ghost view = { λ r. record {
      item_max = r.item_max;
      reader = record { skip = r.skip; place = r.place; unread = drop r.start r.bytes.items };
    } };

    ghost invariant = { λ r. (r.start ≤ length r.bytes.items) × (0 < r.skip → r.start ≡ length r.bytes.items)
        × IsScanned r.scanned (drop r.start r.bytes.items)
        × IsWanted r.item_max r.place r.wanted (drop r.start r.bytes.items) };
}

impl Reader {
    /// A reader that was fed nothing, of a session whose values have at most so many bytes.
    pub fn new(alloc: Global, item_max: u32) -> Reader
        ensures { result ≡ record {
          item_max = item_max;
          reader = record { skip = 0; place = places.InLine; unread = [] };
        } }
    {
        Reader {
            item_max,
            bytes: Vec::new(alloc),
            start: 0,
            skip: 0,
            place: Place::InLine,
            scanned: 0,
            wanted: 0,
        }
    }

    /// How many bytes more it takes: at most `item_max` + 65,538 are unread.
    pub fn room(&self) -> usize
        ensures { result ≡ room_of self.now }
    {
        let most = self.item_max as usize + LINE_LIMIT + 2;
        most.saturating_sub(self.bytes.len() - self.start)
    }

    /// Takes as many of these bytes as it has room for, and says how many. Where memory runs out nothing changes.
    pub fn feed(&mut self, bytes: &[u8]) -> Result<usize, AllocError>
        ensures count { IfOk result (λ n. n ≡ min (length bytes.now) (room_of self.old)) }
        ensures fed { OnOk result (self.new ≡ record self.old {
          reader = fed self.old.reader (take (min (length bytes.now) (room_of self.old)) bytes.now);
        }) }
        ensures refused { OnErr result (self.new ≡ self.old) }
    {
        let n = bytes.len().min(self.room());
        let passed = n.min(self.skip);
        let start = std::mem::replace(&mut self.start, 0);
        put_behind(
            &mut self.bytes,
            start,
            bytes.split_at(n).0.split_at(passed).1,
        )?;
        self.skip -= passed;
        Ok(n)
    }

    /// The front of the unread bytes, or `None` where more bytes are needed, or none is read any more. Where more are
    /// needed, there is room for one at least.
    pub fn front(&self) -> Option<Front<'_>>
        ensures front { front_said result
            ≡ front_of self.now.item_max line_limit self.now.reader.place self.now.reader.unread }
        ensures none_skipped { IsSome result → self.now.reader.skip ≡ 0 }
        ensures room { IsNone result → (IsEnd self.now.reader.place → ⊥) → 1 ≤ room_of self.now }
    {
        // The law does nothing: the call brings it into this function's proof.
        a_rest_is_short();
        let unread = self.bytes.split_at(self.start).1;
        if unread.len() < self.wanted {
            return None;
        }
        read_front(self.item_max, self.place, unread, self.scanned)
    }

    /// Remembers how far the unread bytes have no line feed, or how many are needed for their line and its block, so
    /// that `front` needn't read them again when more come. It is called where there is no front; the reader stands for
    /// the same.
    pub fn look(&mut self)
        ensures { self.new ≡ self.old }
    {
        let unread = self.bytes.split_at(self.start).1;
        if self.wanted <= unread.len() {
            match line_length(unread, self.scanned) {
                None => self.scanned = unread.len().min(LINE_LIMIT),
                Some(n) => self.wanted = wanted_after(self.item_max, self.place, unread, n),
            }
        }
    }

    /// Passes over a front of so many bytes, as far as they are there, and over the rest of them as they come. No bytes
    /// may be left to skip.
    pub fn take(&mut self, bytes: usize, next: Place)
        requires { self.old.reader.skip ≡ 0 }
        ensures { self.new ≡ record self.old { reader = taken self.old.reader bytes next } }
    {
        let there = bytes.min(self.bytes.len() - self.start);
        self.start += there;
        self.skip = bytes - there;
        self.place = next;
        self.scanned = 0;
        self.wanted = 0;
    }

    /// What its next bytes are.
    pub fn place(&self) -> Place
        ensures { result ≡ self.now.reader.place }
    {
        self.place
    }
}

// Takes the first bytes off, and puts more after the others, or only takes them off where memory runs out.
fn put_behind(bytes: &mut Vec<u8>, start: usize, more: &[u8]) -> Result<(), AllocError>
    requires { start ≤ length bytes.old.items }
    ensures ok { OnOk result (bytes.new.items ≡ drop start bytes.old.items ++ more.now) }
    ensures err { OnErr result (bytes.new.items ≡ drop start bytes.old.items) }
{
    bytes.drain(..start);
    bytes.extend_from_slice(more)
}
