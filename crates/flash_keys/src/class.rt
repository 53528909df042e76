ghost use Rattle.std.specs.Prelude.{◌≡◌, ◌<◌, None, Some, OnOk, IsOk};
ghost use Rattle.slab.specs.Slab.{get, Updates};
ghost use Rattle.flash_keys.specs.Room.{IsRoomy};
ghost use Rattle.flash_keys.specs.Lent.{lent_bytes};

use crate::cell::Cell;
use slab::Slab;
use std::alloc::AllocError;

// Takes memory for one key more in a class. A class has at most 2^29 keys.
pub fn reserve_in<const N: usize>(class: &mut Slab<Cell<N>>) -> Result<(), AllocError>
    ensures room { OnOk result (IsRoomy class.new) }
    ensures has_room { IsRoomy class.old → IsOk result }
    ensures room_stays { IsRoomy class.old → IsRoomy class.new }
    ensures kept { class.new ≡ record class.old { capacity = class.new.capacity } }
{
    if class.vacant_key() > 0x1fff_ffff {
        return Err(AllocError);
    }
    class.reserve(1)
}

// Keeps a key in a class, and answers the index of its cell.
pub fn keep_in<const N: usize>(class: &mut Slab<Cell<N>>, cell: Cell<N>) -> u32
    requires { IsRoomy class.old }
    ensures low { result < 536870912 }
    ensures was { get class.old result ≡ None }
    ensures keeps { Updates class.old class.new result (Some cell.entry) }
{
    class.insert_reserved(cell) as u32
}

// The bytes of a key of a class, where there is one at that index.
pub fn bytes_in<const N: usize>(class: &Slab<Cell<N>>, index: u32) -> Option<&[u8]>
    ensures { lent_bytes result ≡ get class.now index }
{
    match class.get(index as usize) {
        Some(cell) => Some(cell.bytes()),
        None => None,
    }
}

// Gives back the cell at an index of a class. Where there was room, there is room after.
pub fn remove_in<const N: usize>(class: &mut Slab<Cell<N>>, index: u32)
    requires { index < 536870912 }
    ensures removed { Updates class.old class.new index None }
    ensures room { IsRoomy class.old → IsRoomy class.new }
{
    let _ = class.try_remove(index as usize);
}
