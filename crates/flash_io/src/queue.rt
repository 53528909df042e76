ghost use Rattle.std.specs.Prelude.{◌≡◌, ◌<◌, nat_eq, find, position, remove, slice_index, slice_get, IfSome, IfNone, if◌then◌else◌};
ghost use Rattle.std.specs.VecDeque.{deque_len};
ghost use Rattle.std.specs.FinMap as map;
ghost use Rattle.flash_io.specs.Slots.{rows_of, has_id};
ghost use Rattle.flash_io.specs.Queue.{without};

use crate::row::TicketRow;
use flash_names::Id;
use slab::Slab;
use std::collections::VecDeque;

/// The first slot of the queue.
pub fn first(queue: &VecDeque<usize>) -> Option<usize>
    ensures { result ≡ slice_get queue.now.items 0 }
{
    queue.front().copied()
}

/// Takes a slot out of the queue, if it is to be taken out.
pub fn take_if(queue: &mut VecDeque<usize>, slot: usize, queued: bool)
    ensures { queue.new.items ≡ (if queued then without slot queue.old.items else queue.old.items) }
{
    if queued {
        take_slot(queue, slot);
    }
}

// Takes a slot out of the queue, where it is there.
fn take_slot(queue: &mut VecDeque<usize>, slot: usize)
    ensures { queue.new.items ≡ without slot queue.old.items }
{
    if let Some(index) = index_of(queue, slot) {
        take_at(queue, index);
    }
}

/// Takes the first slot out of the queue whose ticket has the id, where there is one.
pub fn take_id(queue: &mut VecDeque<usize>, rows: &Slab<TicketRow>, id: Id) -> Option<usize>
    ensures exact { result ≡ find (λ slot. has_id id (map.get (rows_of rows.now) slot)) queue.old.items }
    ensures taken { IfSome result (λ slot. queue.new.items ≡ without slot queue.old.items) }
    ensures none { IfNone result (queue.new ≡ queue.old) }
{
    match index_with(queue, rows, id) {
        None => None,
        Some(index) => Some(take_at(queue, index)),
    }
}

/// The first slot in the queue whose ticket has the id, where there is one.
pub fn find_id(queue: &VecDeque<usize>, rows: &Slab<TicketRow>, id: Id) -> Option<usize>
    ensures { result ≡ find (λ slot. has_id id (map.get (rows_of rows.now) slot)) queue.now.items }
{
    match index_with(queue, rows, id) {
        None => None,
        Some(index) => Some(queue[index]),
    }
}

// Takes the slot at the index out of the queue.
fn take_at(queue: &mut VecDeque<usize>, index: usize) -> usize
    requires { index < deque_len queue.old }
    ensures slot { result ≡ slice_index queue.old.items index }
    ensures left { queue.new.items ≡ remove queue.old.items index }
{
    match queue.remove(index) {
        Some(slot) => slot,
        None => unreachable!(),
    }
}

// The index of the slot.
fn index_of(queue: &VecDeque<usize>, slot: usize) -> Option<usize>
    ensures exact { result ≡ position (λ other. nat_eq other slot) queue.now.items }
    ensures inside { IfSome result (λ index. index < deque_len queue.now) }
{
    queue.iter().position(|other| *other == slot)
}

// The index of the first slot whose ticket has the id.
fn index_with(queue: &VecDeque<usize>, rows: &Slab<TicketRow>, id: Id) -> Option<usize>
    ensures exact { result ≡ position (λ slot. has_id id (map.get (rows_of rows.now) slot)) queue.now.items }
    ensures inside { IfSome result (λ index. index < deque_len queue.now) }
{
    queue.iter().position(|slot| is_of(rows, *slot, id))
}

// Whether the ticket in the slot has the id.
fn is_of(rows: &Slab<TicketRow>, slot: usize, id: Id) -> bool
    ensures { result ≡ has_id id (map.get (rows_of rows.now) slot) }
{
    match rows.get(slot) {
        None => false,
        Some(row) => row.has_id(id),
    }
}
