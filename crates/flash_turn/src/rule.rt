// The rule of the table, and the names of its steps.
ghost use Rattle.flash_turn.specs.Rule.{LockRule};
ghost use Rattle.flash_turn.specs.Steps.{first_view, split_left, split_right, DrawsAt, Looks, Serves, Numbers, PutsBack, spent_view, joined_view, Compares};

use crate::{Shared, View};
use atomic_table::{Join, Play, Split, TableRule};
use std::marker::PhantomData;
use std::snapshot::Snapshot;

/// What a slot holds: the value, or nothing while it is out.
pub type Slot<T> = Option<Box<T>>;

/// The rule of a value's lock. It is told the value that the lock was made of.
pub struct Rule<T> {
    marker: PhantomData<T>,
}

impl<T: Shared> TableRule<Slot<T>, View<T>, Snapshot<T>> for Rule<T> {
    ghost holds = { λ start. LockRule T.story T.own T.fixed };

    ghost first = { λ start. first_view start.value };
}

/// A ticket is drawn, if the number of those drawn is the one that the pass looked for.
pub struct Draw;

impl<T> Play<Slot<T>, View<T>> for Draw {
    ghost then = { λ step. DrawsAt step.first };
}

/// The served ticket is read, and the value taken if it is the pass's own.
pub struct Look<T> {
    marker: PhantomData<T>,
}

impl<T: Shared> Play<Slot<T>, View<T>> for Look<T> {
    ghost then = { λ step. Looks T.story T.own T.fixed };
}

/// The value is given back, and the next ticket served.
pub struct Serve;

impl<T> Play<Slot<T>, View<T>> for Serve {
    ghost then = { λ step. Serves };
}

/// A number is drawn for a new pass.
pub struct Number<T> {
    marker: PhantomData<T>,
}

impl<T: Shared> Play<Slot<T>, View<T>> for Number<T> {
    ghost then = { λ step. Numbers T.story T.own T.fixed };
}

/// A number that was too large is put back.
pub struct PutBack;

impl<T> Play<Slot<T>, View<T>> for PutBack {
    ghost then = { λ step. PutsBack };
}

/// A new pass gets the number that was drawn.
pub struct Part;

impl<T> Split<View<T>> for Part {
    ghost left = { split_left };

    ghost right = { split_right };
}

/// A pass takes in what another has.
pub struct Both;

impl<T> Join<View<T>> for Both {
    ghost both = { joined_view };

    ghost spent = { spent_view };
}

/// What a joined pass had seen is compared with what this one saw.
pub struct Compare<T> {
    marker: PhantomData<T>,
}

impl<T: Shared> Play<Slot<T>, View<T>> for Compare<T> {
    ghost then = { λ step. Compares T.story T.own T.fixed };
}
