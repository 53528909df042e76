// The work of the server's threads.
ghost use Rattle.std.specs.Prelude.{◌≡◌, []};
ghost use Rattle.std.specs.Arc.{arc_value};
ghost use Rattle.flash_core.specs.SharedStore.{geometry_of, own_steps};
ghost use Rattle.flash_turn.specs.Passes.{IsPassOf, left_own};
ghost use Rattle.flash_serve.specs.Ready.{IsReady, IsUnused};

use crate::bell::Bell;
use crossbeam_channel::Receiver;
use flash_actors::{KeeperStep, SessionEnd, first_turn, keeper_turn, serve_session};
use flash_core::Core;
use flash_entry::Journal;
use flash_names::{Clock, Sink, Source};
use flash_turn::{Pass, Turn};
use std::alloc::Global;
use std::sync::{Arc, Wait};

/// The store that the threads share.
pub type Store<J> = Arc<Turn<Core<J>>, Global>;

/// A connection that is to be served, with a pass of its own that has left nothing.
#[derive(Drop)]
pub struct Job<J: Journal + Drop, S, K, C> {
    pub store: Store<J>,
    pub pass: Pass<Core<J>>,
    pub source: S,
    pub sink: K,
    pub clock: C,
    ghost ready: { IsReady (arc_value store) pass },
    ghost unused: { IsUnused pass },
}

impl<J: Journal + Drop, S: Source + Drop, K: Sink + Drop, C: Clock + Drop> Job<J, S, K, C> {
    /// Serves the connection to its end, and closes it.
    pub fn serve<R: Wait>(self, rt: &R, alloc: Global) -> SessionEnd {
        let Job {
            store,
            mut pass,
            mut source,
            mut sink,
            mut clock,
        } = self;
        serve_session(
            rt,
            alloc,
            &*store,
            &mut pass,
            &mut source,
            &mut sink,
            &mut clock,
        )
    }
}

/// Serves one connection after the other, until no more come.
pub fn work<R: Wait, J: Journal + Drop, S: Source + Drop, K: Sink + Drop, C: Clock + Drop>(
    rt: &R,
    alloc: Global,
    jobs: &Receiver<Job<J, S, K, C>, Global>,
    bell: &Bell,
) {
    'jobs: for _ in rt.forever() {
        match jobs.recv(rt) {
            Ok(job) => {
                job.serve(rt, alloc);
            }
            Err(_) => return,
        }
        bell.ring();
    }
}

/// The keeper of a store, with a pass of its own.
#[derive(Drop)]
pub struct Keeper<J: Journal + Drop> {
    pub store: Store<J>,
    pub pass: Pass<Core<J>>,
    ghost ready: { IsReady (arc_value store) pass },
    ghost unused: { IsUnused pass },
}

impl<J: Journal + Drop> Keeper<J> {
    /// Keeps the store within its memory, until it is told to stop.
    pub fn keep<R: Wait>(self, rt: &R, bell: &Bell) {
        let Keeper { store, mut pass } = self;
        keep_on(rt, &*store, &mut pass, bell);
    }
}

fn keep_on<R: Wait, J: Journal + Drop>(
    rt: &R,
    store: &Turn<Core<J>>,
    pass: &mut Pass<Core<J>>,
    bell: &Bell,
)
    requires pass { IsPassOf geometry_of store.now pass.old }
    requires none { left_own own_steps pass.old ≡ [] }
{
    first_turn(rt, store, pass);
    'turns: for _ in rt.forever() {
        if bell.is_stopped() {
            return;
        }
        match keeper_turn(rt, store, pass) {
            KeeperStep::Stepped => {}
            KeeperStep::Idle => bell.rest(rt),
            KeeperStep::NoMemory => bell.rest(rt),
        }
    }
}
