// The threads of a server.
ghost use Rattle.std.specs.Prelude.{◌≡◌};
ghost use Rattle.std.specs.Arc.{arc_value};
ghost use Rattle.flash_core.specs.SharedStore.{geometry_of, told_of};
ghost use Rattle.flash_turn.specs.Passes.{IsPassOf, seen};

use crate::bell::Bell;
use crate::job::{Job, Keeper, Store, work};
use crossbeam_channel::{Receiver, SendError, Sender, bounded};
use flash_core::Core;
use flash_entry::Journal;
use flash_names::{Clock, Sink, Source};
use flash_turn::{Pass, Split};
use std::alloc::{AllocError, Global};
use std::sync::{Arc, Wait};
use std::thread::{JoinHandle, Threads, spawn};

/// The workers and the keeper of a server, and the queue from which the workers take connections.
#[derive(Drop)]
pub struct Crew<J: Journal + Drop, S, K, C> {
    queue: Sender<Job<J, S, K, C>, Global>,
    bell: Arc<Bell, Global>,
    workers: Vec<JoinHandle<()>>,
    keeper: Option<JoinHandle<()>>,
}

impl<
    J: Journal + Send + Drop + 'static,
    S: Source + Send + Drop + 'static,
    K: Sink + Send + Drop + 'static,
    C: Clock + Send + Drop + 'static,
> Crew<J, S, K, C> {
    /// Starts so many workers, or as many as can be started, and the keeper with this pass.
    pub fn start<R: Threads + Wait + Copy + Send + 'static>(
        rt: &R,
        alloc: Global,
        count: u32,
        keeper: Keeper<J>,
    ) -> Result<Crew<J, S, K, C>, AllocError> {
        let (queue, jobs) = bounded(alloc, 1)?;
        let bell = Arc::new(alloc, Bell::new())?;
        let workers = start_workers(rt, alloc, count, &jobs, &bell)?;
        let keeper = start_keeper(rt, keeper, Arc::try_clone(&bell)?);
        Ok(Crew {
            queue,
            bell,
            workers,
            keeper,
        })
    }

    /// Has the connection served: by a worker that is free, once one is; or here, where there is none.
    pub fn give<R: Wait>(&self, rt: &R, alloc: Global, job: Job<J, S, K, C>) {
        if self.workers.is_empty() {
            job.serve(rt, alloc);
            return;
        }
        match self.queue.send(rt, job) {
            Ok(()) => {}
            Err(SendError::Disconnected(job)) => {
                job.serve(rt, alloc);
            }
            Err(SendError::OutOfMemory(job)) => {
                job.serve(rt, alloc);
            }
        }
    }

    /// Waits until each connection that was given is served, and stops the threads.
    pub fn stop<R: Threads>(self, rt: &R) {
        let Crew {
            queue,
            bell,
            workers,
            keeper,
        } = self;
        drop(queue);
        'workers: for worker in workers {
            worker.join(rt);
        }
        bell.stop();
        if let Some(keeper) = keeper {
            keeper.join(rt);
        }
    }
}

// The threads that could be started.
fn start_workers<
    R: Threads + Wait + Copy + Send + 'static,
    J: Journal + Send + Drop + 'static,
    S: Source + Send + Drop + 'static,
    K: Sink + Send + Drop + 'static,
    C: Clock + Send + Drop + 'static,
>(
    rt: &R,
    alloc: Global,
    count: u32,
    jobs: &Receiver<Job<J, S, K, C>, Global>,
    bell: &Arc<Bell, Global>,
) -> Result<Vec<JoinHandle<()>>, AllocError> {
    let mut workers = Vec::with_capacity(alloc, count as usize)?;
    'workers: for _ in 0..count {
        if let Some(worker) = start_worker(rt, alloc, jobs.clone()?, Arc::try_clone(bell)?) {
            workers.push(worker)?;
        }
    }
    Ok(workers)
}

fn start_worker<
    R: Threads + Wait + Copy + Send + 'static,
    J: Journal + Send + Drop + 'static,
    S: Source + Send + Drop + 'static,
    K: Sink + Send + Drop + 'static,
    C: Clock + Send + Drop + 'static,
>(
    rt: &R,
    alloc: Global,
    jobs: Receiver<Job<J, S, K, C>, Global>,
    bell: Arc<Bell, Global>,
) -> Option<JoinHandle<()>> {
    let own = *rt;
    match spawn(rt, move || work(&own, alloc, &jobs, &bell)) {
        Ok(worker) => Some(worker),
        Err(_) => None,
    }
}

fn start_keeper<R: Threads + Wait + Copy + Send + 'static, J: Journal + Send + Drop + 'static>(
    rt: &R,
    keeper: Keeper<J>,
    bell: Arc<Bell, Global>,
) -> Option<JoinHandle<()>> {
    let own = *rt;
    match spawn(rt, move || keeper.keep(&own, &bell)) {
        Ok(thread) => Some(thread),
        Err(_) => None,
    }
}

/// The keeper of this store, with a pass split off. `None` where the numbers of passes are used up.
pub fn new_keeper<J: Journal + Drop>(
    store: &Store<J>,
    pass: &mut Pass<Core<J>>,
) -> Result<Option<Keeper<J>>, AllocError>
    requires { IsPassOf geometry_of (arc_value store.now) pass.old }
    ensures pass { IsPassOf geometry_of (arc_value store.now) pass.new }
    ensures seen { seen told_of pass.new ≡ seen told_of pass.old }
{
    let own = Arc::try_clone(store)?;
    match pass.split(&**store) {
        Split::Pass(pass) => Ok(Some(Keeper { store: own, pass })),
        Split::Used(_) => Ok(None),
    }
}

/// The job of this connection, with a pass split off. `None` where the numbers of passes are used up; the connection is
/// then closed.
pub fn new_job<J: Journal + Drop, S: Drop, K: Drop, C: Drop>(
    store: &Store<J>,
    pass: &mut Pass<Core<J>>,
    source: S,
    sink: K,
    clock: C,
) -> Result<Option<Job<J, S, K, C>>, AllocError>
    requires { IsPassOf geometry_of (arc_value store.now) pass.old }
    ensures pass { IsPassOf geometry_of (arc_value store.now) pass.new }
    ensures seen { seen told_of pass.new ≡ seen told_of pass.old }
{
    let own = Arc::try_clone(store)?;
    match pass.split(&**store) {
        Split::Pass(pass) => Ok(Some(Job {
            store: own,
            pass,
            source,
            sink,
            clock,
        })),
        Split::Used(_) => Ok(None),
    }
}
