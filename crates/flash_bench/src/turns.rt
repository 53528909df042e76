//! The turn lock beside a `Mutex` round the same boxed value.
ghost use Rattle.std.specs.Prelude.{◌≡◌, ℕ, [], None, IfOk};
ghost use denote.Param.Send.{IsSync};
ghost use Rattle.flash_turn.specs.Passes.{IsPassOf};

use flash_turn::{Closing, Pass, Shared, Split, Turn};
use std::alloc::Global;
use std::io;
use std::rt::Clock;
use std::sync::{Mutex, Wait};
use std::thread::{Threads, join};
use std::time::Instant;

// Steps of work outside the lock, which take about a microsecond.
const STEPS: u64 = 400;

// How often each measurement is repeated, the lock and the `Mutex` in turn.
const ROUNDS: u32 = 5;

// How often the value was changed.
#[derive(Drop)]
struct Counter {
    count: u64,
}

impl Shared for Counter {
    ghost Entry = { ℕ };

    ghost Thing = { ℕ };

    ghost Fixed = { Unit {0} };

    ghost Face = { ℕ };

    ghost story = { λ _. None };

    ghost own = { λ _. [] };

    ghost fixed = { λ _. tt };

    ghost face = { λ c. c.count };
}

// What a run does: so many turns in each thread, with so many steps of work between them.
#[derive(Clone, Copy)]
pub struct Load {
    turns: u64,
    steps: u64,
}

// Work that a compiler can't leave out, since its result is used: a multiplicative congruence.
fn work(steps: u64, start: u64) -> u64 {
    let mut x = start | 1;
    for _ in 0..steps {
        x = x.wrapping_mul(0x2545_f491_4f6c_dd1d) ^ (x >> 29);
    }
    x
}

fn take_one<R: Wait>(rt: &R, turn: &Turn<Counter>, pass: &mut Pass<Counter>)
    requires { IsPassOf {F = Unit {0}} (λ _. tt) turn.now pass.old }
    ensures { IsPassOf {F = Unit {0}} (λ _. tt) turn.now pass.new }
{
    let mut held = turn.enter(rt, pass);
    let counter = held.state();
    counter.count = counter.count.wrapping_add(1);
    held.leave();
}

// One thread's turns. It answers the last result of its work.
fn turns_of_one<R: Wait>(rt: &R, turn: &Turn<Counter>, mut pass: Pass<Counter>, load: Load) -> u64
    requires { IsPassOf {F = Unit {0}} (λ _. tt) turn.now pass }
{
    let mut x = u64::from(pass.number());
    for _ in 0..load.turns {
        take_one(rt, turn, &mut pass);
        x = work(load.steps, x);
    }
    x
}

// The same under a `Mutex`.
fn locks_of_one<R: Wait>(rt: &R, lock: &Mutex<Box<Counter>>, load: Load) -> u64 {
    let mut x = 1;
    for _ in 0..load.turns {
        let mut guard = lock.lock(rt);
        let counter = &mut **guard;
        counter.count = counter.count.wrapping_add(1);
        drop(guard);
        x = work(load.steps, x);
    }
    x
}

// Twice as many threads for each doubling, each with a pass of its own. It answers what their work came to.
fn turns_of_many<R: Threads + Wait + Sync>(
    rt: &R,
    turn: &Turn<Counter>,
    mut pass: Pass<Counter>,
    doublings: u32,
    load: Load,
) -> u64
    requires { IsPassOf {F = Unit {0}} (λ _. tt) turn.now pass }
{
    if doublings == 0 {
        return turns_of_one(rt, turn, pass, load);
    }
    let Split::Pass(other) = pass.split(turn) else {
        return 0;
    };
    let doublings_left = doublings - 1;
    let (one, two) = join(
        rt,
        move ||
            requires { IsPassOf {F = Unit {0}} (λ _. tt) turn.now pass × IsSync R.row }
        { turns_of_many(rt, turn, pass, doublings_left, load) },
        move ||
            requires { IsPassOf {F = Unit {0}} (λ _. tt) turn.now other × IsSync R.row }
        { turns_of_many(rt, turn, other, doublings_left, load) },
    );
    one ^ two
}

// The same under a `Mutex`.
fn locks_of_many<R: Threads + Wait + Sync>(
    rt: &R,
    lock: &Mutex<Box<Counter>>,
    doublings: u32,
    load: Load,
) -> u64 {
    if doublings == 0 {
        return locks_of_one(rt, lock, load);
    }
    let doublings_left = doublings - 1;
    let (one, two) = join(
        rt,
        move ||
            requires { IsSync R.row }
        { locks_of_many(rt, lock, doublings_left, load) },
        move ||
            requires { IsSync R.row }
        { locks_of_many(rt, lock, doublings_left, load) },
    );
    one ^ two
}

// How long a run took, and how many turns it had.
#[derive(Clone, Copy)]
struct Took {
    nanos: u128,
    turns: u64,
    // What the work came to, so that no compiler leaves it out.
    work: u64,
}

// Nanoseconds for each turn, in tenths.
fn tenths(took: &Took) -> u128 {
    took.nanos.saturating_mul(10) / u128::from(took.turns.max(1))
}

// A new lock round 0, and its first pass.
fn opened(alloc: Global) -> io::Result<(Turn<Counter>, Pass<Counter>)>
    ensures { IfOk result (λ made. IsPassOf {F = Unit {0}} (λ _. tt) made.0 made.1) }
{
    match Turn::new(alloc, Counter { count: 0 }) {
        Ok(made) => Ok(made),
        Err(_) => Err(io::ErrorKind::OutOfMemory.into()),
    }
}

fn time_turns<R: Threads + Wait + Sync + Clock>(
    rt: &R,
    alloc: Global,
    doublings: u32,
    load: Load,
) -> io::Result<Took> {
    let (turn, mut first) = opened(alloc)?;
    let Split::Pass(last) = first.split(&turn) else {
        return Err(io::ErrorKind::Other.into());
    };
    let start = Instant::now(rt)?;
    let work = turns_of_many(rt, &turn, first, doublings, load);
    let nanos = start.elapsed(rt)?.as_nanos();
    match turn.close(last) {
        Closing::Value(counter) => Ok(Took {
            nanos,
            turns: counter.count,
            work,
        }),
        Closing::Out(_) => Err(io::ErrorKind::Other.into()),
    }
}

fn time_locks<R: Threads + Wait + Sync + Clock>(
    rt: &R,
    alloc: Global,
    doublings: u32,
    load: Load,
) -> io::Result<Took> {
    let lock = Mutex::new(Box::new(alloc, Counter { count: 0 })?);
    let start = Instant::now(rt)?;
    let work = locks_of_many(rt, &lock, doublings, load);
    let nanos = start.elapsed(rt)?.as_nanos();
    let turns = lock.into_inner().count;
    Ok(Took { nanos, turns, work })
}

/// A tiny run, which prints no times.
pub fn tiny<R: Threads + Wait + Sync + Clock + Print>(rt: &R, alloc: Global) -> io::Result<()> {
    let load = Load {
        turns: 50,
        steps: 4,
    };
    let turns = time_turns(rt, alloc, 2, load)?.turns;
    let locks = time_locks(rt, alloc, 2, load)?.turns;
    println!(rt; "turns: {turns} under the lock, {locks} under a Mutex")
}

/// The doublings of threads and the load of each by its word: `uncontended`, or the number of threads, 4 or 16.
pub fn load_of(choice: &str) -> Option<(u32, Load)> {
    let (doublings, turns, steps) = match choice {
        "uncontended" => (0, 5_000_000, 0),
        "4" => (2, 200_000, STEPS),
        "16" => (4, 50_000, STEPS),
        _ => return None,
    };
    Some((doublings, Load { turns, steps }))
}

/// Measures the lock beside a `Mutex`, in turn, and prints each round.
pub fn measure<R: Threads + Wait + Sync + Clock + Print>(
    rt: &R,
    alloc: Global,
    choice: &str,
    doublings: u32,
    load: Load,
) -> io::Result<()> {
    for _ in 0..ROUNDS {
        let by_lock = time_turns(rt, alloc, doublings, load)?;
        let by_mutex = time_locks(rt, alloc, doublings, load)?;
        print_round(rt, choice, &by_lock, &by_mutex)?;
    }
    Ok(())
}

fn print_round<R: Print>(rt: &R, choice: &str, by_lock: &Took, by_mutex: &Took) -> io::Result<()> {
    let turns = tenths(by_lock);
    let locks = tenths(by_mutex);
    let percent = turns.saturating_mul(100) / locks.max(1);
    if by_lock.work == 0 && by_mutex.work == 0 {
        println!(rt; "the work came to nothing")?;
    }
    println!(rt;
        "{choice}: lock {}.{} ns a turn, Mutex {}.{} ns, {percent} %",
        turns / 10,
        turns % 10,
        locks / 10,
        locks % 10
    )
}
