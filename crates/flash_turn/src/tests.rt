ghost use Rattle.std.specs.Prelude.{◌≡◌, ◌⊎◌, ℕ, ◌∷◌, ◌++◌, [], List, Some, IfOk, length};
ghost use Rattle.flash_turn.specs.Passes.{IsPassOf};

use crate::{Closing, Pass, Shared, Split, Turn};
use std::alloc::{AllocError, Global};
use std::sync::Wait;
use std::test::Fail;
use std::thread::{Threads, join};

// Pairs of the number of a pass and a counter, oldest first.
#[derive(Drop)]
struct Tally {
    pairs: Vec<(u32, u64)>,
}

impl Shared for Tally {
    ghost Entry = { ℕ × ℕ };

    ghost Thing = { ℕ };

    ghost Fixed = { Unit {0} };

    ghost Face = { ℕ };

    ghost story = { λ t. Some t.pairs.items };

    ghost own = { λ t. t.pairs.items };

    ghost fixed = { λ _. tt };

    ghost face = { λ t. length t.pairs.items };
}

impl Tally {
    fn add(&mut self, number: u32, counter: u64) -> Result<(), AllocError>
        ensures { (self.new.pairs.items ≡ self.old.pairs.items)
            ⊎ (self.new.pairs.items ≡ self.old.pairs.items ++ (number, counter) ∷ []) }
    {
        self.pairs.push((number, counter))?;
        Ok(())
    }

    // The counters of one pass, in order.
    fn counters_of(&self, alloc: Global, number: u32) -> Result<Vec<u64>, AllocError> {
        let mut counters = Vec::new(alloc);
        for pair in &self.pairs {
            if pair.0 == number {
                counters.push(pair.1)?;
            }
        }
        Ok(counters)
    }
}

// A new lock round no pairs.
fn opened(alloc: Global) -> Result<(Turn<Tally>, Pass<Tally>), Fail>
    ensures { IfOk result (λ made. IsPassOf {F = Unit {0}} (λ _. tt) made.0 made.1) }
{
    let empty = Tally {
        pairs: Vec::new(alloc),
    };
    match Turn::new(alloc, empty) {
        Ok(made) => Ok(made),
        Err(_) => Err("no memory")?,
    }
}

// Adds a pair in one turn.
fn add_one<R: Wait>(rt: &R, turn: &Turn<Tally>, pass: &mut Pass<Tally>, counter: u64) -> bool
    requires { IsPassOf {F = Unit {0}} (λ _. tt) turn.now pass.old }
    ensures { IsPassOf {F = Unit {0}} (λ _. tt) turn.now pass.new }
{
    let number = pass.number();
    let mut held = turn.enter(rt, pass);
    let done = held.state().add(number, counter).is_ok();
    held.leave();
    done
}

// Adds the counters 1 to `last`, one in each turn.
fn add_all<R: Wait>(rt: &R, turn: &Turn<Tally>, mut pass: Pass<Tally>, last: u64) -> Pass<Tally>
    requires { IsPassOf {F = Unit {0}} (λ _. tt) turn.now pass }
    ensures { IsPassOf {F = Unit {0}} (λ _. tt) turn.now result }
{
    for counter in 0..last {
        add_one(rt, turn, &mut pass, counter + 1);
    }
    pass
}

// Two threads add their counters side by side.
fn add_by_two<R: Threads + Wait + Sync>(
    rt: &R,
    turn: &Turn<Tally>,
    one: Pass<Tally>,
    other: Pass<Tally>,
    last: u64,
) -> (Pass<Tally>, Pass<Tally>)
    requires one { IsPassOf {F = Unit {0}} (λ _. tt) turn.now one }
    requires other { IsPassOf {F = Unit {0}} (λ _. tt) turn.now other }
    ensures { IsPassOf {F = Unit {0}} (λ _. tt) turn.now result.0
        × IsPassOf {F = Unit {0}} (λ _. tt) turn.now result.1 }
{
    join(
        rt,
        move || -> Pass<Tally>
            requires { IsPassOf {F = Unit {0}} (λ _. tt) turn.now one }
            ensures { IsPassOf {F = Unit {0}} (λ _. tt) turn.entry.now result }
        { add_all(rt, turn, one, last) },
        move || -> Pass<Tally>
            requires { IsPassOf {F = Unit {0}} (λ _. tt) turn.now other }
            ensures { IsPassOf {F = Unit {0}} (λ _. tt) turn.entry.now result }
        { add_all(rt, turn, other, last) },
    )
}

#[test]
fn two_threads_one_turn(rt: HostRuntime) -> Result<(), Fail> {
    let alloc = rt.alloc();
    let (turn, mut first) = opened(alloc)?;
    let Split::Pass(second) = first.split(&turn) else {
        panic!(rt; "the numbers are used up")
    };
    let (one, other) = (first.number(), second.number());
    assert_eq!(rt; (one, other), (1, 2));
    let (mut first, second) = add_by_two(&rt, &turn, first, second, 100);
    first.join(&turn, second);
    let Closing::Value(tally) = turn.close(first) else {
        panic!(rt; "a ticket was out")
    };
    assert_eq!(rt; tally.pairs.len(), 200);
    for number in [one, other] {
        let counters = tally.counters_of(alloc, number)?;
        assert_eq!(rt; counters.len(), 100);
        for (at, counter) in counters.iter().enumerate() {
            assert_eq!(rt; *counter, at as u64 + 1);
        }
    }
    Ok(())
}

#[test]
fn a_split_pass_sees_the_pair_before_it(rt: HostRuntime) -> Result<(), Fail> {
    let (turn, mut first) = opened(rt.alloc())?;
    assert!(rt; add_one(&rt, &turn, &mut first, 7));
    let Split::Pass(mut second) = first.split(&turn) else {
        panic!(rt; "the numbers are used up")
    };
    let mut held = turn.enter(&rt, &mut second);
    let seen = held.state().pairs.as_slice() == [(1, 7)].as_slice();
    held.leave();
    assert!(rt; seen);
    Ok(())
}
