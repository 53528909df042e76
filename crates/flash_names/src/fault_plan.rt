ghost use Rattle.std.specs.Prelude.{◌≡◌, ◌≤◌, IsTrue, nat_eq};
ghost use Rattle.std.specs.List.{list_any};
ghost use Rattle.flash_names.specs.Faults.{Rose};
ghost use Rattle.flash_names.specs.FaultPlan.{Plan, fails_next, after_call, with_fault};

use std::marker::Model;

/// Which calls of an object in memory are to fail, by their numbers counted from 1, and how many calls and
/// faults it has counted. A count that reaches 2^64 - 1 stays there.
#[derive(Debug, Drop)]
pub struct FaultPlan {
    fails: Vec<u32>,
    calls: u64,
    faults: u64,
}

impl Model for FaultPlan {
    ghost Value = { Plan };

    ghost view = { λ p. record { fails = p.fails.items; calls = p.calls; faults = p.faults } };
}

impl FaultPlan {
    /// A plan by which the calls of these numbers fail.
    pub fn new(fails: Vec<u32>) -> FaultPlan
        ensures { result ≡ record { fails = fails.items; calls = 0; faults = 0 } }
    {
        FaultPlan {
            fails,
            calls: 0,
            faults: 0,
        }
    }

    /// Counts a call, and answers whether it is to fail. One that is counts as a fault.
    pub fn next_fails(&mut self) -> bool
        ensures listed { result ≡ fails_next self.old }
        ensures counted { self.new ≡ after_call self.old }
        ensures kept { self.old.faults ≤ self.new.faults }
        ensures rose { IsTrue result → Rose self.old.faults self.new.faults }
    {
        self.calls = self.calls.saturating_add(1);
        let fails = is_listed(&self.fails, self.calls);
        if fails {
            self.faults = self.faults.saturating_add(1);
        }
        fails
    }

    /// Counts a fault that is in no list, as out of memory.
    pub fn add_fault(&mut self)
        ensures counted { self.new ≡ with_fault self.old }
        ensures kept { self.old.faults ≤ self.new.faults }
        ensures rose { Rose self.old.faults self.new.faults }
    {
        self.faults = self.faults.saturating_add(1);
    }
}

fn is_listed(numbers: &[u32], number: u64) -> bool
    ensures { result ≡ list_any (λ n. nat_eq n number) numbers.now }
{
    numbers.iter().any(|n| u64::from(*n) == number)
}
