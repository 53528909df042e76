ghost use Rattle.std.specs.Prelude.{◌≡◌, ℕ, ◌≤◌, List, Option};
ghost use Rattle.flash_names.specs.Clock.{Reads, reading_at};
ghost use Rattle.flash_names.specs.Faults.{next_count};

/// A clock of the outside, in Unix seconds.
pub trait Clock {
    /// The numbers that it has given, oldest first, where the clock tells them.
    ghost given: { Self → Option (List ℕ) };

    /// How often the clock below it has failed. It never falls.
    ghost faults: { Self → ℕ };

    /// The reading now, in Unix seconds. It can't fail. No call makes a clock tell that didn't tell before.
    fn now(&mut self) -> u64
        ensures reads { Reads (given self.old) result (given self.new) }
        ensures counts { faults self.old ≤ faults self.new };
}

/// A clock that gives the numbers of a list, and then repeats the last; 0 where the list is empty. It
/// tells what it has given while these are fewer than 2^64 - 1 numbers.
#[derive(Debug, Drop)]
pub struct ListClock {
    numbers: Vec<u64>,
    calls: u64,
}

impl ListClock {
    ghost use Rattle.flash_names.specs.ListClock.{numbers_of, calls_of};

    /// A clock that begins with the first of these numbers.
    pub fn new(numbers: Vec<u64>) -> ListClock
        ensures numbers { numbers_of result ≡ numbers.items }
        ensures first { calls_of result ≡ 0 }
    {
        ListClock { numbers, calls: 0 }
    }
}

impl Clock for ListClock {
    ghost use Rattle.flash_names.specs.ListClock.{numbers_of, calls_of, given_by};

    ghost given = { given_by };

    ghost faults = { λ _. 0 };

    fn now(&mut self) -> u64
        ensures reads { Reads (given_by self.old) result (given_by self.new) }

        // The numbers in their order, and then the last again and again.
        ensures exact { result ≡ reading_at (numbers_of self.old) (calls_of self.old) }
        ensures numbers { numbers_of self.new ≡ numbers_of self.old }
        ensures counted { calls_of self.new ≡ next_count (calls_of self.old) }
    {
        let reading = reading_of(&self.numbers, self.calls);
        self.calls = self.calls.saturating_add(1);
        reading
    }
}

fn reading_of(numbers: &[u64], calls: u64) -> u64
    ensures { result ≡ reading_at numbers.now calls }
{
    let last = numbers.len().saturating_sub(1);
    let at = usize::try_from(calls).unwrap_or(usize::MAX).min(last);
    numbers.get(at).copied().unwrap_or(0)
}
