ghost use Rattle.std.specs.Prelude.{◌≡◌, ◌≤◌, ◌^◌};
ghost use Rattle.std.specs.Ordering.{int_eq};
ghost use Rattle.flash_machine.specs.Moments.{deadline, is_reached};
ghost use Rattle.flash_machine.specs.Looking.{deadline_after, left_to};

// Seconds up to which an exptime counts from now: thirty days.
const THIRTY_DAYS: u64 = 2_592_000;

// The deadline of an exptime at this moment (memcached's doc/protocol.txt, "Expiration times").
pub fn deadline_of(exptime: i64, now: u64) -> Option<u64>
    ensures { now ≤ 2 ^ 62 → result ≡ deadline exptime now }
{
    let Ok(seconds) = u64::try_from(exptime) else {
        return Some(0);
    };
    if seconds == 0 {
        return None;
    }
    Some(if seconds <= THIRTY_DAYS {
        now.saturating_add(seconds)
    } else {
        seconds
    })
}

// The deadline that an item has after it may have been renewed.
pub fn deadline_after(renew: Option<i64>, before: Option<u64>, now: u64) -> Option<u64>
    ensures { now ≤ 2 ^ 62 → result ≡ deadline_after renew before now }
{
    match renew {
        None => before,
        Some(exptime) => deadline_of(exptime, now),
    }
}

// Whether a deadline was reached.
pub fn is_reached(deadline: Option<u64>, now: u64) -> bool
    ensures { result ≡ is_reached deadline now }
{
    match deadline {
        None => false,
        Some(moment) => moment <= now,
    }
}

// Whether so many seconds are left to a deadline: 0 where it was reached, and -1 where there is none.
pub fn is_left(left: i64, deadline: Option<u64>, now: u64) -> bool
    ensures { result ≡ int_eq left (left_to deadline now) }
{
    match deadline {
        None => left == -1,
        Some(moment) => u64::try_from(left) == Ok(moment.saturating_sub(now)),
    }
}
