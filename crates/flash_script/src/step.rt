ghost use Rattle.std.specs.Prelude.{◌≡◌, ◌+◌, ◌≤◌, ◌<◌, ◌↔◌, IsSome, IfSome};
ghost use Rattle.flash_script.specs.declared.step.TheConstants.{MAX_SESSIONS};

/// The most sessions of a script.
pub const MAX_SESSIONS: u32 = 16;

// A script has many steps, and each is kept.
const _: () = prove!(size_of::<Step>() <= 24);

/// The number of a session of a script, from 1 to 16. Session n acts as pass n.
#[derive(Clone, Copy, Debug, PartialEq, Eq)]
pub struct SessionNumber {
    pub number: u32,
    ghost some: { 1 ≤ number },
    ghost within: { number ≤ MAX_SESSIONS },
}

impl SessionNumber {
    /// The session of this number, or `None` where it isn't from 1 to 16.
    pub fn new(number: u64) -> Option<SessionNumber>
        ensures some { IsSome result ↔ ((1 ≤ number) × (number ≤ MAX_SESSIONS)) }
        ensures same { IfSome result (λ session. session.number ≡ number) }
    {
        if number >= 1 && number <= u64::from(MAX_SESSIONS) {
            Some(SessionNumber {
                number: number as u32,
            })
        } else {
            None
        }
    }

    /// Its place among the sessions, counted from 0.
    pub fn index(self) -> usize
        ensures index { result + 1 ≡ self.number }
        ensures within { result < MAX_SESSIONS }
    {
        self.number as usize - 1
    }
}

/// A step that keeps the store within its memory.
#[derive(Clone, Copy, Debug, PartialEq, Eq)]
pub enum Upkeep {
    /// Drops the item that is to leave next, where the items take more than the memory.
    Room,
    /// Drops a dead item at the end of a segment.
    Reap,
    /// Moves a key between the segments.
    Juggle,
}

/// One step of a script. A `Say` and a `Feed` name the range of the script that their bytes are in.
#[derive(Clone, Copy, Debug, PartialEq, Eq)]
pub enum Step {
    /// A reading of the clock, in Unix seconds.
    Clock(u64),
    /// The session is given the bytes of the script from the first place up to the second, and a line
    /// end.
    Say(SessionNumber, u32, u32),
    /// The session is given the bytes of the script from the first place up to the second.
    Feed(SessionNumber, u32, u32),
    /// The session takes its next turn: the next piece of its replies is written, or else its next
    /// step is done.
    Turn(SessionNumber),
    /// The session takes turns until there is none left.
    Run(SessionNumber),
    /// Upkeep of the store.
    Keep(Upkeep),
}
