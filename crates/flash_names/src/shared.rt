ghost use Rattle.std.specs.Prelude.{ℕ, List, Option};

/// What a lock that threads take in turn has to know of the value that it guards: a story that only grows, the
/// things that belong to one pass, the part that never changes, and the rest. The members are plain data, which
/// contracts alone read.
pub trait Shared {
    /// What a story is a list of, as the entries of a journal.
    ghost Entry: { Type 0 };

    /// What belongs to one pass, and no turn of another pass changes.
    ghost Thing: { Type 0 };

    /// What no turn changes.
    ghost Fixed: { Type 0 };

    /// The rest of the value.
    ghost Face: { Type 0 };

    /// The list that only grows, oldest first, where the value tells it.
    ghost story: { Self → Option (List Entry) };

    /// The things of each pass, each beside the number of its pass, which is above 0.
    ghost own: { Self → List (ℕ × Thing) };

    /// The part that no turn changes.
    ghost fixed: { Self → Fixed };

    /// What is neither story, nor a pass's own, nor fixed.
    ghost face: { Self → Face };
}
