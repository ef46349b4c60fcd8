//! What can stand behind the lock.
ghost use Rattle.std.specs.Prelude.{◌≡◌, ℕ, ◌^◌, ◌<◌, List, length, Option};

/// A value that stands for a list of entries.
pub trait LogValue {
    /// One entry of the list. It is plain data.
    type Entry;

    /// What the value was made from. It never changes.
    type Origin;

    /// The list that the value stands for.
    ghost entries: { Self → List Self.Entry };

    /// What this value was made from.
    ghost origin: { Self → Self.Origin };

    /// The number of the one seat that may add such an entry; none where every seat may.
    ghost author: { Self.Entry → Option ℕ };

    /// The length of the list, where a `u64` holds it. Takes no memory.
    fn length(&self) -> u64
        ensures { length (entries self.now) < 2 ^ 64 → result ≡ length (entries self.now) };
}
