//! What lies under a turn lock.
ghost use Rattle.std.specs.Prelude.{◌≡◌, ℕ, ◌<◌, ◌≤◌, List, ◌++◌, length, Option};

/// A value whose list of entries only grows. Its list has a mark, which never falls as the list grows, and each entry may have a
/// maker, which never changes.
pub trait Journal: Drop {
    type Entry;

    ghost entries: { Self → List Self.Entry };

    ghost mark_of: { List Self.Entry → ℕ };

    // The share under which the entry at a position was made, or None.
    ghost maker: { List Self.Entry → ℕ → Option ℕ };

    /// The mark of the list.
    fn mark(&self) -> u64
        ensures { result ≡ mark_of (entries self.now) };

    ghost mark_grows: { (xs ys : List Self.Entry) → mark_of xs ≤ mark_of (xs ++ ys) };

    ghost maker_stays: { (xs ys : List Self.Entry) (i : ℕ) → i < length xs → maker (xs ++ ys) i ≡ maker xs i };
}
