//! What a tape is: words at places, drawn one after another.
ghost use Rattle.std.specs.Prelude.{◌≡◌, ℕ, ◌+◌, ◌≤◌, List};

/// A tape of words, which are drawn in order. Its type, its source and a place determine the word there and how many are left.
pub trait Tape {
    /// The place of the next word.
    ghost place: { Self → ℕ };

    /// What the words come from.
    ghost source: { Self → List ℕ };

    /// The word of a source at a place.
    ghost word: { List ℕ → ℕ → ℕ };

    /// How many words of a source are left at a place.
    ghost left: { List ℕ → ℕ → ℕ };

    /// Draws the next word.
    fn next(&mut self) -> u32
        requires { 1 ≤ left (source self.old) (place self.old) }
        ensures word { result ≡ word (source self.old) (place self.old) }
        ensures place { place self.new ≡ place self.old + 1 }
        ensures source { source self.new ≡ source self.old }
        ensures left { left (source self.new) (place self.new) + 1 ≡ left (source self.old) (place self.old) };

    /// How many words can still be drawn.
    fn left(&self) -> u64
        ensures { result ≡ left (source self.now) (place self.now) };
}
