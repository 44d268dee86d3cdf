/// What stored functions accept and what they answer, by their ids.
pub trait Meanings: Send + Sync {
    ghost use Rattle.std.specs.Prelude.{ℕ, List, ℤ};

    /// The function of this id may be called with this list of numbers.
    ghost accepts: { ℕ → List ℤ → Type 0 };

    /// What it then answers.
    ghost answer: { ℕ → List ℤ → ℤ };
}
