ghost use Rattle.std.specs.Prelude.{◌≡◌};

use crate::meanings::Meanings;

/// A function that answers calls as M says. Each closure of this form is one that keeps M's
/// meanings, if it may be called on every list that M accepts and then answers what M says. A type
/// that holds a closure cites this fact, since it cannot cite what `Fn` says.
pub trait Answering<M: Meanings>: Drop + Sync {
    /// It may be called with whatever M accepts, and then answers what M says.
    ghost keeps: { Self → Type 0 };

    fn answer(&self, id: u32, arguments: &[i64]) -> i64
        requires kept { keeps self.now }
        requires accepted { M.accepts id arguments.now }
        ensures { result ≡ M.answer id arguments.now };
}

impl<M: Meanings, F: Fn(u32, &[i64]) -> i64 + Sync> Answering<M> for F {
    ghost use Rattle.std.specs.Prelude.{◌≡◌, ℕ, ℤ};

    ghost keeps = { λ f. (id : ℕ) (list : _) → M.accepts id list.now
        → F.pre f id list × ((r : ℤ) → F.post f id list r → r ≡ M.answer id list.now) };

    fn answer(&self, id: u32, arguments: &[i64]) -> i64 {
        self(id, arguments)
    }
}
