//! The numbers that a stored function is called on.

ghost use Rattle.std.specs.Prelude.{◌≡◌, ◌<◌, [], ◌∷◌, ◌++◌, length};
ghost use Rattle.wf_hooks.specs.Numbers.{AreI64};

use std::marker::Model;

/// At most 8 numbers of 64 bits, which contracts see as their list.
#[derive(Drop)]
pub struct Arguments {
    numbers: [i64; 8],
    count: usize,
}

impl Model for Arguments {
    ghost use Rattle.std.specs.Prelude.{◌≤◌, List, ℤ, take};
    ghost use Rattle.wf_hooks.specs.Numbers.{AreI64};

    ghost Value = { List ℤ };

    ghost view = { λ a. take a.count a.numbers };

    ghost invariant = { λ a. (a.count ≤ 8) × AreI64 (take a.count a.numbers) };
}

impl Arguments {
    pub fn new() -> Arguments
        ensures { result ≡ [] }
    {
        Arguments {
            numbers: [0; 8],
            count: 0,
        }
    }

    /// Adds a number behind the others.
    pub fn push(&mut self, number: i64)
        requires { length self.old < 8 }
        ensures { self.new ≡ self.old ++ number ∷ [] }
    {
        self.numbers[self.count] = number;
        self.count += 1;
    }

    pub fn as_slice(&self) -> &[i64]
        ensures numbers { result.now ≡ self.now }
        ensures fit { AreI64 result.now }
    {
        &self.numbers[..self.count]
    }
}
