//! The functions that a case stores: their names, what they accept and what they answer.

ghost use Rattle.std.specs.Prelude.{◌≡◌};
ghost use Rattle.wf_hooks.specs.Accepts.{AcceptsHooks};
ghost use Rattle.wf_rows.specs.Seconds.{second_of};

use anyhow::{Result, ensure};
use std::alloc::Global;
use std::marker::Model;
use wf_hooks::Meanings;
use wf_model::{HookKind, HookName, Name};

/// What the functions that a case stores accept and answer: numbers of 64 bits, and the second of
/// them, or 0 where there are fewer than two.
pub struct Seconds;

impl Meanings for Seconds {
    ghost use Rattle.wf_rows.specs.Seconds.{AcceptsNumbers, second_meaning};

    ghost accepts = { AcceptsNumbers };

    ghost answer = { second_meaning };
}

/// The second of these numbers, or 0 where there are fewer than two.
pub fn second(numbers: &[i64]) -> i64
    ensures { result ≡ second_of numbers.now }
{
    numbers.get(1).copied().unwrap_or(0)
}

/// The names of the functions that a case stores, each of at most 8 arguments.
#[derive(Drop)]
pub struct StoredNames {
    hooks: Vec<HookName>,
}

impl Model for StoredNames {
    ghost use Rattle.std.specs.Prelude.{List as Items, All};
    ghost use Rattle.wf_model.specs.declared.table.HookName.{HookName};
    ghost use Rattle.wf_model.specs.Hooks.{HasFewArguments};

    ghost Value = { Items HookName };

    ghost view = { λ s. s.hooks.items };

    ghost invariant = { λ s. All HasFewArguments s.hooks.items };
}

impl StoredNames {
    pub fn new(alloc: Global) -> StoredNames {
        StoredNames {
            hooks: Vec::new(alloc),
        }
    }

    /// Adds a function, whose id is the number of those before it.
    ///
    /// # Errors
    /// A word that is no name, more than 8 arguments, want of memory.
    pub fn add(&mut self, alloc: Global, name: &str, arity: u64) -> Result<()> {
        ensure!(
            Name::is_name(name.as_bytes()),
            "a function has no such name"
        );
        ensure!(arity <= 8, "a function has at most 8 arguments");
        let hook = HookName {
            name: Name::from_vec(Vec::from_slice(alloc, name.as_bytes())?),
            id: u32::try_from(self.hooks.len())?,
            kind: HookKind::Call,
            arity: u32::try_from(arity)?,
        };
        self.hooks.push(hook)?;
        Ok(())
    }

    /// The names, of which each function accepts every list of so many numbers of 64 bits.
    pub fn as_slice(&self) -> &[HookName]
        ensures { AcceptsHooks ⟦<Seconds as Meanings>⟧.accepts result.now }
    {
        &self.hooks
    }
}
