//! Names that are looked up.

ghost use Rattle.std.specs.Prelude.{◌≡◌, ◌∷◌, [], OnOk};
ghost use Rattle.wf_model.specs.Letters.{is_among};
ghost use Rattle.wf_registry.specs.Adding.{Adds};
ghost use Rattle.wf_registry_columns.specs.Texts.{texts};

use indexmap::IndexSet;
use std::alloc::{AllocError, Global};
use std::marker::Model;

/// Names, each once, which contracts see as the list of them.
pub(crate) struct Names {
    names: IndexSet<Vec<u8>>,
}

impl Model for Names {
    ghost use Rattle.std.specs.Prelude.{List as Items, ℕ};
    ghost use Rattle.wf_registry_columns.specs.Texts.{texts};

    ghost Value = { Items (Items ℕ) };

    ghost view = { λ it. texts it.names.keys };
}

impl Drop for Names {
    fn drop(self) {
        let Names { names: _names } = self;
    }
}

impl Names {
    /// No name.
    pub(crate) fn new(alloc: Global) -> Names
        ensures { result ≡ [] }
    {
        Names {
            names: IndexSet::new(alloc),
        }
    }

    /// Whether the word is one of the names.
    pub(crate) fn contains(&self, word: &[u8]) -> bool
        ensures { result ≡ is_among word.now self.now }
    {
        self.names.contains(word)
    }

    /// Adds a name, which may be there.
    pub(crate) fn add(&mut self, name: Vec<u8>) -> Result<(), AllocError>
        ensures { OnOk result (Adds self.old self.new (name.items ∷ [])) }
    {
        self.names.insert(name)?;
        Ok(())
    }

    /// Adds a copy of a word, which may be there.
    pub(crate) fn add_word(&mut self, alloc: Global, word: &[u8]) -> Result<(), AllocError>
        ensures { OnOk result (Adds self.old self.new (word.now ∷ [])) }
    {
        let name = Vec::from_slice(alloc, word)?;
        self.add(name)
    }

    /// Adds words, which may be there.
    pub(crate) fn add_all(&mut self, words: Vec<Vec<u8>>) -> Result<(), AllocError>
        ensures { OnOk result (Adds self.old self.new (texts words.items)) }
    {
        for word in words {
            self.add(word)?;
        }
        Ok(())
    }
}
