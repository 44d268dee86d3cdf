//! Names of fields and of their levels, looked up.

ghost use Rattle.std.specs.Prelude.{◌≡◌, ◌||◌, ◌∷◌, [], OnOk};
ghost use Rattle.wf_model.specs.Letters.{is_among};
ghost use Rattle.wf_registry_columns.specs.Texts.{texts};
ghost use Rattle.wf_registry.specs.Adding.{Adds};
ghost use Rattle.wf_registry.specs.Indexing.{SameNames};

use indexmap::IndexMap;
use std::alloc::{AllocError, Global};
use std::marker::Model;

/// What a name is of: a field, a level of a field, or both.
#[derive(Clone, Copy)]
struct Named {
    symbol: bool,
    level: bool,
}

/// Symbols of fields and names of their levels, each name once. Contracts see the list of the
/// symbols and that of the names of levels.
pub(crate) struct FieldWords {
    names: IndexMap<Vec<u8>, Named>,
}

impl Model for FieldWords {
    ghost use Rattle.std.specs.List.{IsDistinct};
    ghost use Rattle.std.specs.Str.{bytes_eq};
    ghost use Rattle.indexmap.specs.IndexMap.{keys};
    ghost use Rattle.wf_registry.specs.FieldWords.{WordLists, names_with};

    ghost Value = { WordLists };

    ghost view = { λ it. record {
      symbols = names_with (λ named. named.symbol) it.names.entries;
      levels = names_with (λ named. named.level) it.names.entries;
    } };

    ghost invariant = { λ it. IsDistinct (λ a b. bytes_eq a.items b.items) (keys it.names) };
}

impl Drop for FieldWords {
    fn drop(self) {
        let FieldWords { names: _names } = self;
    }
}

impl FieldWords {
    /// No name.
    pub(crate) fn new(alloc: Global) -> FieldWords
        ensures { (result.symbols ≡ []) × (result.levels ≡ []) }
    {
        FieldWords {
            names: IndexMap::new(alloc),
        }
    }

    /// What the word names.
    fn named(&self, word: &[u8]) -> Named
        ensures symbol { result.symbol ≡ is_among word.now self.now.symbols }
        ensures level { result.level ≡ is_among word.now self.now.levels }
    {
        match self.names.get(word) {
            Some(named) => *named,
            None => Named {
                symbol: false,
                level: false,
            },
        }
    }

    /// Whether the word is a symbol.
    pub(crate) fn has_symbol(&self, word: &[u8]) -> bool
        ensures { result ≡ is_among word.now self.now.symbols }
    {
        self.named(word).symbol
    }

    /// Whether the word is the name of a level.
    pub(crate) fn has_level(&self, word: &[u8]) -> bool
        ensures { result ≡ is_among word.now self.now.levels }
    {
        self.named(word).level
    }

    /// Whether the word is a symbol or the name of a level.
    pub(crate) fn has_name(&self, word: &[u8]) -> bool
        ensures { result
            ≡ (is_among word.now self.now.symbols || is_among word.now self.now.levels) }
    {
        let named = self.named(word);
        named.symbol || named.level
    }

    /// Adds a symbol, which may be there. A word that is no name yet is copied.
    pub(crate) fn add_symbol(&mut self, alloc: Global, word: &[u8]) -> Result<(), AllocError>
        ensures symbols { OnOk result (Adds self.old.symbols self.new.symbols (word.now ∷ [])) }
        ensures levels { OnOk result (SameNames self.old.levels self.new.levels) }
    {
        match self.names.get_mut(word) {
            Some(named) => named.symbol = true,
            None => {
                let name = Vec::from_slice(alloc, word)?;
                self.names.insert(
                    name,
                    Named {
                        symbol: true,
                        level: false,
                    },
                )?;
            }
        }
        Ok(())
    }

    /// Adds the name of a level, which may be there.
    pub(crate) fn add_level(&mut self, name: Vec<u8>) -> Result<(), AllocError>
        ensures symbols { OnOk result (SameNames self.old.symbols self.new.symbols) }
        ensures levels { OnOk result (Adds self.old.levels self.new.levels (name.items ∷ [])) }
    {
        match self.names.get_mut(name.as_slice()) {
            Some(named) => named.level = true,
            None => {
                self.names.insert(
                    name,
                    Named {
                        symbol: false,
                        level: true,
                    },
                )?;
            }
        }
        Ok(())
    }

    /// Adds names of levels, which may be there.
    pub(crate) fn add_levels(&mut self, names: Vec<Vec<u8>>) -> Result<(), AllocError>
        ensures symbols { OnOk result (SameNames self.old.symbols self.new.symbols) }
        ensures levels { OnOk result (Adds self.old.levels self.new.levels (texts names.items)) }
    {
        for name in names {
            self.add_level(name)?;
        }
        Ok(())
    }
}
