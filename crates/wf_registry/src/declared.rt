//! Entries, and what they declare, found by name.

ghost use Rattle.std.specs.Prelude.{◌≡◌, ◌++◌, ◌∷◌, [], IfOk, flat_map};
ghost use Rattle.wf_model.specs.Letters.{is_among};
ghost use Rattle.wf_model.specs.Entries.{declares, dimspecs, rconfigs, packages, halos, periods};
ghost use Rattle.wf_model.specs.Entries.{entry_datasets, entry_levels, entry_symbol};
ghost use Rattle.wf_model.specs.Entries.{entry_variables, is_integer_rconfig};
ghost use Rattle.wf_model.specs.Judging.{taken_names};

use crate::indexing::Index;
use std::alloc::{AllocError, Global};
use std::marker::Model;
use wf_model::Entry;

/// Entries in order, with an index of the names that they declare. Contracts see the list of
/// the entries.
pub(crate) struct Declared {
    entries: Vec<Entry>,
    /// Boxed, since each line's call moves the entries before it.
    index: Box<Index>,
}

impl Model for Declared {
    ghost use Rattle.std.specs.Prelude.{List as Items};
    ghost use Rattle.wf_model.specs.declared.registry.Entry.{Entry};
    ghost use Rattle.wf_registry.specs.Indexing.{IsIndexed};

    ghost Value = { Items Entry };

    ghost view = { λ it. it.entries.items };

    ghost invariant = { λ it. IsIndexed it.entries.items it.index.value };
}

impl Drop for Declared {
    fn drop(self) {
        let Declared {
            entries: _entries,
            index: _index,
        } = self;
    }
}

impl Declared {
    /// No entry, with room for this many.
    pub(crate) fn with_capacity(alloc: Global, count: usize) -> Result<Declared, AllocError>
        ensures { IfOk result (λ d. d ≡ []) }
    {
        let entries = Vec::with_capacity(alloc, count)?;
        let index = Box::new(alloc, Index::new(alloc))?;
        Ok(Declared { entries, index })
    }

    /// The entries, and one more behind them.
    pub(crate) fn with(self, alloc: Global, entry: Entry) -> Result<Declared, AllocError>
        ensures { IfOk result (λ d. d ≡ self ++ entry ∷ []) }
    {
        let Declared {
            mut entries,
            mut index,
        } = self;
        index.add(alloc, &entry)?;
        entries.push(entry)?;
        Ok(Declared { entries, index })
    }

    /// The entries, in order.
    pub(crate) fn entries(&self) -> &[Entry]
        ensures { result.now ≡ self.now }
    {
        self.entries.as_slice()
    }

    /// The entries, in order, without their indexes.
    pub(crate) fn into_entries(self) -> Vec<Entry>
        ensures { result.items ≡ self }
    {
        let Declared {
            entries,
            index: _index,
        } = self;
        entries
    }

    /// Whether a dimspec has this letter.
    #[tactic(auto, using(crate::proofs::IndexLemmas::declares_is))]
    pub(crate) fn has_dimspec(&self, letter: &[u8]) -> bool
        ensures { result ≡ declares dimspecs letter.now self.now }
    {
        self.index.kinds.dimspecs.contains(letter)
    }

    /// Whether an rconfig has this name.
    #[tactic(auto, using(crate::proofs::IndexLemmas::declares_is))]
    pub(crate) fn has_rconfig(&self, name: &[u8]) -> bool
        ensures { result ≡ declares rconfigs name.now self.now }
    {
        self.index.kinds.rconfigs.contains(name)
    }

    /// Whether the first rconfig of this name is of type integer.
    pub(crate) fn has_integer_rconfig(&self, name: &[u8]) -> bool
        ensures { result ≡ is_integer_rconfig self.now name.now }
    {
        self.index.kinds.integers.contains(name)
    }

    /// Whether a package has this name.
    #[tactic(auto, using(crate::proofs::IndexLemmas::declares_is))]
    pub(crate) fn has_package(&self, name: &[u8]) -> bool
        ensures { result ≡ declares packages name.now self.now }
    {
        self.index.kinds.packages.contains(name)
    }

    /// Whether a halo has this name.
    #[tactic(auto, using(crate::proofs::IndexLemmas::declares_is))]
    pub(crate) fn has_halo(&self, name: &[u8]) -> bool
        ensures { result ≡ declares halos name.now self.now }
    {
        self.index.kinds.halos.contains(name)
    }

    /// Whether a period has this name.
    #[tactic(auto, using(crate::proofs::IndexLemmas::declares_is))]
    pub(crate) fn has_period(&self, name: &[u8]) -> bool
        ensures { result ≡ declares periods name.now self.now }
    {
        self.index.kinds.periods.contains(name)
    }

    /// Whether a field has this symbol.
    pub(crate) fn has_symbol(&self, word: &[u8]) -> bool
        ensures { result ≡ is_among word.now (flat_map entry_symbol self.now) }
    {
        self.index.fields.words.has_symbol(word)
    }

    /// Whether a level of a field has this name.
    pub(crate) fn has_level(&self, word: &[u8]) -> bool
        ensures { result ≡ is_among word.now (flat_map entry_levels self.now) }
    {
        self.index.fields.words.has_level(word)
    }

    /// Whether a symbol, or the name of a level, is this word.
    #[tactic(auto, using(crate::proofs::Sharing::taken_is))]
    pub(crate) fn has_name(&self, word: &[u8]) -> bool
        ensures { result ≡ is_among word.now (taken_names self.now) }
    {
        self.index.fields.words.has_name(word)
    }

    /// Whether an integer field has this name in files.
    pub(crate) fn has_variable(&self, word: &[u8]) -> bool
        ensures { result ≡ is_among word.now (flat_map entry_variables self.now) }
    {
        self.index.fields.variables.contains(word)
    }

    /// Whether a dimension has this name in files.
    pub(crate) fn has_dataset(&self, word: &[u8]) -> bool
        ensures { result ≡ is_among word.now (flat_map entry_datasets self.now) }
    {
        self.index.fields.datasets.contains(word)
    }
}
