//! What an entry declares, added to the index of its sort.

ghost use Rattle.std.specs.Prelude.{◌≡◌, ◌++◌, ◌∷◌, [], OnOk, List as Items};
ghost use Rattle.wf_model.specs.declared.registry.Entry.{Entry};
ghost use Rattle.wf_model.specs.Entries.{dimspecs, rconfigs, packages, halos, periods};
ghost use Rattle.wf_model.specs.Entries.{entry_datasets, entry_levels, entry_symbol};
ghost use Rattle.wf_model.specs.Entries.{entry_variables};
ghost use Rattle.wf_registry.specs.Adding.{Adds};
ghost use Rattle.wf_registry.specs.Indexing.{IsIndexed, integer_names, names_of};

use crate::field_words::FieldWords;
use crate::names::Names;
use std::alloc::{AllocError, Global};
use wf_model::Entry;
use wf_registry_columns::{is_integer, level_names, staggered, variables_of};

/// The names that entries declare.
#[derive(Drop)]
pub(crate) struct Index {
    pub(crate) kinds: KindIndex,
    pub(crate) fields: FieldIndex,
}

impl Index {
    /// Of no entry.
    pub(crate) fn new(alloc: Global) -> Index
        ensures { IsIndexed [] result }
    {
        Index {
            kinds: KindIndex::new(alloc),
            fields: FieldIndex::new(alloc),
        }
    }

    /// Adds what an entry declares.
    pub(crate) fn add(&mut self, alloc: Global, entry: &Entry) -> Result<(), AllocError>
        ensures { OnOk result ((es : Items Entry) → IsIndexed es self.old
            → IsIndexed (es ++ entry.now ∷ []) self.new) }
    {
        self.kinds.add(alloc, entry)?;
        self.fields.add(alloc, entry)?;
        Ok(())
    }
}

/// Names of entries, by their kinds.
#[derive(Drop)]
pub(crate) struct KindIndex {
    /// Letters of dimspecs.
    pub(crate) dimspecs: Names,
    pub(crate) rconfigs: Names,
    /// Rconfigs whose first entry is of type integer.
    pub(crate) integers: Names,
    pub(crate) packages: Names,
    pub(crate) halos: Names,
    pub(crate) periods: Names,
}

impl KindIndex {
    pub(crate) fn new(alloc: Global) -> KindIndex
        ensures kinds { (result.dimspecs ≡ []) × (result.rconfigs ≡ []) × (result.integers ≡ []) }
        ensures names { (result.packages ≡ []) × (result.halos ≡ []) × (result.periods ≡ []) }
    {
        KindIndex {
            dimspecs: Names::new(alloc),
            rconfigs: Names::new(alloc),
            integers: Names::new(alloc),
            packages: Names::new(alloc),
            halos: Names::new(alloc),
            periods: Names::new(alloc),
        }
    }

    /// Adds what an entry is named.
    pub(crate) fn add(&mut self, alloc: Global, entry: &Entry) -> Result<(), AllocError>
        ensures dimspecs { OnOk result
            (Adds self.old.dimspecs self.new.dimspecs (names_of dimspecs entry.now)) }
        ensures integers { OnOk result
            (Adds self.old.integers self.new.integers (integer_names self.old.rconfigs entry.now)) }
        ensures rconfigs { OnOk result
            (Adds self.old.rconfigs self.new.rconfigs (names_of rconfigs entry.now)) }
        ensures packages { OnOk result
            (Adds self.old.packages self.new.packages (names_of packages entry.now)) }
        ensures halos { OnOk result
            (Adds self.old.halos self.new.halos (names_of halos entry.now)) }
        ensures periods { OnOk result
            (Adds self.old.periods self.new.periods (names_of periods entry.now)) }
    {
        add_dimspec(alloc, &mut self.dimspecs, entry)?;
        add_integer(alloc, &mut self.integers, &self.rconfigs, entry)?;
        add_rconfig(alloc, &mut self.rconfigs, entry)?;
        add_package(alloc, &mut self.packages, entry)?;
        add_halo(alloc, &mut self.halos, entry)?;
        add_period(alloc, &mut self.periods, entry)?;
        Ok(())
    }
}

/// Names of fields and dimensions.
#[derive(Drop)]
pub(crate) struct FieldIndex {
    /// Symbols of fields, and names of their levels.
    pub(crate) words: FieldWords,
    /// Names of integer fields in files.
    pub(crate) variables: Names,
    /// Names of dimensions in files.
    pub(crate) datasets: Names,
}

impl FieldIndex {
    pub(crate) fn new(alloc: Global) -> FieldIndex
        ensures words { (result.words.symbols ≡ []) × (result.words.levels ≡ []) }
        ensures names { (result.variables ≡ []) × (result.datasets ≡ []) }
    {
        FieldIndex {
            words: FieldWords::new(alloc),
            variables: Names::new(alloc),
            datasets: Names::new(alloc),
        }
    }

    /// Adds the names of a field or a dimension that an entry declares.
    pub(crate) fn add(&mut self, alloc: Global, entry: &Entry) -> Result<(), AllocError>
        ensures symbols { OnOk result
            (Adds self.old.words.symbols self.new.words.symbols (entry_symbol entry.now)) }
        ensures levels { OnOk result
            (Adds self.old.words.levels self.new.words.levels (entry_levels entry.now)) }
        ensures variables { OnOk result
            (Adds self.old.variables self.new.variables (entry_variables entry.now)) }
        ensures datasets { OnOk result
            (Adds self.old.datasets self.new.datasets (entry_datasets entry.now)) }
    {
        add_words(alloc, &mut self.words, entry)?;
        add_variables(alloc, &mut self.variables, entry)?;
        add_datasets(alloc, &mut self.datasets, entry)?;
        Ok(())
    }
}

/// Adds the letter of a dimspec.
#[tactic(auto, using(crate::proofs::IndexLemmas::adds_none))]
fn add_dimspec(alloc: Global, names: &mut Names, entry: &Entry) -> Result<(), AllocError>
    ensures { OnOk result (Adds names.old names.new (names_of dimspecs entry.now)) }
{
    match entry {
        Entry::Dimspec { letter, .. } => names.add_word(alloc, &[*letter]),
        _ => Ok(()),
    }
}

/// Adds the name of an rconfig.
#[tactic(auto, using(crate::proofs::IndexLemmas::adds_none))]
fn add_rconfig(alloc: Global, names: &mut Names, entry: &Entry) -> Result<(), AllocError>
    ensures { OnOk result (Adds names.old names.new (names_of rconfigs entry.now)) }
{
    match entry {
        Entry::Rconfig { symbol, .. } => names.add_word(alloc, symbol.as_slice()),
        _ => Ok(()),
    }
}

/// Adds the name of a package.
#[tactic(auto, using(crate::proofs::IndexLemmas::adds_none))]
fn add_package(alloc: Global, names: &mut Names, entry: &Entry) -> Result<(), AllocError>
    ensures { OnOk result (Adds names.old names.new (names_of packages entry.now)) }
{
    match entry {
        Entry::Package { name, .. } => names.add_word(alloc, name.as_slice()),
        _ => Ok(()),
    }
}

/// Adds the name of a halo.
#[tactic(auto, using(crate::proofs::IndexLemmas::adds_none))]
fn add_halo(alloc: Global, names: &mut Names, entry: &Entry) -> Result<(), AllocError>
    ensures { OnOk result (Adds names.old names.new (names_of halos entry.now)) }
{
    match entry {
        Entry::Halo { name, .. } => names.add_word(alloc, name.as_slice()),
        _ => Ok(()),
    }
}

/// Adds the name of a period.
#[tactic(auto, using(crate::proofs::IndexLemmas::adds_none))]
fn add_period(alloc: Global, names: &mut Names, entry: &Entry) -> Result<(), AllocError>
    ensures { OnOk result (Adds names.old names.new (names_of periods entry.now)) }
{
    match entry {
        Entry::Period { name, .. } => names.add_word(alloc, name.as_slice()),
        _ => Ok(()),
    }
}

/// Adds the name of an rconfig of type integer, unless an rconfig has it already.
#[tactic(auto, using(crate::proofs::IndexLemmas::adds_none))]
fn add_integer(
    alloc: Global,
    names: &mut Names,
    rconfigs: &Names,
    entry: &Entry,
) -> Result<(), AllocError>
    ensures { OnOk result (Adds names.old names.new (integer_names rconfigs.now entry.now)) }
{
    match entry {
        Entry::Rconfig { kind, symbol, .. } => {
            if is_integer(kind.as_slice()) && !rconfigs.contains(symbol.as_slice()) {
                return names.add_word(alloc, symbol.as_slice());
            }
            Ok(())
        }
        _ => Ok(()),
    }
}

/// Adds the symbol of a field and the names of its levels.
#[tactic(auto, using(crate::proofs::IndexLemmas::adds_none, crate::proofs::IndexLemmas::adds_same, crate::proofs::IndexLemmas::same_adds))]
fn add_words(alloc: Global, words: &mut FieldWords, entry: &Entry) -> Result<(), AllocError>
    ensures symbols { OnOk result
        (Adds words.old.symbols words.new.symbols (entry_symbol entry.now)) }
    ensures levels { OnOk result (Adds words.old.levels words.new.levels (entry_levels entry.now)) }
{
    match entry {
        Entry::State { symbol, levels, .. } => {
            let names = level_names(alloc, symbol.as_slice(), levels.as_slice())?;
            words.add_symbol(alloc, symbol.as_slice())?;
            words.add_levels(names)?;
            Ok(())
        }
        _ => Ok(()),
    }
}

/// Adds the names of an integer field in files.
#[tactic(auto, using(crate::proofs::IndexLemmas::adds_none))]
fn add_variables(alloc: Global, names: &mut Names, entry: &Entry) -> Result<(), AllocError>
    ensures { OnOk result (Adds names.old names.new (entry_variables entry.now)) }
{
    match entry {
        Entry::State {
            kind,
            symbol,
            levels,
            dname,
            ..
        } => {
            if !is_integer(kind.as_slice()) {
                return Ok(());
            }
            let words = variables_of(
                alloc,
                symbol.as_slice(),
                levels.as_slice(),
                dname.as_slice(),
            )?;
            names.add_all(words)
        }
        _ => Ok(()),
    }
}

/// Adds the name of a dimension in files, and its staggered form.
#[tactic(auto, using(crate::proofs::IndexLemmas::adds_none, crate::proofs::IndexLemmas::adds_two))]
fn add_datasets(alloc: Global, names: &mut Names, entry: &Entry) -> Result<(), AllocError>
    ensures { OnOk result (Adds names.old names.new (entry_datasets entry.now)) }
{
    match entry {
        Entry::Dimspec { dataset, .. } => {
            let staggered = staggered(alloc, dataset.as_slice())?;
            names.add_word(alloc, dataset.as_slice())?;
            names.add(staggered)
        }
        _ => Ok(()),
    }
}
