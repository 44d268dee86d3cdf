//! State lines.

ghost use Rattle.std.specs.Prelude.{◌≡◌, ◌∷◌, IfNone, IfOk, IsTrue, codes, flat_map};
ghost use Rattle.wf_model.specs.Entries.{column, entry_variables};
ghost use Rattle.wf_model.specs.Entries.{level_names as names_of_levels};
ghost use Rattle.wf_model.specs.Entries.{variable_of as name_of_variable};
ghost use Rattle.wf_model.specs.Entries.{variables_of as names_of_variables};
ghost use Rattle.wf_model.specs.Judging.{integer_faults, state_faults, symbol_of, taken_names};
ghost use Rattle.wf_model.specs.Letters.{is_among, is_name, share};
ghost use Rattle.wf_model.specs.Reading.{first_fault, Gives};
ghost use Rattle.wf_registry_columns.specs.Texts.{texts};
ghost use Rattle.wf_registry_columns.specs.Words.{word_texts};
ghost use Rattle.wf_registry.specs.FieldNames.{AreNamesOf};
ghost use Rattle.wf_registry.specs.Lines.{state_entry};
ghost use Rattle.wf_registry.specs.RegistryErrors.{rule_of};

use crate::declared::Declared;
use crate::error::LineError;
use std::alloc::{AllocError, Global};
use wf_model::{Bytes, Entry, Name, RegistryKind, Word};
use wf_registry_columns::{
    Axes, column, dims_fault, io_fault, is_integer, is_short, is_state_type, is_two, level_names,
    stagger_fault, variable_of, variables_of,
};
use wf_text::{is_number_within, lower};

/// The names that a field declares, as its columns say.
#[derive(Drop)]
struct FieldNames {
    symbol: Vec<u8>,
    levels: Vec<Vec<u8>>,
    variable: Vec<u8>,
    variables: Vec<Vec<u8>>,
}

fn field_names(alloc: Global, columns: &[Word]) -> Result<FieldNames, AllocError>
    ensures { IfOk result (λ n. AreNamesOf n.symbol.items (texts n.levels.items) n.variable.items
        (texts n.variables.items) (word_texts columns.now)) }
{
    let symbol = lower(alloc, column(columns, 1))?;
    let levels = level_names(alloc, &symbol, column(columns, 4))?;
    let variable = variable_of(alloc, &symbol, column(columns, 7))?;
    let variables = variables_of(alloc, &symbol, column(columns, 4), column(columns, 7))?;
    Ok(FieldNames {
        symbol,
        levels,
        variable,
        variables,
    })
}

/// Whether one of the names is a symbol or the name of a level before.
fn shares_names(before: &Declared, names: &[Vec<u8>]) -> bool
    ensures { result ≡ share (texts names.now) (taken_names before.now) }
{
    names.iter().any(|name| before.has_name(name))
}

/// Whether a field before has this name in files, or every file has it.
fn is_taken_variable(before: &Declared, word: &[u8]) -> bool
    ensures { result ≡ is_among word.now (codes "Times" ∷ flat_map entry_variables before.now) }
{
    word == b"Times".as_slice() || before.has_variable(word)
}

fn shares_variables(before: &Declared, names: &[Vec<u8>]) -> bool
    ensures { result
        ≡ share (texts names.now) (codes "Times" ∷ flat_map entry_variables before.now) }
{
    names.iter().any(|name| is_taken_variable(before, name))
}

/// What is wrong in the columns of an integer field behind its symbol.
fn integer_fault(
    all: &Axes,
    before: &Declared,
    columns: &[Word],
    names: &FieldNames,
) -> Option<RegistryKind>
    requires { AreNamesOf names.now.symbol.items (texts names.now.levels.items)
        names.now.variable.items (texts names.now.variables.items) (word_texts columns.now) }
    ensures { result ≡ first_fault (integer_faults all.now before.now (word_texts columns.now)) }
{
    let dims = column(columns, 2);
    let fault = dims_fault(all, dims);
    if fault.is_some() {
        return fault;
    }
    let levels = column(columns, 4);
    if !is_number_within(levels, 1, 2) {
        return Some(RegistryKind::Unsupported);
    }
    if is_two(levels) && names.symbol.len() > 62 {
        return Some(RegistryKind::Columns);
    }
    if shares_names(before, &names.levels) {
        return Some(RegistryKind::Duplicate);
    }
    let fault = stagger_fault(all, dims, column(columns, 5));
    if fault.is_some() {
        return fault;
    }
    let fault = io_fault(column(columns, 6));
    if fault.is_some() {
        return fault;
    }
    if !Name::is_name(&names.variable) {
        return Some(RegistryKind::Columns);
    }
    if shares_variables(before, &names.variables) {
        return Some(RegistryKind::Duplicate);
    }
    if !is_short(column(columns, 8)) || !is_short(column(columns, 9)) {
        return Some(RegistryKind::Columns);
    }
    None
}

/// What is wrong in the columns of a field.
fn state_fault(
    all: &Axes,
    before: &Declared,
    columns: &[Word],
    names: &FieldNames,
) -> Option<RegistryKind>
    requires { AreNamesOf names.now.symbol.items (texts names.now.levels.items)
        names.now.variable.items (texts names.now.variables.items) (word_texts columns.now) }
    ensures fault { result
        ≡ first_fault (state_faults all.now before.now (word_texts columns.now)) }
    ensures name { IfNone result (IsTrue (is_name names.now.symbol.items)) }
{
    let kind = column(columns, 0);
    if !is_state_type(kind) {
        return Some(RegistryKind::Columns);
    }
    if !Name::is_name(&names.symbol) {
        return Some(RegistryKind::Columns);
    }
    if before.has_name(&names.symbol) {
        return Some(RegistryKind::Duplicate);
    }
    if is_integer(kind) {
        return integer_fault(all, before, columns, names);
    }
    if shares_names(before, &names.levels) {
        return Some(RegistryKind::Duplicate);
    }
    None
}

pub(crate) fn copied(alloc: Global, columns: &[Word], number: usize) -> Result<Bytes, AllocError>
    ensures { IfOk result (λ b. b ≡ column (word_texts columns.now) number) }
{
    Ok(Bytes::from_vec(Vec::from_slice(alloc, column(columns, number))?))
}

/// The entry of a field with these columns.
pub(crate) fn state_entry(
    alloc: Global,
    all: &Axes,
    before: &Declared,
    columns: &[Word],
) -> Result<Entry, LineError>
    ensures { Gives (λ e. e) rule_of result
        (state_entry all.now before.now (word_texts columns.now)) }
{
    let names = field_names(alloc, columns)?;
    if let Some(kind) = state_fault(all, before, columns, &names) {
        return Err(LineError::Rule(kind));
    }
    Ok(Entry::State {
        kind: copied(alloc, columns, 0)?,
        symbol: Name::from_vec(names.symbol),
        dims: copied(alloc, columns, 2)?,
        levels: copied(alloc, columns, 4)?,
        stagger: copied(alloc, columns, 5)?,
        io: copied(alloc, columns, 6)?,
        dname: copied(alloc, columns, 7)?,
        description: copied(alloc, columns, 8)?,
        units: copied(alloc, columns, 9)?,
    })
}
