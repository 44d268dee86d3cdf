//! Package lines.

ghost use Rattle.std.specs.Prelude.{◌≡◌, IfNone, IsTrue};
ghost use Rattle.wf_model.specs.Entries.{column};
ghost use Rattle.wf_model.specs.Entries.{package_symbol as symbol_of_package};
ghost use Rattle.wf_model.specs.Entries.{package_value as value_of_package};
ghost use Rattle.wf_model.specs.Judging.{package_faults};
ghost use Rattle.wf_model.specs.Letters.{is_name};
ghost use Rattle.wf_model.specs.Letters.{lower as in_lower};
ghost use Rattle.wf_model.specs.Reading.{first_fault, Gives};
ghost use Rattle.wf_model.specs.ValueForms.{is_whole_in, whole_value};
ghost use Rattle.wf_registry_columns.specs.Words.{word_texts};
ghost use Rattle.wf_registry.specs.Lines.{package_entry};
ghost use Rattle.wf_registry.specs.RegistryErrors.{rule_of};

use crate::declared::Declared;
use crate::error::LineError;
use crate::state::copied;
use std::alloc::Global;
use wf_model::{Entry, Name, RegistryKind, Word};
use wf_registry_columns::{
    Head, column, groups_fault, is_package_condition, package_symbol, package_value,
};
use wf_text::{is_dash, is_whole_in_32, lower, whole_in_32};

/// What is wrong in the columns of a package with this name in lower case.
fn package_fault(before: &Declared, columns: &[Word], name: &[u8]) -> Option<RegistryKind>
    requires { name.now ≡ in_lower (column (word_texts columns.now) 0) }
    ensures fault { result ≡ first_fault (package_faults before.now (word_texts columns.now)) }
    ensures name { IfNone result (IsTrue (is_name (column (word_texts columns.now) 0))) }
    ensures symbol { IfNone result
        (IsTrue (is_name (symbol_of_package (column (word_texts columns.now) 1)))) }
    ensures value { IfNone result
        (IsTrue (is_whole_in 32 (value_of_package (column (word_texts columns.now) 1)))) }
{
    if !Name::is_name(column(columns, 0)) {
        return Some(RegistryKind::Columns);
    }
    if before.has_package(name) {
        return Some(RegistryKind::Duplicate);
    }
    let condition = column(columns, 1);
    if !is_package_condition(condition) {
        return Some(RegistryKind::Columns);
    }
    if !is_whole_in_32(package_value(condition)) {
        return Some(RegistryKind::BadNumber);
    }
    let list = column(columns, 3);
    if is_dash(list) {
        return None;
    }
    groups_fault(list, Head::State)
}

/// The whole number that the word is.
fn value_of(word: &[u8]) -> i32
    requires { IsTrue (is_whole_in 32 word.now) }
    ensures { result ≡ whole_value word.now }
{
    match whole_in_32(word) {
        Some(value) => value,
        None => 0,
    }
}

/// The entry of a package with these columns.
#[tactic(auto, using(crate::proofs::NamesInLower::name_in_lower))]
pub(crate) fn package_entry(
    alloc: Global,
    before: &Declared,
    columns: &[Word],
) -> Result<Entry, LineError>
    ensures { Gives (λ e. e) rule_of result (package_entry before.now (word_texts columns.now)) }
{
    let name = lower(alloc, column(columns, 0))?;
    if let Some(kind) = package_fault(before, columns, &name) {
        return Err(LineError::Rule(kind));
    }
    let condition = column(columns, 1);
    let symbol = lower(alloc, package_symbol(condition))?;
    let value = value_of(package_value(condition));
    Ok(Entry::Package {
        name: Name::from_vec(name),
        symbol: Name::from_vec(symbol),
        value,
        list: copied(alloc, columns, 3)?,
    })
}
