//! Rconfig lines.

ghost use Rattle.std.specs.Prelude.{◌≡◌, IfNone, IsTrue};
ghost use Rattle.wf_model.specs.Judging.{rconfig_faults, symbol_of};
ghost use Rattle.wf_model.specs.Letters.{is_name};
ghost use Rattle.wf_model.specs.Reading.{first_fault, Gives};
ghost use Rattle.wf_registry_columns.specs.Words.{word_texts};
ghost use Rattle.wf_registry.specs.Lines.{rconfig_entry};
ghost use Rattle.wf_registry.specs.RegistryErrors.{rule_of};

use crate::declared::Declared;
use crate::error::LineError;
use crate::state::copied;
use std::alloc::Global;
use wf_model::{Entry, Name, RegistryKind, Word};
use wf_registry_columns::{column, entries_fault, is_default, is_rconfig_how, type_fault};
use wf_text::lower;

/// What is wrong in the columns of an rconfig with this symbol.
fn rconfig_fault(before: &Declared, columns: &[Word], symbol: &[u8]) -> Option<RegistryKind>
    requires { symbol.now ≡ symbol_of (word_texts columns.now) }
    ensures fault { result ≡ first_fault (rconfig_faults before.now (word_texts columns.now)) }
    ensures name { IfNone result (IsTrue (is_name symbol.now)) }
{
    let kind = column(columns, 0);
    let fault = type_fault(kind);
    if fault.is_some() {
        return fault;
    }
    if !Name::is_name(symbol) {
        return Some(RegistryKind::Columns);
    }
    if before.has_rconfig(symbol) {
        return Some(RegistryKind::Duplicate);
    }
    if !is_rconfig_how(column(columns, 2)) {
        return Some(RegistryKind::Columns);
    }
    let fault = entries_fault(column(columns, 3));
    if fault.is_some() {
        return fault;
    }
    if !is_default(kind, column(columns, 4)) {
        return Some(RegistryKind::BadNumber);
    }
    None
}

/// The entry of an rconfig with these columns.
pub(crate) fn rconfig_entry(
    alloc: Global,
    before: &Declared,
    columns: &[Word],
) -> Result<Entry, LineError>
    ensures { Gives (λ e. e) rule_of result (rconfig_entry before.now (word_texts columns.now)) }
{
    let symbol = lower(alloc, column(columns, 1))?;
    if let Some(kind) = rconfig_fault(before, columns, &symbol) {
        return Err(LineError::Rule(kind));
    }
    Ok(Entry::Rconfig {
        kind: copied(alloc, columns, 0)?,
        symbol: Name::from_vec(symbol),
        how: copied(alloc, columns, 2)?,
        entries: copied(alloc, columns, 3)?,
        default: copied(alloc, columns, 4)?,
    })
}
