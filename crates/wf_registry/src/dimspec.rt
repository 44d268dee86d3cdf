//! Dimspec lines.

ghost use Rattle.std.specs.Prelude.{◌≡◌, ◌++◌, ◌∷◌, [], IfNone, IsTrue, flat_map};
ghost use Rattle.wf_model.specs.Entries.{column, entry_datasets};
ghost use Rattle.wf_model.specs.Entries.{staggered as staggered_form};
ghost use Rattle.wf_model.specs.Judging.{dimspec_faults, taken_datasets};
ghost use Rattle.wf_model.specs.Letters.{is_among, is_name, share};
ghost use Rattle.wf_model.specs.Reading.{first_fault, Gives};
ghost use Rattle.wf_registry_columns.specs.Words.{word_texts};
ghost use Rattle.wf_registry.specs.Lines.{dimspec_entry};
ghost use Rattle.wf_registry.specs.RegistryErrors.{rule_of};

use crate::declared::Declared;
use crate::error::LineError;
use std::alloc::Global;
use wf_model::{Bytes, Entry, Name, RegistryKind, Word};
use wf_registry_columns::{column, how_fault, is_axis, is_standard, only_byte, staggered};

/// Whether a dimension before has this name in files, or every file has it.
fn is_taken_dataset(before: &Declared, word: &[u8]) -> bool
    ensures { result ≡ is_among word.now (taken_datasets ++ flat_map entry_datasets before.now) }
{
    word == b"Time".as_slice() || word == b"DateStrLen".as_slice() || before.has_dataset(word)
}

fn shares_dataset(before: &Declared, name: &[u8], staggered: &[u8]) -> bool
    ensures { result ≡ share (name.now ∷ staggered.now ∷ [])
        (taken_datasets ++ flat_map entry_datasets before.now) }
{
    is_taken_dataset(before, name) || is_taken_dataset(before, staggered)
}

/// What is wrong in the columns of a dimspec, whose name of a dimension has this staggered form.
fn dimspec_fault(before: &Declared, columns: &[Word], staggered: &[u8]) -> Option<RegistryKind>
    requires { staggered.now ≡ staggered_form (column (word_texts columns.now) 4) }
    ensures fault { result ≡ first_fault (dimspec_faults before.now (word_texts columns.now)) }
    ensures name { IfNone result (IsTrue (is_name (column (word_texts columns.now) 4))) }
{
    let letter = column(columns, 0);
    if !only_byte(letter).is_ascii_alphabetic() {
        return Some(RegistryKind::Columns);
    }
    if before.has_dimspec(letter) {
        return Some(RegistryKind::Duplicate);
    }
    let how = column(columns, 2);
    let fault = how_fault(how);
    if fault.is_some() {
        return fault;
    }
    let axis = column(columns, 3);
    if !is_axis(axis) {
        return Some(RegistryKind::Columns);
    }
    if axis != b"z".as_slice() && !is_standard(how) {
        return Some(RegistryKind::Unsupported);
    }
    let dataset = column(columns, 4);
    if !Name::is_name(dataset) {
        return Some(RegistryKind::Columns);
    }
    if shares_dataset(before, dataset, staggered) {
        return Some(RegistryKind::Duplicate);
    }
    None
}

/// The entry of a dimspec with these columns.
pub(crate) fn dimspec_entry(
    alloc: Global,
    before: &Declared,
    columns: &[Word],
) -> Result<Entry, LineError>
    ensures { Gives (λ e. e) rule_of result (dimspec_entry before.now (word_texts columns.now)) }
{
    let dataset = column(columns, 4);
    let staggered = staggered(alloc, dataset)?;
    if let Some(kind) = dimspec_fault(before, columns, &staggered) {
        return Err(LineError::Rule(kind));
    }
    Ok(Entry::Dimspec {
        letter: only_byte(column(columns, 0)),
        how: Bytes::from_vec(Vec::from_slice(alloc, column(columns, 2))?),
        axis: only_byte(column(columns, 3)),
        dataset: Name::from_vec(Vec::from_slice(alloc, dataset)?),
    })
}
