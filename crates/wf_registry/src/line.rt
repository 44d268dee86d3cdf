//! A line, judged and made an entry.

ghost use Rattle.std.specs.Prelude.{◌≡◌};
ghost use Rattle.wf_model.specs.Reading.{Gives};
ghost use Rattle.wf_registry_columns.specs.Kinds.{kind_seen};
ghost use Rattle.wf_registry_columns.specs.Words.{word_texts};
ghost use Rattle.wf_registry.specs.Lines.{column_entry, line_entry};
ghost use Rattle.wf_registry.specs.RegistryErrors.{rule_of};

use crate::declared::Declared;
use crate::dimspec::dimspec_entry;
use crate::error::LineError;
use crate::exchange::{halo_entry, period_entry};
use crate::package::package_entry;
use crate::rconfig::rconfig_entry;
use crate::state::state_entry;
use std::alloc::Global;
use wf_model::{Entry, RegistryKind, Word};
use wf_registry_columns::{Axes, LineKind, columns_of, kind_of, least_columns};

/// The entry of a line of this kind with these columns, of which there are enough.
#[tactic(auto, unfolding(crate::specs::Lines::column_entry))]
fn column_entry(
    alloc: Global,
    kind: LineKind,
    all: &Axes,
    before: &Declared,
    columns: &[Word],
) -> Result<Entry, LineError>
    ensures { Gives (λ e. e) rule_of result
        (column_entry (kind_seen kind) all.now before.now (word_texts columns.now)) }
{
    match kind {
        LineKind::Dimspec => dimspec_entry(alloc, before, columns),
        LineKind::State => state_entry(alloc, all, before, columns),
        LineKind::Rconfig => rconfig_entry(alloc, before, columns),
        LineKind::Package => package_entry(alloc, before, columns),
        LineKind::Halo => halo_entry(alloc, before, columns),
        LineKind::Period => period_entry(alloc, before, columns),
        LineKind::LeftOut => Err(LineError::Rule(RegistryKind::Unsupported)),
        LineKind::Unknown => Err(LineError::Rule(RegistryKind::UnknownEntry)),
    }
}

/// The entry of a line of these words, or the first rule that it breaks.
///
/// `all` has the letters of the dimspecs of all lines, and `before` the entries of the lines
/// before it.
#[tactic(auto, unfolding(crate::specs::Lines::line_entry))]
pub(crate) fn line_entry(
    alloc: Global,
    all: &Axes,
    before: &Declared,
    words: &[Word],
) -> Result<Entry, LineError>
    ensures { Gives (λ e. e) rule_of result (line_entry all.now before.now (word_texts words.now)) }
{
    let kind = kind_of(words);
    let columns = columns_of(words);
    if columns.len() < least_columns(kind) {
        return Err(LineError::Rule(RegistryKind::Columns));
    }
    column_entry(alloc, kind, all, before, columns)
}
