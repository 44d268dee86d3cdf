//! Halo and period lines.

ghost use Rattle.std.specs.Prelude.{◌≡◌, ◌∷◌, IfNone, IsTrue, flat_map};
ghost use Rattle.wf_model.specs.Groups.{group_faults, groups_of};
ghost use Rattle.wf_model.specs.Judging.{exchange_faults};
ghost use Rattle.wf_model.specs.Letters.{is_name};
ghost use Rattle.wf_model.specs.Reading.{fault_if, fault_unless, first_fault, Gives};
ghost use Rattle.wf_model.specs.declared.registry.RegistryKind.TheVariants as kinds;
ghost use Rattle.wf_registry_columns.specs.Heads.{head_rule};
ghost use Rattle.wf_registry_columns.specs.Words.{word_texts};
ghost use Rattle.wf_registry.specs.Lines.{halo_entry, period_entry};
ghost use Rattle.wf_registry.specs.RegistryErrors.{rule_of};

use crate::declared::Declared;
use crate::error::LineError;
use std::alloc::Global;
use wf_model::{Bytes, Entry, Name, RegistryKind, Word};
use wf_registry_columns::{Head, column, groups_fault, joined_groups};
use wf_text::lower;

/// What is wrong in a name, of which it is known whether it is taken, and in groups with such
/// a head.
fn exchange_fault(name: &[u8], is_taken: bool, groups: &[u8], head: Head) -> Option<RegistryKind>
    ensures fault { result ≡ first_fault
        (fault_unless (is_name name.now) kinds.Columns ∷ fault_if is_taken kinds.Duplicate
        ∷ flat_map (group_faults (head_rule head)) (groups_of groups.now)) }
    ensures name { IfNone result (IsTrue (is_name name.now)) }
{
    if !Name::is_name(name) {
        return Some(RegistryKind::Columns);
    }
    if is_taken {
        return Some(RegistryKind::Duplicate);
    }
    groups_fault(groups, head)
}

/// The entry of a halo with these columns.
#[tactic(auto, using(crate::proofs::NamesInLower::name_in_lower))]
pub(crate) fn halo_entry(
    alloc: Global,
    before: &Declared,
    columns: &[Word],
) -> Result<Entry, LineError>
    ensures { Gives (λ e. e) rule_of result (halo_entry before.now (word_texts columns.now)) }
{
    let name = lower(alloc, column(columns, 0))?;
    let groups = joined_groups(alloc, columns)?;
    let is_taken = before.has_halo(&name);
    if let Some(kind) = exchange_fault(column(columns, 0), is_taken, &groups, Head::Points) {
        return Err(LineError::Rule(kind));
    }
    Ok(Entry::Halo {
        name: Name::from_vec(name),
        groups: Bytes::from_vec(groups),
    })
}

/// The entry of a period with these columns.
#[tactic(auto, using(crate::proofs::NamesInLower::name_in_lower))]
pub(crate) fn period_entry(
    alloc: Global,
    before: &Declared,
    columns: &[Word],
) -> Result<Entry, LineError>
    ensures { Gives (λ e. e) rule_of result (period_entry before.now (word_texts columns.now)) }
{
    let name = lower(alloc, column(columns, 0))?;
    let groups = joined_groups(alloc, columns)?;
    let is_taken = before.has_period(&name);
    if let Some(kind) = exchange_fault(column(columns, 0), is_taken, &groups, Head::Width) {
        return Err(LineError::Rule(kind));
    }
    Ok(Entry::Period {
        name: Name::from_vec(name),
        groups: Bytes::from_vec(groups),
    })
}
