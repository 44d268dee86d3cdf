//! The Registry of a run.

ghost use Rattle.std.specs.Prelude.{◌≡◌, ◌<◌, IfOk, length, slice_index_or};
ghost use Rattle.std.specs.List.{All};
ghost use Rattle.wf_model.specs.declared.registry.RegistryKind.TheVariants.{UnknownName};
ghost use Rattle.wf_model.specs.Reading.{Gives};
ghost use Rattle.wf_model.specs.Registry.{fault_at, registry_of};
ghost use Rattle.wf_registry_lines.specs.Kept.{IsThere, kept_in};
ghost use Rattle.wf_registry_lines.specs.declared.KeptLine.{KeptLine};
ghost use Rattle.wf_registry.specs.RegistryErrors.{fault_of};

use crate::axes::axes_of;
use crate::error::RegistryError;
use crate::judging::{fault_at, lines_judged};
use crate::unknown::unknown_at;
use std::alloc::{AllocError, Global};
use wf_model::{List, Name, Registry, RegistryFault, RegistryKind, SourceFile};
use wf_registry_lines::{KeptLine, KeptLines, kept_lines};

/// That the line at this place uses a name that nothing declares.
fn unknown_name(
    alloc: Global,
    files: &[SourceFile],
    lines: &[KeptLine],
    at: usize,
) -> Result<RegistryFault, AllocError>
    requires place { at < length lines.now }
    requires there { All (IsThere files.now) lines.now }
    ensures { IfOk result (λ f. (d : KeptLine)
        → f ≡ fault_at (kept_in files.now (slice_index_or lines.now at d)) UnknownName) }
{
    fault_at(alloc, files, &lines[at], RegistryKind::UnknownName)
}

/// The Registry of these files, read from the file named `Registry`, where names are defined with
/// these values.
///
/// Its entries are those of all lines that count, in reading order. A refusal is the first in
/// reading order, and names its file and line; a name that nothing declares is refused only where
/// nothing else is. Kinds and columns of entries are those of WRF's Registry; which of their forms
/// are supported, and the limits, are this project's own.
pub fn read_registry(
    alloc: Global,
    files: &[SourceFile],
    defines: &[(Name, Name)],
) -> Result<Registry, RegistryError>
    ensures { Gives (λ r. r) fault_of result (registry_of files.now defines.now) }
{
    let KeptLines { lines, fault } = kept_lines(alloc, files, defines)?;
    let all = axes_of(alloc, files, &lines)?;
    let declared = lines_judged(alloc, files, &all, &lines)?;
    if let Some(fault) = fault {
        return Err(RegistryError::Fault(fault));
    }
    match unknown_at(alloc, &declared)? {
        Some(at) => {
            let fault = unknown_name(alloc, files, &lines, at)?;
            Err(RegistryError::Fault(fault))
        }
        None => Ok(Registry {
            entries: List::from_vec(declared.into_entries()),
        }),
    }
}
