//! The Registry of a store: the files that its includes want are read one after another.

ghost use Rattle.std.specs.Prelude.{◌≡◌, Some, None, IfOk, IfErr};
ghost use Rattle.wf_model.specs.Reading.{Gives, told_as};
ghost use Rattle.wf_model.specs.KeptLines.{main_file, most_files};
ghost use Rattle.wf_model.specs.Files.{Files};
ghost use Rattle.wf_model.specs.Refusals.{registry_refusal};
ghost use Rattle.wf_model.specs.FilesRead.{main_source, registry_with, registry_read};
ghost use Rattle.wf_setup.specs.Errors.{refusal_of, NoFault, FaultOn, FaultTold};
ghost use Rattle.wf_setup.specs.Asked.{OnlyRead, FaultAmong, FaultWanted, includes_asked};
ghost use Rattle.wf_setup.specs.Asked.{registry_names};
ghost use Rattle.wf_setup.specs.ReadTexts.{IsReadRegistry, IsReadStep};
ghost use Rattle.wf_setup.specs.Steps.{step_of};

use crate::error::SetupError;
use crate::refusals::registry_refusal;
use crate::sources::{read_source, wanted_source};
use std::alloc::Global;
use wf_io::Store;
use wf_model::limits::REGISTRY_FILES;
use wf_model::{Name, Registry, SourceFile};
use wf_registry::{RegistryError, read_registry};

/// The Registry of some files, or the file that it wants.
#[derive(Drop)]
enum Step {
    Read(Registry),
    Wants(SourceFile),
}

/// Judges the files, and asks the store for the file that they want, if it is there.
#[tactic(auto, using(crate::proofs::Faults::tells_no_fault, crate::proofs::Faults::told_of_none, crate::proofs::Faults::wanted_of_none, crate::proofs::Faults::wanted_is, crate::proofs::Faults::fails_free))]
fn next_step<S: Store>(
    alloc: Global,
    store: &mut S,
    defines: &[(Name, Name)],
    files: &[SourceFile],
) -> Result<Step, SetupError>
    ensures step { IfOk result (IsReadStep defines.now) }
    ensures next { (m : Files) → S.files store.old ≡ Some m
        → Gives (λ s. s) refusal_of result (step_of m defines.now files.now) }
    ensures only { OnlyRead (S.files store.old) (S.files store.new) (S.faults store.old)
        (S.faults store.new) }
    ensures fault { IfErr result
        (λ e. FaultTold e (S.faults store.old) (S.faults store.new) (S.failed store.new)) }
    ensures asked { IfErr result (λ e. FaultWanted e files.now defines.now) }
{
    let fault = match read_registry(alloc, files, defines) {
        Ok(registry) => return Ok(Step::Read(registry)),
        Err(RegistryError::Memory) => return Err(SetupError::Memory),
        Err(RegistryError::Fault(fault)) => fault,
    };
    match wanted_source(alloc, store, &fault) {
        Ok(Some(file)) => Ok(Step::Wants(file)),
        Ok(None) => Err(registry_refusal(alloc, &fault)),
        Err(error) => Err(error),
    }
}

/// The Registry of these files alone.
#[tactic(auto, using(crate::proofs::Faults::tells_no_fault))]
fn judged(
    alloc: Global,
    defines: &[(Name, Name)],
    files: &[SourceFile],
) -> Result<Registry, SetupError>
    ensures read { IfOk result (IsReadRegistry defines.now) }
    ensures registry { (m : Files) → Gives (λ r. r) refusal_of result
        (told_as registry_refusal (registry_with 0 m defines.now files.now)) }
    ensures never { IfErr result NoFault }
{
    match read_registry(alloc, files, defines) {
        Ok(registry) => Ok(registry),
        Err(RegistryError::Memory) => Err(SetupError::Memory),
        Err(RegistryError::Fault(fault)) => Err(registry_refusal(alloc, &fault)),
    }
}

/// The Registry of these files and of those that are wanted.
fn registry_with<S: Store>(
    alloc: Global,
    store: &mut S,
    defines: &[(Name, Name)],
    mut files: Vec<SourceFile>,
) -> Result<Registry, SetupError>
    ensures read { IfOk result (IsReadRegistry defines.now) }
    ensures registry { (m : Files) → S.files store.old ≡ Some m → Gives (λ r. r) refusal_of result
        (told_as registry_refusal (registry_with most_files m defines.now files.items)) }
    ensures only { OnlyRead (S.files store.old) (S.files store.new) (S.faults store.old)
        (S.faults store.new) }
    ensures fault { IfErr result
        (λ e. FaultTold e (S.faults store.old) (S.faults store.new) (S.failed store.new)) }
    ensures asked { IfErr result (λ e. (m : Files) → S.files store.old ≡ Some m
        → FaultAmong e (includes_asked most_files m defines.now files.items)) }
{
    for _ in 0..REGISTRY_FILES {
        match next_step(alloc, store, defines, &files) {
            Ok(Step::Read(registry)) => return Ok(registry),
            Ok(Step::Wants(file)) => match files.push(file) {
                Ok(()) => {}
                Err(_) => return Err(SetupError::Memory),
            },
            Err(error) => return Err(error),
        }
    }
    judged(alloc, defines, &files)
}

/// The file `Registry`, if it is there.
fn main_files<S: Store>(alloc: Global, store: &mut S) -> Result<Vec<SourceFile>, SetupError>
    ensures files { IfOk result (λ v. (m : Files) → S.files store.old ≡ Some m
        → v.items ≡ main_source (m main_file)) }
    ensures free { IfErr result (λ e. refusal_of e ≡ None) }
    ensures only { OnlyRead (S.files store.old) (S.files store.new) (S.faults store.old)
        (S.faults store.new) }
    ensures fault { IfErr result
        (λ e. FaultTold e (S.faults store.old) (S.faults store.new) (S.failed store.new)) }
    ensures on { IfErr result (λ e. FaultOn e main_file) }
{
    let found = match read_source(alloc, store, "Registry") {
        Ok(found) => found,
        Err(error) => return Err(error),
    };
    match found {
        None => Ok(Vec::new(alloc)),
        Some(file) => match vec![in alloc; file] {
            Ok(files) => Ok(files),
            Err(_) => Err(SetupError::Memory),
        },
    }
}

/// The Registry of a store.
#[tactic(auto, using(crate::proofs::Faults::fails_free, crate::proofs::Faults::told_later))]
pub fn registry_of_store<S: Store>(
    alloc: Global,
    store: &mut S,
    defines: &[(Name, Name)],
) -> Result<Registry, SetupError>
    ensures read { IfOk result (IsReadRegistry defines.now) }
    ensures registry { (m : Files) → S.files store.old ≡ Some m
        → Gives (λ r. r) refusal_of result (registry_read m defines.now) }
    ensures only { OnlyRead (S.files store.old) (S.files store.new) (S.faults store.old)
        (S.faults store.new) }
    ensures fault { IfErr result
        (λ e. FaultTold e (S.faults store.old) (S.faults store.new) (S.failed store.new)) }
    ensures asked { IfErr result (λ e. (m : Files) → S.files store.old ≡ Some m
        → FaultAmong e (registry_names m defines.now)) }
{
    match main_files(alloc, store) {
        Ok(files) => registry_with(alloc, store, defines, files),
        Err(error) => Err(error),
    }
}
