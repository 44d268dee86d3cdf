//! The config of a store's Registry and namelist.

ghost use Rattle.std.specs.Prelude.{◌≡◌, Ok, Some, IfOk, IfErr, codes};
ghost use Rattle.wf_model.specs.Reading.{Gives, told_as};
ghost use Rattle.wf_model.specs.Files.{Files};
ghost use Rattle.wf_model.specs.Config.{config_of};
ghost use Rattle.wf_model.specs.Refusals.{config_refusal};
ghost use Rattle.wf_model.specs.FilesRead.{namelist_text, config_read};
ghost use Rattle.wf_setup.specs.Errors.{refusal_of, NoFault, FaultOn, FaultTold};
ghost use Rattle.wf_setup.specs.Asked.{OnlyRead, FaultAmong, config_names};
ghost use Rattle.wf_setup.specs.ReadTexts.{IsBoundConfig};

use crate::error::{SetupError, io_error};
use crate::refusals::{config_refusal, namelist_refusal, numbered};
use crate::registry_files::registry_of_store;
use std::alloc::Global;
use std::str::from_utf8;
use wf_config::{ConfigError, bind};
use wf_io::Store;
use wf_model::{Config, Name, Namelist, Registry};
use wf_namelist::{NamelistError, read_namelist};

#[tactic(auto, using(crate::proofs::Faults::tells_no_fault))]
fn namelist_of_text(alloc: Global, text: &[u8]) -> Result<Namelist, SetupError>
    ensures namelist { Gives (λ n. n) refusal_of result (namelist_text (Some text.now)) }
    ensures never { IfErr result NoFault }
{
    let text = match from_utf8(text) {
        Ok(text) => text,
        Err(_) => return Err(numbered(alloc, 3, b"namelist", 0, b"NotText")),
    };
    match read_namelist(alloc, text) {
        Ok(namelist) => Ok(namelist),
        Err(NamelistError::Memory) => Err(SetupError::Memory),
        Err(NamelistError::Fault(fault)) => Err(namelist_refusal(alloc, fault)),
    }
}

/// The namelist of a store.
#[tactic(auto, using(crate::proofs::Faults::io_free, crate::proofs::Faults::io_on, crate::proofs::Faults::io_told, crate::proofs::Faults::tells_no_fault, crate::proofs::Faults::told_of_none, crate::proofs::Faults::on_of_none, crate::proofs::Faults::fails_free))]
fn namelist_of_store<S: Store>(alloc: Global, store: &mut S) -> Result<Namelist, SetupError>
    ensures namelist { (m : Files) → S.files store.old ≡ Some m
        → Gives (λ n. n) refusal_of result (namelist_text (m (codes "namelist.input"))) }
    ensures only { OnlyRead (S.files store.old) (S.files store.new) (S.faults store.old)
        (S.faults store.new) }
    ensures fault { IfErr result
        (λ e. FaultTold e (S.faults store.old) (S.faults store.new) (S.failed store.new)) }
    ensures on { IfErr result (λ e. FaultOn e (codes "namelist.input")) }
{
    match store.read(alloc, "namelist.input") {
        Ok(None) => Err(numbered(alloc, 3, b"namelist", 0, b"MissingFile")),
        Ok(Some(text)) => namelist_of_text(alloc, &text),
        Err(error) => Err(io_error(alloc, "namelist.input", error)),
    }
}

/// What Registry and namelist say together.
#[tactic(auto, using(crate::proofs::Faults::tells_no_fault))]
fn bound(alloc: Global, registry: &Registry, namelist: &Namelist) -> Result<Config, SetupError>
    ensures given { IfOk result (λ c. config_of registry.now namelist.now ≡ Ok c) }
    ensures config { Gives (λ c. c) refusal_of result
        (told_as config_refusal (config_of registry.now namelist.now)) }
    ensures never { IfErr result NoFault }
{
    match bind(alloc, registry, namelist) {
        Ok(config) => Ok(config),
        Err(ConfigError::Memory) => Err(SetupError::Memory),
        Err(ConfigError::Fault(fault)) => Err(config_refusal(alloc, &fault)),
    }
}

/// The config of a store: its file `Registry` with the includes that it wants, and then
/// `namelist.input`, where names are defined with these values.
///
/// Files are read one after another, and each is judged before the next one is read. A file that an
/// include wants is read when the Registry lacks it, and the Registry is judged again with that
/// file; a name that no store takes is of no file. The order of the tests and the lines of refusals
/// are this project's own.
///
/// # Errors
/// The first refusal: status 2 with the line `registry FILE LINE KIND`, 3 with `namelist LINE KIND`
/// or `config NAME KIND`. Lines count from 1, and 0 stands for a file that is missing or is no
/// UTF-8. Or a fault of the store, which it counted, where nothing was read after; or want of
/// memory. The store's files stay as they were.
pub fn read_config<S: Store>(
    alloc: Global,
    store: &mut S,
    defines: &[(Name, Name)],
) -> Result<Config, SetupError>
    ensures bound { IfOk result (IsBoundConfig defines.now) }
    ensures config { (m : Files) → S.files store.old ≡ Some m
        → Gives (λ c. c) refusal_of result (config_read m defines.now) }
    ensures only { OnlyRead (S.files store.old) (S.files store.new) (S.faults store.old)
        (S.faults store.new) }
    ensures fault { IfErr result
        (λ e. FaultTold e (S.faults store.old) (S.faults store.new) (S.failed store.new)) }
    ensures asked { IfErr result (λ e. (m : Files) → S.files store.old ≡ Some m
        → FaultAmong e (config_names m defines.now)) }
{
    let registry = match registry_of_store(alloc, store, defines) {
        Ok(registry) => registry,
        Err(error) => return Err(error),
    };
    let namelist = match namelist_of_store(alloc, store) {
        Ok(namelist) => namelist,
        Err(error) => return Err(error),
    };
    bound(alloc, &registry, &namelist)
}
