//! Files of the Registry, read from a store.

ghost use Rattle.std.specs.Prelude.{◌≡◌, Some, None, IfOk, IfErr, IsTrue, MatchOption, option_map};
ghost use Rattle.std.specs.Prelude.{false};
ghost use Rattle.std.specs.List.{list_all};
ghost use Rattle.wf_model.specs.Letters.{is_store_name};
ghost use Rattle.wf_model.specs.Files.{Files};
ghost use Rattle.wf_model.specs.FilesRead.{source, wanted};
ghost use Rattle.wf_setup.specs.Asked.{is_store_byte, wanted_source, OnlyRead, FaultOnWanted};
ghost use Rattle.wf_setup.specs.Errors.{refusal_of, FaultOn, FaultTold};

use crate::error::{SetupError, io_error};
use std::alloc::{AllocError, Global};
use std::str::from_utf8;
use wf_io::Store;
use wf_model::{Bytes, RegistryFault, RegistryKind, SourceFile};

fn are_store_bytes(name: &[u8]) -> bool
    ensures { result ≡ list_all is_store_byte name.now }
{
    name.iter().all(|b| {
        b.is_ascii_alphanumeric() || *b == b'_' || *b == b'-' || *b == b'.' || *b == b':'
    })
}

fn is_store_name(name: &[u8]) -> bool
    ensures { result ≡ is_store_name name.now }
{
    0 < name.len() && name.len() <= 128 && are_store_bytes(name)
}

/// The bytes as a name that a store takes.
fn store_name(name: &[u8]) -> Option<&str>
    ensures { MatchOption result (is_store_name name.now ≡ false) (λ s. (s.now ≡ name.now)
        × IsTrue (is_store_name name.now)) }
{
    if !is_store_name(name) {
        return None;
    }
    match from_utf8(name) {
        Ok(name) => Some(name),
        Err(_) => None,
    }
}

fn source(alloc: Global, name: &str, text: Vec<u8>) -> Result<SourceFile, AllocError>
    ensures { IfOk result (λ f. f ≡ source name.now text.items) }
{
    let name = Vec::from_slice(alloc, name.as_bytes())?;
    Ok(SourceFile {
        name: Bytes::from_vec(name),
        text: Bytes::from_vec(text),
    })
}

/// The file of this name, if it is there.
#[tactic(auto, using(crate::proofs::Faults::io_free, crate::proofs::Faults::io_on, crate::proofs::Faults::io_told))]
pub fn read_source<S: Store>(
    alloc: Global,
    store: &mut S,
    name: &str,
) -> Result<Option<SourceFile>, SetupError>
    requires { IsTrue (is_store_name name.now) }
    ensures found { IfOk result (λ o. (m : Files) → S.files store.old ≡ Some m
        → o ≡ option_map (source name.now) (m name.now)) }
    ensures free { IfErr result (λ e. refusal_of e ≡ None) }
    ensures only { OnlyRead (S.files store.old) (S.files store.new) (S.faults store.old)
        (S.faults store.new) }
    ensures fault { IfErr result
        (λ e. FaultTold e (S.faults store.old) (S.faults store.new) (S.failed store.new)) }
    ensures on { IfErr result (λ e. FaultOn e name.now) }
{
    match store.read(alloc, name) {
        Ok(None) => Ok(None),
        Ok(Some(text)) => match source(alloc, name, text) {
            Ok(file) => Ok(Some(file)),
            Err(_) => Err(SetupError::Memory),
        },
        Err(error) => Err(io_error(alloc, name, error)),
    }
}

/// The name that a missing include has.
fn wanted(kind: &RegistryKind) -> Option<&[u8]>
    ensures { option_map (λ b. b.now) result ≡ wanted kind.now }
{
    match kind {
        RegistryKind::MissingInclude(name) => Some(name.as_slice()),
        _ => None,
    }
}

/// The file that an include wants, if it is there. A name that no store takes is of no file, and no
/// store is asked.
pub fn wanted_source<S: Store>(
    alloc: Global,
    store: &mut S,
    fault: &RegistryFault,
) -> Result<Option<SourceFile>, SetupError>
    ensures found { IfOk result (λ o. (m : Files) → S.files store.old ≡ Some m
        → o ≡ wanted_source m fault.now) }
    ensures free { IfErr result (λ e. refusal_of e ≡ None) }
    ensures only { OnlyRead (S.files store.old) (S.files store.new) (S.faults store.old)
        (S.faults store.new) }
    ensures fault { IfErr result
        (λ e. FaultTold e (S.faults store.old) (S.faults store.new) (S.failed store.new)) }
    ensures on { IfErr result (λ e. FaultOnWanted e fault.now) }
{
    let Some(name) = wanted(&fault.kind) else {
        return Ok(None);
    };
    match store_name(name) {
        Some(name) => read_source(alloc, store, name),
        None => Ok(None),
    }
}
