//! The refusals of the texts that a run is set up from: their statuses and lines.

ghost use Rattle.std.specs.Prelude.{◌≡◌, [], ◌∷◌, IfOk, codes, decimal};
ghost use Rattle.wf_model.specs.Refusals.{line, registry_word, namelist_word, table_word};
ghost use Rattle.wf_model.specs.Refusals.{config_words, numbered, registry_refusal};
ghost use Rattle.wf_model.specs.Refusals.{namelist_refusal, config_refusal, table_refusal};
ghost use Rattle.wf_setup.specs.Errors.{Tells};

use crate::error::{Refused, SetupError};
use crate::line::{line, number};
use std::alloc::{AllocError, Global};
use wf_model::{
    Bytes, ConfigFault, NamelistFault, NamelistKind, RegistryFault, RegistryKind, TableFault,
    TableKind,
};

fn registry_word(kind: &RegistryKind) -> &'static [u8]
    ensures { result.now ≡ registry_word kind.now }
{
    match kind {
        RegistryKind::NotText => b"NotText",
        RegistryKind::BadText => b"BadText",
        RegistryKind::MissingFile => b"MissingFile",
        RegistryKind::MissingInclude(_) => b"MissingInclude",
        RegistryKind::IncludeLoop => b"IncludeLoop",
        RegistryKind::TooLong => b"TooLong",
        RegistryKind::UnclosedIf => b"UnclosedIf",
        RegistryKind::StrayEndif => b"StrayEndif",
        RegistryKind::UnknownEntry => b"UnknownEntry",
        RegistryKind::Unsupported => b"Unsupported",
        RegistryKind::Columns => b"Columns",
        RegistryKind::BadNumber => b"BadNumber",
        RegistryKind::BadPoints => b"BadPoints",
        RegistryKind::Duplicate => b"Duplicate",
        RegistryKind::UnknownName => b"UnknownName",
    }
}

fn namelist_word(kind: NamelistKind) -> &'static [u8]
    ensures { result.now ≡ namelist_word kind }
{
    match kind {
        NamelistKind::NoGroup => b"NoGroup",
        NamelistKind::UnclosedGroup => b"UnclosedGroup",
        NamelistKind::UnclosedText => b"UnclosedText",
        NamelistKind::BadValue => b"BadValue",
        NamelistKind::NullValue => b"NullValue",
        NamelistKind::Subscript => b"Subscript",
    }
}

fn table_word(kind: TableKind) -> &'static [u8]
    ensures { result.now ≡ table_word kind }
{
    match kind {
        TableKind::NotText => b"NotText",
        TableKind::BadText => b"BadText",
        TableKind::Syntax { column: _ } => b"Syntax",
        TableKind::UnknownField => b"UnknownField",
        TableKind::UnknownName => b"UnknownName",
        TableKind::UnknownHook => b"UnknownHook",
        TableKind::Arity => b"Arity",
        TableKind::ZeroDivisor => b"ZeroDivisor",
        TableKind::NotTwoLevels => b"NotTwoLevels",
        TableKind::TooDeep => b"TooDeep",
        TableKind::RepeatedPhase => b"RepeatedPhase",
        TableKind::TooLong => b"TooLong",
    }
}

/// The name that a config's fault is about, and its kind.
fn config_words(fault: &ConfigFault) -> (&[u8], &'static [u8])
    ensures { config_words fault.now ≡ result.0.now ∷ result.1.now ∷ [] }
{
    match fault {
        ConfigFault::WrongType { name } => (name.as_slice(), b"WrongType"),
        ConfigFault::UnknownItem { name } => (name.as_slice(), b"UnknownItem"),
        ConfigFault::TooMany { name } => (name.as_slice(), b"TooMany"),
        ConfigFault::OutOfRange { name, value: _ } => (name.as_slice(), b"OutOfRange"),
        ConfigFault::FloatState { field } => (field.as_slice(), b"FloatState"),
    }
}

fn refused(status: u8, line: Bytes) -> SetupError
    ensures { Tells result (record { status = status; line = line }) }
{
    SetupError::Refused(Refused { status, line })
}

fn registry_line(alloc: Global, file: &[u8], at: u32, kind: &[u8]) -> Result<Bytes, AllocError>
    ensures { IfOk result
        (λ b. b ≡ line (codes "registry" ∷ file.now ∷ decimal at ∷ kind.now ∷ [])) }
{
    let number = number(alloc, at)?;
    line(alloc, b"registry", &[file, number.as_bytes(), kind])
}

/// `registry FILE LINE KIND`, status 2.
pub fn registry_refusal(alloc: Global, fault: &RegistryFault) -> SetupError
    ensures { Tells result (registry_refusal fault.now) }
{
    let kind = registry_word(&fault.kind);
    match registry_line(alloc, fault.file.as_slice(), fault.line, kind) {
        Ok(line) => refused(2, line),
        Err(_) => SetupError::Memory,
    }
}

fn numbered_line(alloc: Global, what: &[u8], at: u32, kind: &[u8]) -> Result<Bytes, AllocError>
    ensures { IfOk result (λ b. b ≡ line (what.now ∷ decimal at ∷ kind.now ∷ [])) }
{
    let number = number(alloc, at)?;
    line(alloc, what, &[number.as_bytes(), kind])
}

/// A text's name, the number of a line and a kind.
pub fn numbered(alloc: Global, status: u8, what: &[u8], at: u32, kind: &[u8]) -> SetupError
    ensures { Tells result (numbered status what.now at kind.now) }
{
    match numbered_line(alloc, what, at, kind) {
        Ok(line) => refused(status, line),
        Err(_) => SetupError::Memory,
    }
}

/// `namelist LINE KIND`, status 3.
pub fn namelist_refusal(alloc: Global, fault: NamelistFault) -> SetupError
    ensures { Tells result (namelist_refusal fault) }
{
    numbered(alloc, 3, b"namelist", fault.line, namelist_word(fault.kind))
}

fn config_line(alloc: Global, name: &[u8], kind: &[u8]) -> Result<Bytes, AllocError>
    ensures { IfOk result (λ b. b ≡ line (codes "config" ∷ name.now ∷ kind.now ∷ [])) }
{
    line(alloc, b"config", &[name, kind])
}

/// `config NAME KIND`, status 3.
pub fn config_refusal(alloc: Global, fault: &ConfigFault) -> SetupError
    ensures { Tells result (config_refusal fault.now) }
{
    let (name, kind) = config_words(fault);
    match config_line(alloc, name, kind) {
        Ok(line) => refused(3, line),
        Err(_) => SetupError::Memory,
    }
}

/// `table LINE KIND`, status 4.
pub fn table_refusal(alloc: Global, fault: TableFault) -> SetupError
    ensures { Tells result (table_refusal fault) }
{
    numbered(alloc, 4, b"table", fault.line, table_word(fault.kind))
}
