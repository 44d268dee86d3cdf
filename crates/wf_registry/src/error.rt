//! Why a Registry is not read.

ghost use Rattle.std.specs.Prelude.{◌≡◌};
ghost use Rattle.std.specs.Option.{option_copied};
ghost use Rattle.wf_registry.specs.RegistryErrors.{fault_of, rule_of};
ghost use Rattle.wf_registry.specs.declared.error.LineError.TheVariants as line;
ghost use Rattle.wf_registry.specs.declared.error.RegistryError.TheVariants as registry;

use std::alloc::{AllocError, AllocFailed};
use std::fmt;
use thiserror::Error;
use wf_model::{RegistryFault, RegistryKind};

/// Why a Registry is not read: its first refusal, or want of memory.
#[derive(Drop, Error)]
pub enum RegistryError {
    #[error("out of memory")]
    Memory,
    /// What is wrong, in which file and at which line. Where a file is missing that an include
    /// wants, its name is there.
    #[error("the Registry is refused")]
    Fault(RegistryFault),
}

impl RegistryError {
    /// The refusal; none where memory ran out.
    pub fn fault(&self) -> Option<&RegistryFault>
        ensures { option_copied result ≡ fault_of self.now }
    {
        match self {
            RegistryError::Memory => None,
            RegistryError::Fault(fault) => Some(fault),
        }
    }
}

impl fmt::Debug for RegistryError {
    fn fmt<W: fmt::Write>(&self, f: &mut fmt::Formatter<W>) -> fmt::Result {
        match self {
            RegistryError::Memory => write!(f, "Memory"),
            RegistryError::Fault(fault) => {
                let line = fault.line;
                write!(f, "Fault at line {line}")
            }
        }
    }
}

impl From<AllocError> for RegistryError {
    ghost from_gives = { λ _ e. e ≡ registry.Memory };

    fn from(_e: AllocError) -> RegistryError {
        RegistryError::Memory
    }
}

impl From<RegistryFault> for RegistryError {
    ghost from_gives = { λ fault e. e ≡ registry.Fault fault };

    fn from(fault: RegistryFault) -> RegistryError {
        RegistryError::Fault(fault)
    }
}

/// Why a line has no entry: the first rule that one of its columns breaks, or want of memory.
#[derive(Drop)]
pub(crate) enum LineError {
    Memory,
    Rule(RegistryKind),
}

impl From<AllocError> for LineError {
    ghost from_gives = { λ _ e. e ≡ line.Memory };

    fn from(_e: AllocError) -> LineError {
        LineError::Memory
    }
}

impl From<RegistryKind> for LineError {
    ghost from_gives = { λ kind e. e ≡ line.Rule kind };

    fn from(kind: RegistryKind) -> LineError {
        LineError::Rule(kind)
    }
}
