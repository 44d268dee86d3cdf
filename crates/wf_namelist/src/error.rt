//! Why a text has no namelist.

ghost use Rattle.std.specs.Prelude.{◌≡◌};
ghost use Rattle.wf_namelist.specs.NamelistError.{fault_of};
ghost use Rattle.wf_namelist.specs.declared.error.NamelistError.TheVariants.{Fault, Memory};

use std::alloc::{AllocError, AllocFailed};
use thiserror::Error;
use wf_model::NamelistFault;

/// Why a text has no namelist: its first fault, or want of memory.
#[derive(Clone, Copy, Debug, PartialEq, Eq, Error)]
pub enum NamelistError {
    /// What is wrong, and in which line.
    #[error("no namelist: {0:?}")]
    Fault(NamelistFault),
    /// Memory ran out, or a line has no number of 32 bits.
    #[error("out of memory")]
    Memory,
}

impl NamelistError {
    /// The fault of the text; none where memory ran out.
    pub fn fault(&self) -> Option<NamelistFault>
        ensures { result ≡ fault_of self.now }
    {
        match self {
            NamelistError::Fault(fault) => Some(*fault),
            NamelistError::Memory => None,
        }
    }
}

impl From<NamelistFault> for NamelistError {
    ghost from_gives = { λ fault e. e ≡ Fault fault };

    fn from(fault: NamelistFault) -> NamelistError {
        NamelistError::Fault(fault)
    }
}

impl From<AllocError> for NamelistError {
    ghost from_gives = { λ _ e. e ≡ Memory };

    fn from(_e: AllocError) -> NamelistError {
        NamelistError::Memory
    }
}

impl<T: Drop> From<AllocFailed<T>> for NamelistError {
    ghost from_gives = { λ _ e. e ≡ Memory };

    fn from(_e: AllocFailed<T>) -> NamelistError {
        NamelistError::Memory
    }
}
