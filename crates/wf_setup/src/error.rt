//! Why a run is not set up.

ghost use Rattle.std.specs.Prelude.{◌≡◌};
ghost use Rattle.wf_setup.specs.Errors.{IsIoError};
ghost use Rattle.wf_setup.specs.declared.error.SetupError.TheVariants as setup;

use std::alloc::{AllocError, AllocFailed, Global};
use wf_io::IoError;
use wf_model::Bytes;

/// A refusal: the status that a command ends with, and the one line that it prints, which ends with
/// a line feed. A name in it has the bytes that a text has, which need not be UTF-8.
#[derive(Drop)]
pub struct Refused {
    pub status: u8,
    pub line: Bytes,
}

/// Why a run is not set up.
#[derive(Drop)]
pub enum SetupError {
    /// What was read is refused.
    Refused(Refused),
    /// A call of the store on the file of this name failed, which the store counted. It was the
    /// last call.
    Store(Bytes),
    Memory,
}

impl From<AllocError> for SetupError {
    ghost from_gives = { λ _ e. e ≡ setup.Memory };

    fn from(_e: AllocError) -> SetupError {
        SetupError::Memory
    }
}

impl<T: Drop> From<AllocFailed<T>> for SetupError {
    ghost from_gives = { λ _ e. e ≡ setup.Memory };

    fn from(_e: AllocFailed<T>) -> SetupError {
        SetupError::Memory
    }
}

/// The error of a call of the store on the file of this name.
pub(crate) fn io_error(alloc: Global, name: &str, error: IoError) -> SetupError
    ensures { IsIoError error name.now result }
{
    if error == IoError::Memory {
        return SetupError::Memory;
    }
    match Vec::from_slice(alloc, name.as_bytes()) {
        Ok(name) => SetupError::Store(Bytes::from_vec(name)),
        Err(_) => SetupError::Memory,
    }
}
