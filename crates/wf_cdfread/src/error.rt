//! Why bytes have no header, and why a file has no values of a name.

ghost use Rattle.std.specs.Prelude.{◌≡◌};
ghost use Rattle.wf_cdfread.specs.declared.error.HeaderError.TheVariants as header;
ghost use Rattle.wf_cdfread.specs.declared.error.ValuesError.TheVariants as values;

use std::alloc::{AllocError, AllocFailed};
use thiserror::Error;
use wf_model::{CdfError, SlabError};

/// Why no header was read: the first error in reading order, or want of memory.
#[derive(Clone, Copy, Debug, PartialEq, Eq, Error)]
pub enum HeaderError {
    #[error("out of memory")]
    Memory,
    #[error("no netCDF header: {0:?}")]
    Fault(CdfError),
}

impl From<AllocError> for HeaderError {
    ghost from_gives = { λ _ e. e ≡ header.Memory };

    fn from(_e: AllocError) -> HeaderError {
        HeaderError::Memory
    }
}

impl<T: Drop> From<AllocFailed<T>> for HeaderError {
    ghost from_gives = { λ _ e. e ≡ header.Memory };

    fn from(_e: AllocFailed<T>) -> HeaderError {
        HeaderError::Memory
    }
}

/// Why no values were read: why the file has none of that name, or want of memory.
#[derive(Clone, Copy, Debug, PartialEq, Eq, Error)]
pub enum ValuesError {
    #[error("out of memory")]
    Memory,
    #[error("no such values: {0:?}")]
    Fault(SlabError),
}

impl From<AllocError> for ValuesError {
    ghost from_gives = { λ _ e. e ≡ values.Memory };

    fn from(_e: AllocError) -> ValuesError {
        ValuesError::Memory
    }
}

impl From<SlabError> for ValuesError {
    ghost from_gives = { λ fault e. e ≡ values.Fault fault };

    fn from(fault: SlabError) -> ValuesError {
        ValuesError::Fault(fault)
    }
}
