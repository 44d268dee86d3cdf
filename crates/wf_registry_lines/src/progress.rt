//! What was read so far, and why reading stops.

ghost use Rattle.std.specs.Prelude.{◌≡◌};
ghost use Rattle.wf_registry_lines.specs.Met.{IsStop};
ghost use Rattle.wf_registry_lines.specs.declared.progress.ReadingError.TheVariants.{Memory};

use crate::KeptLine;
use std::alloc::{AllocError, AllocFailed, Global};
use wf_model::{Bytes, RegistryFault, RegistryKind};

/// What was read so far: the lines that count, and how many lines and files there were in all.
#[derive(Drop)]
pub struct Progress {
    pub kept: Vec<KeptLine>,
    pub lines: u32,
    pub files: u32,
}

/// Reading has stopped at a fault, and this was read till then.
#[derive(Drop)]
pub struct Stopped {
    pub progress: Progress,
    pub fault: RegistryFault,
}

/// Why reading ends before the end.
#[derive(Drop)]
pub enum ReadingError {
    Memory,
    Stopped(Stopped),
}

impl From<AllocError> for ReadingError {
    ghost from_gives = { λ _ e. e ≡ Memory };

    fn from(_e: AllocError) -> ReadingError {
        ReadingError::Memory
    }
}

impl<T: Drop> From<AllocFailed<T>> for ReadingError {
    ghost from_gives = { λ _ e. e ≡ Memory };

    fn from(_e: AllocFailed<T>) -> ReadingError {
        ReadingError::Memory
    }
}

/// Reading stops with this fault, or memory runs out.
pub fn stop(
    alloc: Global,
    progress: Progress,
    file: &[u8],
    line: u32,
    kind: RegistryKind,
) -> ReadingError
    ensures { IsStop progress file.now line kind result }
{
    match Vec::from_slice(alloc, file) {
        Ok(file) => {
            let file = Bytes::from_vec(file);
            let fault = RegistryFault { file, line, kind };
            ReadingError::Stopped(Stopped { progress, fault })
        }
        Err(_) => ReadingError::Memory,
    }
}
