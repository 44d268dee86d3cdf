ghost use Rattle.std.specs.Prelude.{◌≡◌};
ghost use Rattle.wf_words.specs.declared.error.WordsError.TheVariants.{Memory};

use std::alloc::{AllocError, AllocFailed};
use thiserror::Error;

/// Why words ask for nothing: they are not the command's, or memory ran out.
#[derive(Debug, Drop, Error)]
pub enum WordsError {
    #[error("the words are none of this command")]
    Usage,
    #[error("out of memory")]
    Memory,
}

impl From<AllocError> for WordsError {
    ghost from_gives = { λ _ e. e ≡ Memory };

    fn from(_e: AllocError) -> WordsError {
        WordsError::Memory
    }
}

impl<T: Drop> From<AllocFailed<T>> for WordsError {
    ghost from_gives = { λ _ e. e ≡ Memory };

    fn from(_e: AllocFailed<T>) -> WordsError {
        WordsError::Memory
    }
}
