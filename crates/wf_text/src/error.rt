//! Why a text has no lines.

ghost use Rattle.std.specs.Prelude.{◌≡◌, Some};
ghost use Rattle.wf_text.specs.TextError.{fault_of};
ghost use Rattle.wf_text.specs.declared.error.TextError.TheVariants.{Memory};

use std::alloc::{AllocError, AllocFailed};
use thiserror::Error;
use wf_model::TextFault;

/// Why a text has no lines: its first fault, at the physical line where it stands, or want
/// of memory.
#[derive(Debug, Drop, Error)]
pub enum TextError {
    /// A `"` that begins a word and has no end on its line, and the column of that `"`.
    #[error("line {line}, column {column}: a quoted word without an end")]
    UnclosedQuote { line: u32, column: u32 },
    /// A `\` that joins the last line of the text with a line that is not there.
    #[error("line {line}: a continued line at the end of the text")]
    DanglingBackslash { line: u32 },
    /// Memory ran out, or a line or a column has no number of 32 bits.
    #[error("out of memory")]
    Memory,
}

impl TextError {
    /// The fault of the text; none where memory ran out.
    pub fn fault(&self) -> Option<TextFault>
        ensures { result ≡ fault_of self.now }
    {
        match self {
            TextError::UnclosedQuote { line, column } => Some(TextFault::UnclosedQuote {
                line: *line,
                column: *column,
            }),
            TextError::DanglingBackslash { line } => {
                Some(TextFault::DanglingBackslash { line: *line })
            }
            TextError::Memory => None,
        }
    }
}

impl From<TextFault> for TextError {
    ghost from_gives = { λ fault e. fault_of e ≡ Some fault };

    fn from(fault: TextFault) -> TextError {
        match fault {
            TextFault::UnclosedQuote { line, column } => {
                TextError::UnclosedQuote { line, column }
            }
            TextFault::DanglingBackslash { line } => TextError::DanglingBackslash { line },
        }
    }
}

impl From<AllocError> for TextError {
    ghost from_gives = { λ _ e. e ≡ Memory };

    fn from(_e: AllocError) -> TextError {
        TextError::Memory
    }
}

impl<T: Drop> From<AllocFailed<T>> for TextError {
    ghost from_gives = { λ _ e. e ≡ Memory };

    fn from(_e: AllocFailed<T>) -> TextError {
        TextError::Memory
    }
}
