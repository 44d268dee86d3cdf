//! Why a text is no stencil table, and why a line of it holds no item.

ghost use Rattle.std.specs.Prelude.{◌≡◌};
ghost use Rattle.wf_table.specs.Faults.{fault_of};
ghost use Rattle.wf_table.specs.declared.error.LineError.TheVariants as line_errors;
ghost use Rattle.wf_table.specs.declared.error.TableError.TheVariants as errors;

use std::alloc::{AllocError, AllocFailed};
use thiserror::Error;
use wf_model::{TableFault, TableKind};

/// Why a text is no stencil table: its first refusal from left to right, or want of memory.
#[derive(Clone, Copy, Debug, PartialEq, Eq, Error)]
pub enum TableError {
    /// Memory ran out, or a line, a column or the number of a level has no number of 32 bits.
    #[error("out of memory")]
    Memory,
    #[error("no stencil table: {0:?}")]
    Fault(TableFault),
}

impl TableError {
    /// The refusal; none where memory ran out.
    pub fn fault(&self) -> Option<TableFault>
        ensures { result ≡ fault_of self.now }
    {
        match self {
            TableError::Memory => None,
            TableError::Fault(fault) => Some(*fault),
        }
    }
}

impl From<TableFault> for TableError {
    ghost from_gives = { λ fault e. e ≡ errors.Fault fault };

    fn from(fault: TableFault) -> TableError {
        TableError::Fault(fault)
    }
}

impl From<AllocError> for TableError {
    ghost from_gives = { λ _ e. e ≡ errors.Memory };

    fn from(_e: AllocError) -> TableError {
        TableError::Memory
    }
}

impl<T: Drop> From<AllocFailed<T>> for TableError {
    ghost from_gives = { λ _ e. e ≡ errors.Memory };

    fn from(_e: AllocFailed<T>) -> TableError {
        TableError::Memory
    }
}

/// Why a line holds no item: the kind of its first refusal, or want of memory.
#[derive(Clone, Copy, Debug, PartialEq, Eq)]
pub(crate) enum LineError {
    Memory,
    Kind(TableKind),
}

impl From<TableKind> for LineError {
    ghost from_gives = { λ kind e. e ≡ line_errors.Kind kind };

    fn from(kind: TableKind) -> LineError {
        LineError::Kind(kind)
    }
}

impl From<AllocError> for LineError {
    ghost from_gives = { λ _ e. e ≡ line_errors.Memory };

    fn from(_e: AllocError) -> LineError {
        LineError::Memory
    }
}

impl<T: Drop> From<AllocFailed<T>> for LineError {
    ghost from_gives = { λ _ e. e ≡ line_errors.Memory };

    fn from(_e: AllocFailed<T>) -> LineError {
        LineError::Memory
    }
}
