use std::error::Error;
use std::fmt;

/// Why there is no text of a moment.
#[derive(Debug, Clone, Copy, PartialEq, Eq)]
pub enum StampError {
    /// The moment lies past the last second of the year 9999, and a text has four digits for
    /// its year.
    PastYear9999,
}

impl fmt::Display for StampError {
    fn fmt<W: fmt::Write>(&self, f: &mut fmt::Formatter<W>) -> fmt::Result {
        match self {
            StampError::PastYear9999 => write!(f, "the moment is past the year 9999"),
        }
    }
}

impl Error for StampError {}
