use std::error::Error;
use std::fmt;

/// That a file would be longer than its version allows: its length in bytes, or 2 to the 128 less
/// one where it is more than that.
#[derive(Debug, Clone, Copy, PartialEq, Eq)]
pub struct TooLong {
    pub bytes: u128,
}

impl fmt::Display for TooLong {
    fn fmt<W: fmt::Write>(&self, f: &mut fmt::Formatter<W>) -> fmt::Result {
        let bytes = self.bytes;
        write!(f, "{bytes} bytes are too many for a file of its version")
    }
}

impl Error for TooLong {}
