//! Laws of the netCDF classic format: what is written is read again.
#![tactic(auto)]

ghost use Rattle.wf_cdf_laws.specs.ReadAgain.{HeadersAreReadAgain};
ghost use Rattle.wf_cdf_laws.specs.SlabsAgain.{SlabsAreReadAgain, TextsAreReadAgain};
ghost use Rattle.wf_cdf_laws.specs.FilesAgain.{FileHeadersAreReadAgain, FramesAreReadAgain};

/// The bytes of a sound header are read to the same header, whatever follows them.
pub fn headers_are_read_again()
    ensures { HeadersAreReadAgain }
{}

/// Numbers that are written at the place of their slab are read again, whatever stands before and
/// behind them.
pub fn slabs_are_read_again()
    ensures { SlabsAreReadAgain }
{}

/// A text that is written at the place of its slab is read again, whatever stands before and
/// behind it.
pub fn texts_are_read_again()
    ensures { TextsAreReadAgain }
{}

/// The header of a file of a stream is read again, whatever follows it.
pub fn file_headers_are_read_again()
    ensures { FileHeadersAreReadAgain }
{}

/// So is each of its frames, which stands behind the header and the frames before it, whatever
/// follows it.
pub fn frames_are_read_again()
    ensures { FramesAreReadAgain }
{}
