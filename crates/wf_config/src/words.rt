//! Words of texts, and parts of words.

ghost use Rattle.std.specs.Prelude.{◌≡◌, ◌==◌, IfOk, map};
ghost use Rattle.std.specs.List.{slice_split};
ghost use Rattle.wf_model.specs.Lines.{is_blank};
ghost use Rattle.wf_model.specs.BuiltIns.{words};

use std::alloc::{AllocError, Global};

/// The words of a text, parted by blanks.
pub(crate) fn words(alloc: Global, text: &[u8]) -> Result<Vec<&[u8]>, AllocError>
    ensures { IfOk result (λ v. map (λ w. w.now) v.items ≡ words text.now) }
{
    text.split(|b| *b == b' ' || *b == b'\t').collect(alloc)
}

/// The parts of a text between the bytes that are this one.
pub(crate) fn parts(alloc: Global, text: &[u8], separator: u8) -> Result<Vec<&[u8]>, AllocError>
    ensures { IfOk result
        (λ v. map (λ w. w.now) v.items ≡ slice_split (λ b. b == separator) text.now) }
{
    text.split(|b| *b == separator).collect(alloc)
}
