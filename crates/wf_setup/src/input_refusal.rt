//! The refusals of input files.

ghost use Rattle.std.specs.Prelude.{◌≡◌, ◌∷◌, IfOk, codes};
ghost use Rattle.wf_model.specs.Refusals.{line, cdf_words, input_words, input_refusal};
ghost use Rattle.wf_setup.specs.Errors.{Tells};
ghost use Rattle.wf_setup.specs.Places.{words_placed};

use crate::error::{Refused, SetupError};
use crate::line::{line, place};
use std::alloc::{AllocError, Global};
use wf_model::{Bytes, CdfError, InputFault, InputKind};

fn cdf_word(error: CdfError) -> (&'static [u8], Option<u64>)
    ensures { cdf_words error ≡ words_placed result.0.now result.1 }
{
    match error {
        CdfError::Truncated { at } => (b"Truncated", Some(at)),
        CdfError::NotCdf => (b"NotCdf", None),
        CdfError::Version => (b"Version", None),
        CdfError::Streaming => (b"Streaming", None),
        CdfError::BadTag { at } => (b"BadTag", Some(at)),
        CdfError::Overlong { at } => (b"Overlong", Some(at)),
        CdfError::BadType { at } => (b"BadType", Some(at)),
        CdfError::BadDim { at } => (b"BadDim", Some(at)),
    }
}

/// A kind's word, and the place of a byte where it has one, counted from 0.
fn input_word(kind: InputKind) -> (&'static [u8], Option<u64>)
    ensures { input_words kind ≡ words_placed result.0.now result.1 }
{
    match kind {
        InputKind::Missing => (b"Missing", None),
        InputKind::Cdf(error) => cdf_word(error),
        InputKind::NoVariable => (b"NoVariable", None),
        InputKind::WrongType => (b"WrongType", None),
        InputKind::WrongShape => (b"WrongShape", None),
        InputKind::Truncated { at } => (b"Truncated", Some(at)),
        InputKind::WrongTime => (b"WrongTime", None),
        InputKind::WrongAttribute => (b"WrongAttribute", None),
    }
}

fn input_line(alloc: Global, file: &[u8], kind: &[u8], at: Option<u64>) -> Result<Bytes, AllocError>
    ensures { IfOk result (λ b. b ≡ line (codes "input" ∷ file.now ∷ words_placed kind.now at)) }
{
    match at {
        None => line(alloc, b"input", &[file, kind]),
        Some(at) => {
            let at = place(alloc, at)?;
            let words = [file, kind, b"at".as_slice(), at.as_bytes()];
            line(alloc, b"input", &words)
        }
    }
}

/// `input FILE KIND`, with ` at N` behind where the kind has a place, status 6.
pub fn input_refusal(alloc: Global, fault: &InputFault) -> SetupError
    ensures { Tells result (input_refusal fault.now) }
{
    let (kind, at) = input_word(fault.kind);
    match input_line(alloc, fault.file.as_slice(), kind, at) {
        Ok(line) => SetupError::Refused(Refused { status: 6, line }),
        Err(_) => SetupError::Memory,
    }
}
