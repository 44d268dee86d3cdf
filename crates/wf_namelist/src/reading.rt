//! What stands at a place of the tokens.
//!
//! A place is an index from 0. Past the last token stands the end of the text.

ghost use Rattle.std.specs.Prelude.{◌≡◌, Some, drop};
ghost use Rattle.std.specs.Option.{option_copied};
ghost use Rattle.wf_model.specs.Namelist.{here, is_comma, is_equals, is_outside, is_parenthesis};
ghost use Rattle.wf_model.specs.Namelist.{is_parted, is_slash, rest};
ghost use Rattle.wf_namelist.specs.NamelistError.{fault_of};
ghost use Rattle.wf_namelist.specs.Places.{refusal, sort_of};

use crate::error::NamelistError;
use wf_model::{NamelistFault, NamelistKind, NamelistToken, Sort};

/// What a token is; none past the last one.
pub(crate) fn sort_at(tokens: &[NamelistToken], at: usize) -> Option<&Sort>
    ensures { sort_of (option_copied result) ≡ (here (drop at tokens.now)).sort }
{
    match tokens.get(at) {
        Some(token) => Some(&token.sort),
        None => None,
    }
}

/// Whether something parts the token from the one before.
pub(crate) fn is_apart(tokens: &[NamelistToken], at: usize) -> bool
    ensures { result ≡ (here (drop at tokens.now)).apart }
{
    match tokens.get(at) {
        Some(token) => token.apart,
        None => true,
    }
}

/// The line of a token; past the last one 0.
fn line_at(tokens: &[NamelistToken], at: usize) -> u32
    ensures { result ≡ (here (drop at tokens.now)).line }
{
    match tokens.get(at) {
        Some(token) => token.line,
        None => 0,
    }
}

/// The place behind a token.
#[tactic(auto, using(crate::proofs::TokenPlaces::rest_at))]
pub(crate) fn after(tokens: &[NamelistToken], at: usize) -> usize
    ensures { drop result tokens.now ≡ rest (drop at tokens.now) }
{
    if at < tokens.len() { at + 1 } else { at }
}

/// The refusal of what stands here.
pub(crate) fn refused(tokens: &[NamelistToken], at: usize, kind: NamelistKind) -> NamelistError
    ensures { fault_of result ≡ Some (refusal (drop at tokens.now) kind) }
{
    let line = line_at(tokens, at);
    NamelistError::Fault(NamelistFault { line, kind })
}

pub(crate) fn is_slash(tokens: &[NamelistToken], at: usize) -> bool
    ensures { result ≡ is_slash (here (drop at tokens.now)).sort }
{
    matches!(sort_at(tokens, at), Some(Sort::Slash))
}

pub(crate) fn is_comma(tokens: &[NamelistToken], at: usize) -> bool
    ensures { result ≡ is_comma (here (drop at tokens.now)).sort }
{
    matches!(sort_at(tokens, at), Some(Sort::Comma))
}

pub(crate) fn is_equals(tokens: &[NamelistToken], at: usize) -> bool
    ensures { result ≡ is_equals (here (drop at tokens.now)).sort }
{
    matches!(sort_at(tokens, at), Some(Sort::Equals))
}

pub(crate) fn is_parenthesis(tokens: &[NamelistToken], at: usize) -> bool
    ensures { result ≡ is_parenthesis (here (drop at tokens.now)).sort }
{
    matches!(sort_at(tokens, at), Some(Sort::Parenthesis))
}

/// What leaves a group open: the end of the text, or another `&`.
pub(crate) fn is_outside(tokens: &[NamelistToken], at: usize) -> bool
    ensures { result ≡ is_outside (here (drop at tokens.now)).sort }
{
    matches!(
        sort_at(tokens, at),
        None | Some(Sort::EndOfText | Sort::Ampersand)
    )
}

/// Whether something parts a value before this place from what stands here.
pub(crate) fn is_parted(tokens: &[NamelistToken], at: usize) -> bool
    ensures { result ≡ is_parted (drop at tokens.now) }
{
    is_apart(tokens, at) || is_slash(tokens, at) || is_comma(tokens, at) || is_outside(tokens, at)
}
