//! The conditions of ifdefs.

ghost use Rattle.std.specs.Prelude.{◌≡◌, ◌+◌, ◌<◌, ◌≤◌, ◌^◌, IfOk, IfSome, Some, length, position};
ghost use Rattle.std.specs.List.{after_first, before_first};
ghost use Rattle.wf_model.specs.KeptLines.{is_equals};
ghost use Rattle.wf_registry_lines.specs.Conditions.{condition_kind, condition_of, deeper_kind};
ghost use Rattle.wf_registry_lines.specs.Conditions.{is_defined, shallower_kind};

use crate::kind::{equal_ignoring_case, first_column};
use wf_model::{Line, Name, RegistryKind};

/// In how many ifdefs a line stands that keep their lines, and in how many from the first one on
/// that drops them.
#[derive(Clone, Copy)]
pub struct Conditions {
    pub keeping: usize,
    pub dropping: usize,
}

fn equals_at(word: &[u8]) -> Option<usize>
    ensures place { result ≡ position is_equals word.now }
    ensures bound { IfSome result (λ k. k < length word.now) }
{
    word.iter().position(|b| *b == b'=')
}

/// The bytes before and after the first `=`.
fn parted(word: &[u8]) -> (&[u8], &[u8])
    ensures before { result.0.now ≡ before_first is_equals word.now }
    ensures after { result.1.now ≡ after_first is_equals word.now }
{
    match equals_at(word) {
        None => (word, &word[word.len()..]),
        Some(place) => (&word[..place], &word[place + 1..]),
    }
}

fn is_defined(defines: &[(Name, Name)], name: &[u8], value: &[u8]) -> bool
    ensures { result ≡ is_defined defines.now name.now value.now }
{
    defines.iter().any(|(known, has)| {
        equal_ignoring_case(known.as_slice(), name) && has.as_slice() == value
    })
}

/// Whether a word is `NAME=VALUE` at all, and if so whether the name is defined with that value.
fn condition(defines: &[(Name, Name)], word: &[u8]) -> Option<bool>
    ensures { result ≡ condition_of defines.now word.now }
{
    let (name, value) = parted(word);
    if Name::is_name(name) && Name::is_name(value) {
        Some(is_defined(defines, name, value))
    } else {
        None
    }
}

/// After an ifdef in lines that are kept.
fn kept_or_dropped(
    defines: &[(Name, Name)],
    word: &[u8],
    within: Conditions,
) -> Result<Conditions, RegistryKind>
    requires { within.keeping + within.dropping + 1 < 2 ^ 64 }
    ensures { result ≡ condition_kind defines.now within (Some word.now) }
{
    match condition(defines, word) {
        None => Err(RegistryKind::Columns),
        Some(true) => Ok(Conditions {
            keeping: within.keeping + 1,
            dropping: 0,
        }),
        Some(false) => Ok(Conditions {
            keeping: within.keeping,
            dropping: 1,
        }),
    }
}

/// After an ifdef. `closed` tells whether an endif of its own follows.
pub fn deeper(
    defines: &[(Name, Name)],
    line: &Line,
    closed: bool,
    within: Conditions,
) -> Result<Conditions, RegistryKind>
    requires { within.keeping + within.dropping + 1 < 2 ^ 64 }
    ensures conditions { result ≡ deeper_kind defines.now line.now closed within }
    ensures bound { IfOk result
        (λ c. c.keeping + c.dropping ≤ within.keeping + within.dropping + 1) }
{
    if within.dropping > 0 {
        return Ok(Conditions {
            keeping: within.keeping,
            dropping: within.dropping + 1,
        });
    }
    if !closed {
        return Err(RegistryKind::UnclosedIf);
    }
    match first_column(line) {
        None => Err(RegistryKind::Columns),
        Some(word) => kept_or_dropped(defines, word, within),
    }
}

/// After an endif.
pub fn shallower(within: Conditions) -> Result<Conditions, RegistryKind>
    ensures conditions { result ≡ shallower_kind within }
    ensures bound { IfOk result (λ c. c.keeping + c.dropping ≤ within.keeping + within.dropping) }
{
    if within.dropping > 0 {
        return Ok(Conditions {
            keeping: within.keeping,
            dropping: within.dropping - 1,
        });
    }
    if within.keeping == 0 {
        return Err(RegistryKind::StrayEndif);
    }
    Ok(Conditions {
        keeping: within.keeping - 1,
        dropping: 0,
    })
}
