//! The columns of an rconfig line.

ghost use Rattle.std.specs.Prelude.{◌≡◌};
ghost use Rattle.wf_model.specs.Judging.{character_fault, entries_fault, is_character, is_default};
ghost use Rattle.wf_model.specs.Judging.{is_rconfig_how, type_fault};
ghost use Rattle.wf_model.specs.Entries.{is_integer};

use crate::words::behind;
use wf_model::{Name, RegistryKind};
use wf_text::{
    is_dash, is_decimal, is_digits, is_false_word, is_number_within, is_true_word, is_whole_in_32,
    whole,
};

/// What is wrong behind `character` in a type: nothing follows, or `*` and digits.
fn character_fault(rest: &[u8]) -> Option<RegistryKind>
    ensures { result ≡ character_fault rest.now }
{
    match rest {
        [] => None,
        [b'*', digits @ ..] => {
            if is_digits(digits) {
                None
            } else {
                Some(RegistryKind::BadNumber)
            }
        }
        _ => Some(RegistryKind::Columns),
    }
}

/// What is wrong in the type of an rconfig: it is `integer`, `real`, `logical`, `character` or
/// `character*` and digits.
pub fn type_fault(kind: &[u8]) -> Option<RegistryKind>
    ensures { result ≡ type_fault kind.now }
{
    if let Some(rest) = behind(kind, b"character") {
        return character_fault(rest);
    }
    if kind == b"integer".as_slice()
        || kind == b"real".as_slice()
        || kind == b"logical".as_slice()
    {
        return None;
    }
    Some(RegistryKind::Columns)
}

/// Whether the word is `derived`, or `namelist,` and the name of a group.
pub fn is_rconfig_how(how: &[u8]) -> bool
    ensures { result ≡ is_rconfig_how how.now }
{
    if how == b"derived".as_slice() {
        return true;
    }
    match behind(how, b"namelist,") {
        Some(group) => Name::is_name(group),
        None => false,
    }
}

/// What is wrong in the number of entries: it is 1 to 21, or a name.
pub fn entries_fault(word: &[u8]) -> Option<RegistryKind>
    ensures { result ≡ entries_fault word.now }
{
    if is_digits(word) {
        if is_number_within(word, 1, 21) {
            return None;
        }
        return Some(RegistryKind::BadNumber);
    }
    if Name::is_name(word) {
        return None;
    }
    Some(RegistryKind::Columns)
}

/// Whether a type is `integer`.
pub fn is_integer(kind: &[u8]) -> bool
    ensures { result ≡ is_integer kind.now }
{
    kind == b"integer".as_slice()
}

fn is_character(kind: &[u8]) -> bool
    ensures { result ≡ is_character kind.now }
{
    kind.starts_with(b"character".as_slice())
}

/// Whether a default is a value of its type, or `-`. Any word is a text.
pub fn is_default(kind: &[u8], word: &[u8]) -> bool
    ensures { result ≡ is_default kind.now word.now }
{
    if is_dash(word) || is_character(kind) {
        return true;
    }
    if kind == b"logical".as_slice() {
        return is_true_word(word) || is_false_word(word);
    }
    if is_integer(kind) {
        return is_whole_in_32(word);
    }
    whole(word).is_some() || is_decimal(word)
}
