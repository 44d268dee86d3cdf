//! The columns of a dimspec line.

ghost use Rattle.std.specs.Prelude.{◌≡◌};
ghost use Rattle.wf_model.specs.Judging.{how_fault, is_axis, is_standard};

use crate::words::{behind, has_byte};
use wf_model::{Name, RegistryKind};
use wf_text::is_number_within;

/// Whether the extent of a dimension is the domain's own.
pub fn is_standard(how: &[u8]) -> bool
    ensures { result ≡ is_standard how.now }
{
    how == b"standard_domain".as_slice()
}

/// What is wrong in the how column: it is `standard_domain`, `namelist=` and a name, or `constant=`
/// and 1 to 128. A range, which has a colon, is `Unsupported`.
pub fn how_fault(how: &[u8]) -> Option<RegistryKind>
    ensures { result ≡ how_fault how.now }
{
    if is_standard(how) {
        return None;
    }
    let named = behind(how, b"namelist=");
    let constant = behind(how, b"constant=");
    if named.is_none() && constant.is_none() {
        return Some(RegistryKind::Columns);
    }
    if has_byte(how, b':') {
        return Some(RegistryKind::Unsupported);
    }
    if let Some(name) = named {
        if Name::is_name(name) {
            return None;
        }
        return Some(RegistryKind::Columns);
    }
    match constant {
        Some(number) if is_number_within(number, 1, 128) => None,
        _ => Some(RegistryKind::BadNumber),
    }
}

/// Whether the word is `x`, `y` or `z`.
pub fn is_axis(word: &[u8]) -> bool
    ensures { result ≡ is_axis word.now }
{
    word == b"x".as_slice() || word == b"y".as_slice() || word == b"z".as_slice()
}
