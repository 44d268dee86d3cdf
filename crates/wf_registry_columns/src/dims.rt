//! The columns of a state line that go by letters of dimensions: dims and stagger.

ghost use Rattle.std.specs.Prelude.{◌≡◌};
ghost use Rattle.std.specs.List.{list_all};
ghost use Rattle.std.specs.Char.{is_ascii_alphabetic};
ghost use Rattle.wf_model.specs.Judging.{all_known, dims_fault, is_in_order, is_stagger};
ghost use Rattle.wf_model.specs.Judging.{stagger_fault};

use crate::axes::Axes;
use wf_model::RegistryKind;
use wf_text::is_dash;

/// Whether each letter is that of a dimspec.
pub fn all_known(axes: &Axes, dims: &[u8]) -> bool
    ensures { result ≡ all_known axes.now dims.now }
{
    dims.iter().all(|letter| axes.is_known(*letter))
}

fn are_letters(dims: &[u8]) -> bool
    ensures { result ≡ list_all is_ascii_alphabetic dims.now }
{
    dims.iter().all(|b| b.is_ascii_alphabetic())
}

/// Whether the axes are x and y, or x, z and y.
fn is_in_order(axes: &Axes, dims: &[u8]) -> bool
    ensures { result ≡ is_in_order axes.now dims.now }
{
    match dims {
        [first, second] => axes.axis_of(*first) == b'x' && axes.axis_of(*second) == b'y',
        [first, second, third] => {
            axes.axis_of(*first) == b'x'
                && axes.axis_of(*second) == b'z'
                && axes.axis_of(*third) == b'y'
        }
        _ => false,
    }
}

/// What is wrong in the dims column of an integer field.
///
/// It has the letters of an x and a y, or of an x, a z and a y dimspec. Another order or number of
/// letters, a boundary array (`b`, where no dimspec has this letter) and braces are `Unsupported`,
/// and what is no letter is `Columns`. A letter that no dimspec has is not judged here.
pub fn dims_fault(axes: &Axes, dims: &[u8]) -> Option<RegistryKind>
    ensures { result ≡ dims_fault axes.now dims.now }
{
    if dims.len() != 2 && dims.len() != 3 {
        return Some(RegistryKind::Unsupported);
    }
    if !are_letters(dims) {
        if dims.contains(&b'{') {
            return Some(RegistryKind::Unsupported);
        }
        return Some(RegistryKind::Columns);
    }
    if dims.contains(&b'b') && !axes.is_known(b'b') {
        return Some(RegistryKind::Unsupported);
    }
    if all_known(axes, dims) && !is_in_order(axes, dims) {
        return Some(RegistryKind::Unsupported);
    }
    None
}

/// Whether the word has some of X, Y and Z, each once.
fn is_stagger(word: &[u8]) -> bool
    ensures { result ≡ is_stagger word.now }
{
    match word {
        [] => false,
        [first, rest @ ..] => {
            b'X' <= *first
                && *first <= b'Z'
                && !rest.contains(first)
                && (rest.is_empty() || is_stagger(rest))
        }
    }
}

/// What is wrong in the stagger column of an integer field: it is `-` or some of X, Y and Z, each
/// once, and Z only where the field has a z letter.
pub fn stagger_fault(axes: &Axes, dims: &[u8], word: &[u8]) -> Option<RegistryKind>
    ensures { result ≡ stagger_fault axes.now dims.now word.now }
{
    if is_dash(word) {
        return None;
    }
    let is_flat = all_known(axes, dims) && dims.len() == 2;
    if is_stagger(word) && !(word.contains(&b'Z') && is_flat) {
        return None;
    }
    Some(RegistryKind::Columns)
}
