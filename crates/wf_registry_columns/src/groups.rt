//! Groups of names, as of a package, a halo and a period: `head:name,name;head:name`.

ghost use Rattle.std.specs.Prelude.{◌≡◌, ◌==◌, ◌∷◌, ◌<◌, IfSome, length, flat_map, nat_lt};
ghost use Rattle.std.specs.Prelude.{position};
ghost use Rattle.std.specs.List.{list_all, slice_split};
ghost use Rattle.std.specs.Option.{option_copied};
ghost use Rattle.wf_model.specs.Letters.{is_name};
ghost use Rattle.wf_model.specs.Groups.{group_faults, groups_of, is_comma, points_head, radius_of};
ghost use Rattle.wf_model.specs.Io.{is_colon};
ghost use Rattle.wf_model.specs.Reading.{first_fault};
ghost use Rattle.wf_registry_columns.specs.Heads.{head_rule, parts_left};

use crate::words::place_of;
use wf_model::{Name, RegistryKind};
use wf_text::{digits_up_to, is_number_within};

/// What may stand before the colon of a group.
#[derive(Clone, Copy, Debug, PartialEq, Eq)]
pub enum Head {
    /// The word `state`, in a package.
    State,
    /// The number of points of a halo: 4 for the cross of radius 1, or 8, 24, 48, 80, 120 or 168
    /// for the squares of radius 1 to 6.
    Points,
    /// The width of a period, 1 to 6.
    Width,
}

/// The bytes before the first `separator`, and those behind it where there is one.
pub fn cut(bytes: &[u8], separator: u8) -> (&[u8], Option<&[u8]>)
    ensures parts { slice_split (λ b. b == separator) bytes.now
        ≡ result.0.now ∷ parts_left (λ b. b == separator) (option_copied result.1) }
    ensures bound { IfSome result.1 (λ rest. length rest.now < length bytes.now) }
{
    match place_of(bytes, separator) {
        Some(at) => {
            let (front, _) = bytes.split_at(at);
            let (_, rest) = bytes.split_at(at + 1);
            (front, Some(rest))
        }
        None => (bytes, None),
    }
}

/// Whether names parted by commas stand here.
fn are_names(bytes: &[u8]) -> bool
    ensures { result ≡ list_all is_name (slice_split is_comma bytes.now) }
{
    bytes.split(|b| *b == b',').all(|name| Name::is_name(name))
}

/// Whether a halo may have so many points.
fn has_radius(points: u128) -> bool
    ensures { result ≡ nat_lt 0 (radius_of points) }
{
    match points {
        4 | 8 | 24 | 48 | 80 | 120 | 168 => true,
        _ => false,
    }
}

fn points_fault(head: &[u8]) -> Option<RegistryKind>
    ensures { result ≡ points_head head.now }
{
    match digits_up_to(head, 168) {
        Some(points) if has_radius(points) => None,
        _ => Some(RegistryKind::BadPoints),
    }
}

/// What is wrong before the colon of a group.
fn head_fault(word: &[u8], head: Head) -> Option<RegistryKind>
    ensures { result ≡ head_rule head word.now }
{
    match head {
        Head::State => {
            if word == b"state".as_slice() {
                None
            } else {
                Some(RegistryKind::Unsupported)
            }
        }
        Head::Points => points_fault(word),
        Head::Width => {
            if is_number_within(word, 1, 6) {
                None
            } else {
                Some(RegistryKind::BadPoints)
            }
        }
    }
}

/// What is wrong in a group.
fn group_fault(group: &[u8], head: Head) -> Option<RegistryKind>
    ensures { result ≡ first_fault (group_faults (head_rule head) group.now) }
{
    let Some(at) = place_of(group, b':') else {
        return Some(RegistryKind::Columns);
    };
    let (front, _) = group.split_at(at);
    let (_, names) = group.split_at(at + 1);
    let fault = head_fault(front, head);
    if fault.is_some() {
        return fault;
    }
    if !are_names(names) {
        return Some(RegistryKind::Columns);
    }
    None
}

/// What is wrong in groups parted by `;`, the first thing in reading order.
///
/// A group without a colon, or with a word that is no name behind it, is `Columns`. A head that is
/// not `state` is `Unsupported`, and a number of points or a width that is not allowed
/// is `BadPoints`.
pub fn groups_fault(groups: &[u8], head: Head) -> Option<RegistryKind>
    ensures { result
        ≡ first_fault (flat_map (group_faults (head_rule head)) (groups_of groups.now)) }
{
    let mut rest = Some(groups);
    while let Some(bytes) = rest {
        let (group, next) = cut(bytes, b';');
        let fault = group_fault(group, head);
        if fault.is_some() {
            return fault;
        }
        rest = next;
    }
    None
}
