//! Groups of names, `head:name,name`, as packages, halos and periods have them.

ghost use Rattle.std.specs.Prelude.{◌≡◌, ◌==◌, ◌≤◌, IfOk, length, map, position};
ghost use Rattle.std.specs.List.{position_or_len};
ghost use Rattle.wf_model.specs.Io.{is_colon};
ghost use Rattle.wf_model.specs.Groups.{head_of, names_in, radius_of};

use crate::words::parts;
use std::alloc::{AllocError, Global};

fn find_colon(group: &[u8]) -> Option<usize>
    ensures { result ≡ position is_colon group.now }
{
    group.iter().position(|b| *b == b':')
}

/// The place of the first colon, or the length where there is none.
#[tactic(auto, using(wf_model::proofs::FirstPlaces::found, wf_model::proofs::FirstPlaces::not_found))]
fn colon_at(group: &[u8]) -> usize
    ensures place { result ≡ position_or_len is_colon group.now }
    ensures bound { result ≤ length group.now }
{
    match find_colon(group) {
        Some(place) => place,
        None => group.len(),
    }
}

/// What stands before the colon of a group.
pub(crate) fn head_of(group: &[u8]) -> &[u8]
    ensures { result.now ≡ head_of group.now }
{
    let (head, _) = group.split_at(colon_at(group));
    head
}

/// The names behind the colon of a group, in their own case.
pub(crate) fn names_in(alloc: Global, group: &[u8]) -> Result<Vec<&[u8]>, AllocError>
    ensures { IfOk result (λ v. map (λ w. w.now) v.items ≡ names_in group.now) }
{
    let colon = colon_at(group);
    if colon == group.len() {
        return parts(alloc, b"".as_slice(), b',');
    }
    let (_, names) = group.split_at(colon + 1);
    parts(alloc, names, b',')
}
