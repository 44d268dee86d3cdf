//! Names that nothing declares.

ghost use Rattle.std.specs.Prelude.{◌≡◌, ◌<◌, ◌&&◌, ◌||◌, IfNone, IfOk, IfSome, codes, flat_map};
ghost use Rattle.std.specs.Prelude.{length, not, position};
ghost use Rattle.std.specs.List.{after_first, list_all, slice_split};
ghost use Rattle.std.specs.Str.{bytes_eq};
ghost use Rattle.wf_model.specs.BuiltIns.{is_built_in as is_built_in_name};
ghost use Rattle.wf_model.specs.Entries.{declares, entry_symbol, is_integer_rconfig, rconfigs};
ghost use Rattle.wf_model.specs.Groups.{groups_of, is_comma, names_in};
ghost use Rattle.wf_model.specs.Io.{is_colon};
ghost use Rattle.wf_model.specs.Judging.{all_known, by_namelist, is_known};
ghost use Rattle.wf_model.specs.Letters.{begins, behind as behind_front, is_among};
ghost use Rattle.wf_model.specs.Letters.{is_dash as is_dash_word, is_digits as is_digits_word};
ghost use Rattle.wf_model.specs.Letters.{lower as in_lower};
ghost use Rattle.wf_model.specs.Registry.{known_names, names_known};
ghost use Rattle.wf_registry.specs.Sorts.{declared_of};
ghost use Rattle.wf_registry.specs.Unknown.{AreKnownBelow, IsFirstUnknown};

use crate::built_ins::is_built_in;
use crate::declared::Declared;
use std::alloc::{AllocError, Global};
use wf_model::Entry;
use wf_registry_columns::{behind, cut, is_integer};
use wf_text::{is_dash, is_digits, lower};

/// A sort of names that groups may list.
#[derive(Clone, Copy, Debug, PartialEq, Eq)]
enum Listed {
    /// Symbols of fields, in a package.
    Symbols,
    /// Names of levels, in a halo or a period.
    Levels,
}

fn is_declared(all: &Declared, listed: Listed, word: &[u8]) -> bool
    ensures { result ≡ is_among word.now (declared_of listed all.now) }
{
    match listed {
        Listed::Symbols => all.has_symbol(word),
        Listed::Levels => all.has_level(word),
    }
}

/// Whether each of the names, which commas part, is declared.
fn are_declared(
    alloc: Global,
    all: &Declared,
    listed: Listed,
    names: &[u8],
) -> Result<bool, AllocError>
    ensures { IfOk result (λ b. b ≡ list_all (λ name.
        is_among (in_lower name) (declared_of listed all.now)) (slice_split is_comma names.now)) }
{
    let mut rest = Some(names);
    while let Some(bytes) = rest {
        let (name, next) = cut(bytes, b',');
        let name = lower(alloc, name)?;
        if !is_declared(all, listed, &name) {
            return Ok(false);
        }
        rest = next;
    }
    Ok(true)
}

fn colon_at(bytes: &[u8]) -> Option<usize>
    ensures place { result ≡ position is_colon bytes.now }
    ensures bound { IfSome result (λ at. at < length bytes.now) }
{
    bytes.iter().position(|b| *b == b':')
}

/// What stands behind the first colon, and nothing where there is none.
#[tactic(auto, using(wf_model::proofs::FirstPlaces::found, wf_model::proofs::FirstPlaces::not_found))]
fn behind_colon(group: &[u8]) -> &[u8]
    ensures { result.now ≡ after_first is_colon group.now }
{
    match colon_at(group) {
        Some(at) => {
            let (_, names) = group.split_at(at + 1);
            names
        }
        None => &[],
    }
}

/// Whether each name of a group is declared.
fn group_known(
    alloc: Global,
    all: &Declared,
    listed: Listed,
    group: &[u8],
) -> Result<bool, AllocError>
    ensures { IfOk result (λ b. b ≡ list_all
        (λ name. is_among (in_lower name) (declared_of listed all.now)) (names_in group.now)) }
{
    are_declared(alloc, all, listed, behind_colon(group))
}

/// Whether each name of the groups is declared.
fn known_names(
    alloc: Global,
    all: &Declared,
    listed: Listed,
    groups: &[u8],
) -> Result<bool, AllocError>
    ensures { IfOk result (λ b. b ≡ known_names all.now groups.now (declared_of listed all.now)) }
{
    let mut rest = Some(groups);
    while let Some(bytes) = rest {
        let (group, next) = cut(bytes, b';');
        if !group_known(alloc, all, listed, group)? {
            return Ok(false);
        }
        rest = next;
    }
    Ok(true)
}

fn is_known(all: &Declared, letter: u8) -> bool
    ensures { result ≡ is_known all.now letter }
{
    all.has_dimspec(&[letter])
}

/// Whether each letter is that of a dimspec.
fn are_known(all: &Declared, dims: &[u8]) -> bool
    ensures { result ≡ all_known all.now dims.now }
{
    dims.iter().all(|letter| is_known(all, *letter))
}

/// Whether the rconfig that the how column of a dimspec names, if any, is one of type integer.
fn is_extent_known(alloc: Global, all: &Declared, how: &[u8]) -> Result<bool, AllocError>
    ensures { IfOk result (λ b. b ≡ (not (begins how.now by_namelist)
        || is_integer_rconfig all.now (in_lower (behind_front how.now by_namelist)))) }
{
    match behind(how, b"namelist=") {
        Some(name) => {
            let name = lower(alloc, name)?;
            Ok(all.has_integer_rconfig(&name))
        }
        None => Ok(true),
    }
}

/// Whether a number of entries is digits, `max_domains`, or the name of an rconfig.
fn is_count_known(alloc: Global, all: &Declared, entries: &[u8]) -> Result<bool, AllocError>
    ensures { IfOk result (λ b. b ≡ (is_digits_word entries.now || (bytes_eq (in_lower entries.now)
        (codes "max_domains") || declares rconfigs (in_lower entries.now) all.now))) }
{
    if is_digits(entries) {
        return Ok(true);
    }
    let name = lower(alloc, entries)?;
    Ok(name.as_slice() == b"max_domains".as_slice() || all.has_rconfig(&name))
}

/// Whether the symbol of a package is an integer rconfig or a built-in name, and its list has
/// symbols of fields.
fn is_package_known(
    alloc: Global,
    all: &Declared,
    symbol: &[u8],
    list: &[u8],
) -> Result<bool, AllocError>
    ensures { IfOk result (λ b.
        b ≡ ((is_integer_rconfig all.now symbol.now || is_built_in_name symbol.now) && (is_dash_word
        list.now || known_names all.now list.now (flat_map entry_symbol all.now)))) }
{
    if !all.has_integer_rconfig(symbol) && !is_built_in(symbol) {
        return Ok(false);
    }
    if is_dash(list) {
        return Ok(true);
    }
    known_names(alloc, all, Listed::Symbols, list)
}

/// Whether each name that an entry uses is declared where it must be.
fn names_known(alloc: Global, all: &Declared, entry: &Entry) -> Result<bool, AllocError>
    ensures { IfOk result (λ b. b ≡ names_known all.now entry.now) }
{
    match entry {
        Entry::Dimspec { how, .. } => is_extent_known(alloc, all, how.as_slice()),
        Entry::State { kind, dims, .. } => {
            Ok(!is_integer(kind.as_slice()) || are_known(all, dims.as_slice()))
        }
        Entry::Rconfig { entries, .. } => is_count_known(alloc, all, entries.as_slice()),
        Entry::Package { symbol, list, .. } => {
            is_package_known(alloc, all, symbol.as_slice(), list.as_slice())
        }
        Entry::Halo { groups, .. } => { known_names(alloc, all, Listed::Levels, groups.as_slice()) }
        Entry::Period { groups, .. } => {
            known_names(alloc, all, Listed::Levels, groups.as_slice())
        }
    }
}

/// The place, from 0, of the first entry that uses a name that nothing declares where it must be.
pub(crate) fn unknown_at(alloc: Global, all: &Declared) -> Result<Option<usize>, AllocError>
    ensures found { IfOk result (λ p. IfSome p (IsFirstUnknown all.now all.now)) }
    ensures none { IfOk result (λ p. IfNone p (AreKnownBelow all.now all.now (length all.now))) }
{
    let entries = all.entries();
    for (at, entry) in entries.iter().enumerate() {
        if !names_known(alloc, all, entry)? {
            return Ok(Some(at));
        }
    }
    Ok(None)
}
