//! The dimensions of a field.

ghost use Rattle.std.specs.Prelude.{◌≡◌, ◌==◌, ◌∷◌, [], IfOk, drop, if◌then◌else◌, length, pos};
ghost use Rattle.std.specs.Prelude.{slice_index};
ghost use Rattle.std.specs.Option.{option_copied};
ghost use Rattle.wf_model.specs.Letters.{digits_value};
ghost use Rattle.wf_model.specs.Entries.{dimspecs, is_entry};
ghost use Rattle.wf_model.specs.PlanDomains.{integer};
ghost use Rattle.wf_model.specs.PlanFields.{dataset_of, dimspec_of, extent_of, last_letter};
ghost use Rattle.wf_model.specs.PlanFields.{z_extent, z_letter};
ghost use Rattle.wf_plan_fields.specs.LevelFields.{extent_by};

use crate::streams::has_letter;
use std::alloc::{AllocError, Global};
use wf_model::{Config, Entry};
use wf_registry_columns::is_standard;
use wf_text::{digits_up_to, lower};

fn is_dimspec(entry: &Entry, letter: u8) -> bool
    ensures { result ≡ is_entry dimspecs (letter ∷ []) entry.now }
{
    match entry {
        Entry::Dimspec { letter: other, .. } => letter == *other,
        _ => false,
    }
}

/// The dimspec of a letter.
fn dimspec_of(config: &Config, letter: u8) -> Option<&Entry>
    ensures { option_copied result ≡ dimspec_of config.now letter }
{
    config
        .dims
        .as_slice()
        .iter()
        .find(|entry| is_dimspec(entry, letter))
}

/// The name in files of the dimension of a letter; empty where no dimspec has it.
pub(crate) fn dataset_of(config: &Config, letter: u8) -> &[u8]
    ensures { result.now ≡ dataset_of (dimspec_of config.now letter) }
{
    match dimspec_of(config, letter) {
        Some(Entry::Dimspec { dataset, .. }) => dataset.as_slice(),
        _ => b"".as_slice(),
    }
}

/// The byte at this place, from 0, and 0 past the end.
pub(crate) fn letter_at(dims: &[u8], place: usize) -> u8
    ensures { result ≡ slice_index dims.now place }
{
    match dims.get(place) {
        Some(letter) => *letter,
        None => 0,
    }
}

/// The last byte, and 0 where there is none.
pub(crate) fn last_letter(dims: &[u8]) -> u8
    ensures { result ≡ last_letter dims.now }
{
    letter_at(dims, dims.len().saturating_sub(1))
}

/// The name in files of a field's dimension in z; empty without a z letter.
pub(crate) fn z_name<'a>(config: &'a Config, dims: &[u8]) -> &'a [u8]
    ensures { result.now ≡ (if length dims.now
        == 3 then dataset_of (dimspec_of config.now (z_letter dims.now)) else []) }
{
    if dims.len() == 3 {
        dataset_of(config, letter_at(dims, 1))
    } else {
        b"".as_slice()
    }
}

// ---- extents

/// A name's number for domain 1.
fn first_number(config: &Config, name: &[u8]) -> Result<i64, AllocError>
    ensures { IfOk result (λ n. n ≡ integer config.now name.now 1) }
{
    match i64::try_from(config.integer(name, 1)) {
        Ok(number) => Ok(number),
        Err(_) => Err(AllocError),
    }
}

/// The number of digits; refused where they are none, or where 32 bits don't hold it.
fn number_of(digits: &[u8]) -> Result<i64, AllocError>
    ensures { IfOk result (λ n. n ≡ pos (digits_value digits.now)) }
{
    match digits_up_to(digits, u128::from(u32::MAX)) {
        Some(number) => Ok(number as i64),
        None => Err(AllocError),
    }
}

/// The bytes behind the first few.
fn skipped(word: &[u8], count: usize) -> &[u8]
    ensures { result.now ≡ drop count word.now }
{
    if count < word.len() {
        let (_, rest) = word.split_at(count);
        rest
    } else {
        b"".as_slice()
    }
}

/// The extent of a dimspec with this how column: e_vert less one, a number, or an rconfig's
/// first value.
fn extent_by(alloc: Global, config: &Config, how: &[u8]) -> Result<i64, AllocError>
    ensures { IfOk result (λ n. n ≡ extent_by config.now how.now) }
{
    if is_standard(how) {
        let e_vert = first_number(config, b"e_vert".as_slice())?;
        return e_vert.checked_sub(1).ok_or(AllocError);
    }
    let behind = skipped(how, 9);
    if how.starts_with(b"constant=".as_slice()) {
        return number_of(behind);
    }
    let name = lower(alloc, behind)?;
    first_number(config, name.as_slice())
}

/// The extent of the dimension of a letter; 0 where no dimspec has it.
fn extent_of(alloc: Global, config: &Config, letter: u8) -> Result<i64, AllocError>
    ensures { IfOk result (λ n. n ≡ extent_of config.now (dimspec_of config.now letter)) }
{
    match dimspec_of(config, letter) {
        Some(Entry::Dimspec { how, .. }) => extent_by(alloc, config, how.as_slice()),
        _ => Ok(0),
    }
}

/// The extent in z of a field: 1 without a z letter, and one more than the dimspec says where it is
/// staggered in z.
pub(crate) fn z_extent(
    alloc: Global,
    config: &Config,
    dims: &[u8],
    stagger: &[u8],
) -> Result<i64, AllocError>
    ensures { IfOk result (λ n. n ≡ z_extent config.now dims.now stagger.now) }
{
    if dims.len() != 3 {
        return Ok(1);
    }
    let extent = extent_of(alloc, config, letter_at(dims, 1))?;
    let more = if has_letter(stagger, b'Z') { 1 } else { 0 };
    extent.checked_add(more).ok_or(AllocError)
}
