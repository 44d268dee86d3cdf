//! The names that a stencil table may use: of the active fields, of halos and periods, and of
//! stored functions.

ghost use Rattle.std.specs.Prelude.{◌≡◌, ◌≤◌, ◌+◌, ◌++◌, IfOk, OnOk, codes, filter_map, flat_map};
ghost use Rattle.std.specs.Prelude.{length, map, position};
ghost use Rattle.std.specs.Option.{option_map};
ghost use Rattle.wf_model.specs.Letters.{digits_value, lower};
ghost use Rattle.wf_model.specs.Entries.{entry_levels, is_two, level_names};
ghost use Rattle.wf_model.specs.Groups.{names_in, radius_of};
ghost use Rattle.wf_model.specs.NamesOf.{fields_from, group_parts, halo_of, halo_part};
ghost use Rattle.wf_model.specs.NamesOf.{level_number, levels_in, names_of, parts_in, period_of};
ghost use Rattle.wf_model.specs.NamesOf.{period_part};
ghost use Rattle.wf_config.specs.NameParts.{field_of, level_numbers};

use crate::copies::push_some;
use crate::parts::{head_of, names_in};
use crate::words::parts;
use std::alloc::{AllocError, Global};
use wf_model::{Config, Entry, HaloPart, HookName, List, Name, Names, PeriodPart};
use wf_text::{digits_up_to, lower};

// ---- levels and fields

/// A level's name, and whether it has a z letter.
type Level = (Name, bool);

/// A field's symbol, and the numbers of its first and last level.
type FieldName = (Name, u32, u32);

/// The name with this ending; refused where it is too long to be a name.
fn with_ending(alloc: Global, name: &Name, ending: &[u8]) -> Result<Name, AllocError>
    ensures { IfOk result (λ n. n ≡ name.now ++ ending.now) }
{
    let mut bytes = Vec::from_slice(alloc, name.as_slice())?;
    bytes.extend_from_slice(ending)?;
    if Name::is_name(bytes.as_slice()) {
        Ok(Name::from_vec(bytes))
    } else {
        Err(AllocError)
    }
}

/// Whether a number of levels is two.
fn is_two(levels: &[u8]) -> bool
    ensures { result ≡ is_two levels.now }
{
    match digits_up_to(levels, 2) {
        Some(count) => count == 2,
        None => false,
    }
}

/// Adds the levels of a field.
fn add_levels(
    alloc: Global,
    levels: &mut Vec<Level>,
    symbol: &Name,
    count: &[u8],
    z: bool,
) -> Result<(), AllocError>
    ensures { OnOk result (levels.new.items
        ≡ levels.old.items ++ map (λ name. (name, z)) (level_names symbol.now count.now)) }
{
    if is_two(count) {
        levels.push((with_ending(alloc, symbol, b"_1".as_slice())?, z))?;
        levels.push((with_ending(alloc, symbol, b"_2".as_slice())?, z))?;
    } else {
        levels.push((symbol.copy(alloc)?, z))?;
    }
    Ok(())
}

/// Adds the levels of an entry.
fn add_levels_of(alloc: Global, levels: &mut Vec<Level>, entry: &Entry) -> Result<(), AllocError>
    ensures { OnOk result (levels.new.items ≡ levels.old.items ++ levels_in entry.now) }
{
    match entry {
        Entry::State {
            symbol,
            dims,
            levels: count,
            ..
        } => {
            let z = dims.as_slice().len() == 3;
            add_levels(alloc, levels, symbol, count.as_slice(), z)
        }
        _ => Ok(()),
    }
}

/// The levels of the fields, in order.
fn levels_of(alloc: Global, fields: &[Entry]) -> Result<Vec<Level>, AllocError>
    ensures { IfOk result (λ v. v.items ≡ flat_map levels_in fields.now) }
{
    let mut levels = Vec::new(alloc);
    for entry in fields {
        add_levels_of(alloc, &mut levels, entry)?;
    }
    Ok(levels)
}

/// How many levels an entry has.
fn level_count(entry: &Entry) -> u32
    ensures count { result ≡ length (entry_levels entry.now) }
    ensures few { result ≤ 2 }
{
    match entry {
        Entry::State { levels, .. } => { if is_two(levels.as_slice()) { 2 } else { 1 } }
        _ => 0,
    }
}

/// Adds a field whose first level has this number.
fn add_field(
    alloc: Global,
    fields: &mut Vec<FieldName>,
    first: u32,
    end: u32,
    entry: &Entry,
) -> Result<(), AllocError>
    requires { end ≡ first + length (entry_levels entry.now) }
    ensures { OnOk result (fields.new.items ≡ fields.old.items ++ field_of first entry.now) }
{
    if let Entry::State { symbol, .. } = entry {
        fields.push((symbol.copy(alloc)?, first, end.saturating_sub(1)))?;
    }
    Ok(())
}

/// The symbols of the fields, with the numbers of their first and last levels.
fn fields_of(alloc: Global, entries: &[Entry]) -> Result<Vec<FieldName>, AllocError>
    ensures { IfOk result (λ v. v.items ≡ fields_from 0 entries.now) }
{
    let mut fields = Vec::new(alloc);
    let mut first: u32 = 0;
    for entry in entries {
        let Some(end) = first.checked_add(level_count(entry)) else {
            return Err(AllocError);
        };
        add_field(alloc, &mut fields, first, end, entry)?;
        first = end;
    }
    Ok(fields)
}

// ---- groups

fn find_level(levels: &[Level], name: &[u8]) -> Option<usize>
    ensures { result ≡ level_number levels.now name.now }
{
    levels.iter().position(|level| level.0.as_slice() == name)
}

/// The number of the level of this name in whatever case, in 32 bits.
fn level_number(alloc: Global, levels: &[Level], name: &[u8]) -> Result<Option<u32>, AllocError>
    ensures { IfOk result (λ n. n ≡ level_number levels.now (lower name.now)) }
{
    match find_level(levels, lower(alloc, name)?.as_slice()) {
        Some(place) => match u32::try_from(place) {
            Ok(number) => Ok(Some(number)),
            Err(_) => Err(AllocError),
        },
        None => Ok(None),
    }
}

/// The numbers of the levels that a group names.
fn level_numbers(alloc: Global, levels: &[Level], group: &[u8]) -> Result<Vec<u32>, AllocError>
    ensures { IfOk result (λ v. v.items ≡ level_numbers levels.now group.now) }
{
    let mut numbers = Vec::new(alloc);
    let names = names_in(alloc, group)?;
    for name in names.as_slice() {
        push_some(&mut numbers, level_number(alloc, levels, name)?)?;
    }
    Ok(numbers)
}

/// The number of digits; refused where they are none, or where 32 bits don't hold it.
fn number_of(digits: &[u8]) -> Result<u32, AllocError>
    ensures { IfOk result (λ n. n ≡ digits_value digits.now) }
{
    match digits_up_to(digits, u128::from(u32::MAX)) {
        Some(number) => Ok(number as u32),
        None => Err(AllocError),
    }
}

/// The radius of a halo of so many points.
fn radius_of(points: u32) -> u32
    ensures { result ≡ radius_of points }
{
    match points {
        4 | 8 => 1,
        24 => 2,
        48 => 3,
        80 => 4,
        120 => 5,
        168 => 6,
        _ => 0,
    }
}

// ---- halos

/// Adds the parts of a group of a halo.
fn add_halo_group(
    alloc: Global,
    made: &mut Vec<HaloPart>,
    levels: &[Level],
    group: &[u8],
) -> Result<(), AllocError>
    ensures { OnOk result
        (made.new.items ≡ made.old.items ++ group_parts halo_part levels.now group.now) }
{
    let points = number_of(head_of(group))?;
    let cross = points == 4;
    let radius = radius_of(points);
    let numbers = level_numbers(alloc, levels, group)?;
    for field in numbers.as_slice() {
        let field = *field;
        made.push(HaloPart {
            field,
            cross,
            radius,
        })?;
    }
    Ok(())
}

/// The parts of all groups of a halo.
fn halo_parts(alloc: Global, levels: &[Level], groups: &[u8]) -> Result<Vec<HaloPart>, AllocError>
    ensures { IfOk result (λ v. v.items ≡ parts_in halo_part levels.now groups.now) }
{
    let mut made = Vec::new(alloc);
    let groups = parts(alloc, groups, b';')?;
    for group in groups.as_slice() {
        add_halo_group(alloc, &mut made, levels, group)?;
    }
    Ok(made)
}

/// A halo's name and parts; none of another entry.
fn halo_of(
    alloc: Global,
    levels: &[Level],
    entry: &Entry,
) -> Result<Option<(Name, List<HaloPart>)>, AllocError>
    ensures { IfOk result (λ h. h ≡ halo_of levels.now entry.now) }
{
    match entry {
        Entry::Halo { name, groups } => {
            let made = halo_parts(alloc, levels, groups.as_slice())?;
            Ok(Some((name.copy(alloc)?, List::from_vec(made))))
        }
        _ => Ok(None),
    }
}

fn halos_of(
    alloc: Global,
    levels: &[Level],
    entries: &[Entry],
) -> Result<Vec<(Name, List<HaloPart>)>, AllocError>
    ensures { IfOk result (λ v. v.items ≡ filter_map (halo_of levels.now) entries.now) }
{
    let mut halos = Vec::new(alloc);
    for entry in entries {
        push_some(&mut halos, halo_of(alloc, levels, entry)?)?;
    }
    Ok(halos)
}

// ---- periods

/// Adds the parts of a group of a period.
fn add_period_group(
    alloc: Global,
    made: &mut Vec<PeriodPart>,
    levels: &[Level],
    group: &[u8],
) -> Result<(), AllocError>
    ensures { OnOk result
        (made.new.items ≡ made.old.items ++ group_parts period_part levels.now group.now) }
{
    let width = number_of(head_of(group))?;
    let numbers = level_numbers(alloc, levels, group)?;
    for field in numbers.as_slice() {
        let field = *field;
        made.push(PeriodPart { field, width })?;
    }
    Ok(())
}

/// The parts of all groups of a period.
fn period_parts(
    alloc: Global,
    levels: &[Level],
    groups: &[u8],
) -> Result<Vec<PeriodPart>, AllocError>
    ensures { IfOk result (λ v. v.items ≡ parts_in period_part levels.now groups.now) }
{
    let mut made = Vec::new(alloc);
    let groups = parts(alloc, groups, b';')?;
    for group in groups.as_slice() {
        add_period_group(alloc, &mut made, levels, group)?;
    }
    Ok(made)
}

/// A period's name and parts; none of another entry.
fn period_of(
    alloc: Global,
    levels: &[Level],
    entry: &Entry,
) -> Result<Option<(Name, List<PeriodPart>)>, AllocError>
    ensures { IfOk result (λ p. p ≡ period_of levels.now entry.now) }
{
    match entry {
        Entry::Period { name, groups } => {
            let made = period_parts(alloc, levels, groups.as_slice())?;
            Ok(Some((name.copy(alloc)?, List::from_vec(made))))
        }
        _ => Ok(None),
    }
}

fn periods_of(
    alloc: Global,
    levels: &[Level],
    entries: &[Entry],
) -> Result<Vec<(Name, List<PeriodPart>)>, AllocError>
    ensures { IfOk result (λ v. v.items ≡ filter_map (period_of levels.now) entries.now) }
{
    let mut periods = Vec::new(alloc);
    for entry in entries {
        push_some(&mut periods, period_of(alloc, levels, entry)?)?;
    }
    Ok(periods)
}

// ---- all names

/// The names that a table may use: the levels and symbols of the config's fields, its halos and
/// periods with their parts, and these stored functions.
///
/// Levels are numbered from 0 in the order of the fields. A part of a halo or a period is a level
/// that its groups name, in whatever case; names that are no active level are left out. The error
/// is want of memory; it also comes where a head of a group is no number of 32 bits, or a level's
/// name is longer than a name may be, which no config of a Registry that was read has.
#[tactic(auto, unfolding(wf_model::specs::NamesOf::names_of))]
pub fn names(alloc: Global, config: &Config, hooks: &[HookName]) -> Result<Names, AllocError>
    ensures { IfOk result (λ n. n ≡ names_of config.now hooks.now) }
{
    let fields = config.fields.as_slice();
    let levels = levels_of(alloc, fields)?;
    let halos = halos_of(alloc, levels.as_slice(), config.halos.as_slice())?;
    let periods = periods_of(alloc, levels.as_slice(), config.periods.as_slice())?;
    Ok(Names {
        levels: List::from_vec(levels),
        fields: List::from_vec(fields_of(alloc, fields)?),
        halos: List::from_vec(halos),
        periods: List::from_vec(periods),
        hooks: List::from_vec(HookName::copy_all(alloc, hooks)?),
    })
}
