//! The levels of fields.

ghost use Rattle.std.specs.Prelude.{◌≡◌, ◌≤◌, ◌+◌, ◌++◌, ◌∷◌, [], IfOk, OnOk, flat_map, length};
ghost use Rattle.std.specs.List.{enumerate_from};
ghost use Rattle.wf_model.specs.Io.{io_of, parts_of};
ghost use Rattle.wf_model.specs.Entries.{entry_levels};
ghost use Rattle.wf_model.specs.PlanFields.{entry_extents, fields_from, level_field, shown};
ghost use Rattle.wf_model.specs.PlanFields.{z_extents};
ghost use Rattle.wf_plan_fields.specs.LevelFields.{IsShape, extents_of, held_by, level_of};
ghost use Rattle.wf_plan_fields.specs.LevelFields.{levels_of};

use crate::dimensions::{dataset_of, last_letter, letter_at, z_extent, z_name};
use crate::hooks::hook_id;
use crate::io::{Use, parts_of};
use crate::level_lists::Levels;
use crate::streams::{has_letter, has_restart, reads_input, streams_of};
use std::alloc::{AllocError, Global};
use wf_model::{Bytes, Config, Entry, Field, HookName, List, Name};
use wf_registry_columns::{is_two, variable_of};
use wf_text::is_dash;

/// What the IO column says of a level.
#[derive(Clone, Copy)]
pub(crate) struct Held {
    pub input: bool,
    pub restart: bool,
    pub streams: u16,
    pub up: Option<u32>,
    pub down: Option<u32>,
    pub edge: Option<u32>,
}

/// The dimensions of a field.
#[derive(Clone, Copy)]
pub(crate) struct Shape<'a> {
    pub z: bool,
    /// In z, with its sign.
    pub extent: i64,
    pub stag_x: bool,
    pub stag_y: bool,
    pub stag_z: bool,
    pub x_name: &'a [u8],
    pub y_name: &'a [u8],
    pub z_name: &'a [u8],
}

/// What the levels of a field share.
#[derive(Clone, Copy)]
pub(crate) struct Common<'a> {
    /// The variable's name in files.
    pub dname: &'a [u8],
    pub shape: Shape<'a>,
    pub held: Held,
    pub description: &'a [u8],
    pub units: &'a [u8],
}

/// Levels that are made so far.
#[derive(Drop)]
struct Made {
    fields: Vec<Field>,
    extents: Vec<i64>,
}

/// The name of these bytes; refused where they are none.
fn name_of(bytes: Vec<u8>) -> Result<Name, AllocError>
    ensures { IfOk result (λ name. name ≡ bytes.items) }
{
    if Name::is_name(bytes.as_slice()) {
        Ok(Name::from_vec(bytes))
    } else {
        Err(AllocError)
    }
}

/// The name with this ending; refused where it is too long to be a name.
fn with_ending(alloc: Global, name: &Name, ending: &[u8]) -> Result<Name, AllocError>
    ensures { IfOk result (λ n. n ≡ name.now ++ ending.now) }
{
    let mut bytes = Vec::from_slice(alloc, name.as_slice())?;
    bytes.extend_from_slice(ending)?;
    name_of(bytes)
}

/// A description or units, which are empty where the column is `-`.
fn shown(word: &[u8]) -> &[u8]
    ensures { result.now ≡ shown word.now }
{
    if is_dash(word) { b"".as_slice() } else { word }
}

fn held_by(alloc: Global, hooks: &[HookName], io: &[u8]) -> Result<Held, AllocError>
    ensures { IfOk result (λ h. h ≡ held_by hooks.now (parts_of (io_of io.now))) }
{
    let made = parts_of(alloc, io)?;
    let parts = made.as_slice();
    Ok(Held {
        input: reads_input(parts),
        restart: has_restart(parts),
        streams: streams_of(alloc, parts)?,
        up: hook_id(hooks, parts, Use::Up),
        down: hook_id(hooks, parts, Use::Down),
        edge: hook_id(hooks, parts, Use::Edge),
    })
}

fn shape_of<'a>(
    alloc: Global,
    config: &'a Config,
    dims: &[u8],
    stagger: &[u8],
) -> Result<Shape<'a>, AllocError>
    ensures { IfOk result (IsShape config.now dims.now stagger.now) }
{
    Ok(Shape {
        z: dims.len() == 3,
        extent: z_extent(alloc, config, dims, stagger)?,
        stag_x: has_letter(stagger, b'X'),
        stag_y: has_letter(stagger, b'Y'),
        stag_z: has_letter(stagger, b'Z'),
        x_name: dataset_of(config, letter_at(dims, 0)),
        y_name: dataset_of(config, last_letter(dims)),
        z_name: z_name(config, dims),
    })
}

fn shared<'a>(
    dname: &'a [u8],
    shape: Shape<'a>,
    held: Held,
    description: &'a [u8],
    units: &'a [u8],
) -> Common<'a>
    ensures dname { result.dname.now ≡ dname.now }
    ensures shape { result.shape ≡ shape.entry }
    ensures held { result.held ≡ held }
    ensures description { result.description.now ≡ shown description.now }
    ensures units { result.units.now ≡ shown units.now }
{
    Common {
        dname,
        shape,
        held,
        description: shown(description),
        units: shown(units),
    }
}

/// A level of this name, whose field's other level has this number.
fn level_of(
    alloc: Global,
    common: &Common,
    name: Name,
    pair: u32,
    last: bool,
) -> Result<Field, AllocError>
    ensures { IfOk result (λ f. f ≡ level_of common.now name pair last) }
{
    let Ok(nz) = u32::try_from(common.shape.extent.unsigned_abs()) else {
        return Err(AllocError);
    };
    Ok(Field {
        name,
        dname: name_of(Vec::from_slice(alloc, common.dname)?)?,
        pair,
        last,
        z: common.shape.z,
        nz,
        stag_x: common.shape.stag_x,
        stag_y: common.shape.stag_y,
        stag_z: common.shape.stag_z,
        input: common.held.input,
        restart: common.held.restart,
        streams: common.held.streams,
        up: common.held.up,
        down: common.held.down,
        edge: common.held.edge,
        x_name: Bytes::copy_of(alloc, common.shape.x_name)?,
        y_name: Bytes::copy_of(alloc, common.shape.y_name)?,
        z_name: Bytes::copy_of(alloc, common.shape.z_name)?,
        description: Bytes::copy_of(alloc, common.description)?,
        units: Bytes::copy_of(alloc, common.units)?,
    })
}

/// Adds a level, and its extent.
fn push_level(made: &mut Made, common: &Common, field: Field) -> Result<(), AllocError>
    ensures fields { OnOk result (made.new.fields.items ≡ made.old.fields.items ++ field ∷ []) }
    ensures extents { OnOk result
        (made.new.extents.items ≡ made.old.extents.items ++ common.now.shape.extent ∷ []) }
{
    made.fields.push(field)?;
    made.extents.push(common.shape.extent)?;
    Ok(())
}

/// Adds the levels of a field, of which the first has this number.
fn push_levels(
    alloc: Global,
    made: &mut Made,
    common: &Common,
    symbol: &Name,
    first: u32,
    two: bool,
) -> Result<(), AllocError>
    ensures fields { OnOk result (made.new.fields.items
        ≡ made.old.fields.items ++ levels_of common.now symbol.now first two) }
    ensures extents { OnOk result
        (made.new.extents.items ≡ made.old.extents.items ++ extents_of common.now two) }
{
    if two {
        let Some(second) = first.checked_add(1) else {
            return Err(AllocError);
        };
        let name = with_ending(alloc, symbol, b"_1".as_slice())?;
        let level = level_of(alloc, common, name, second, false)?;
        push_level(made, common, level)?;
        let name = with_ending(alloc, symbol, b"_2".as_slice())?;
        let last = level_of(alloc, common, name, first, true)?;
        push_level(made, common, last)?;
        Ok(())
    } else {
        let name = name_of(Vec::from_slice(alloc, symbol.as_slice())?)?;
        let only = level_of(alloc, common, name, first, true)?;
        push_level(made, common, only)
    }
}

/// Adds the levels of an entry, of which the first has this number.
fn add_entry(
    alloc: Global,
    made: &mut Made,
    config: &Config,
    hooks: &[HookName],
    first: u32,
    entry: &Entry,
) -> Result<(), AllocError>
    ensures fields { OnOk result (made.new.fields.items
        ≡ made.old.fields.items ++ flat_map (level_field config.now hooks.now entry.now first)
        (enumerate_from 0 (entry_levels entry.now))) }
    ensures extents { OnOk result
        (made.new.extents.items ≡ made.old.extents.items ++ entry_extents config.now entry.now) }
{
    let Entry::State {
        symbol,
        dims,
        levels,
        stagger,
        io,
        dname,
        description,
        units,
        ..
    } = entry
    else {
        return Ok(());
    };
    let variable = variable_of(alloc, symbol.as_slice(), dname.as_slice())?;
    let shape = shape_of(alloc, config, dims.as_slice(), stagger.as_slice())?;
    let held = held_by(alloc, hooks, io.as_slice())?;
    let dname = variable.as_slice();
    let common = shared(dname, shape, held, description.as_slice(), units.as_slice());
    push_levels(
        alloc,
        made,
        &common,
        symbol,
        first,
        is_two(levels.as_slice()),
    )?;
    Ok(())
}

/// How many levels an entry has.
fn level_count(entry: &Entry) -> u32
    ensures count { result ≡ length (entry_levels entry.now) }
    ensures few { result ≤ 2 }
{
    match entry {
        Entry::State { levels, .. } => { if is_two(levels.as_slice()) { 2 } else { 1 } }
        _ => 0,
    }
}

/// The levels of these entries.
fn made_of(
    alloc: Global,
    config: &Config,
    hooks: &[HookName],
    entries: &[Entry],
) -> Result<Made, AllocError>
    ensures fields { IfOk result
        (λ m. m.fields.items ≡ fields_from config.now hooks.now 0 entries.now) }
    ensures extents { IfOk result
        (λ m. m.extents.items ≡ flat_map (entry_extents config.now) entries.now) }
{
    let mut made = Made {
        fields: Vec::new(alloc),
        extents: Vec::new(alloc),
    };
    let mut first: u32 = 0;
    for entry in entries {
        let Some(end) = first.checked_add(level_count(entry)) else {
            return Err(AllocError);
        };
        add_entry(alloc, &mut made, config, hooks, first, entry)?;
        first = end;
    }
    Ok(made)
}

/// The field levels of a config, with these stored functions.
///
/// Levels are numbered from 0 in the order of the fields, which is the Registry's; a field with two
/// levels has them one behind the other. A level's extent in z is 1 where its field has no z
/// letter. Else it is what the dimspec of the letter says, and one more where the field is
/// staggered in z: `e_vert` of domain 1 less one, the number of `constant=`, or the first value of
/// the rconfig of `namelist=`. It may be below 1 here, so it is told with its sign beside the
/// field's `nz`, which has no sign.
///
/// The error is want of memory; it also comes where an extent or a number of levels doesn't fit its
/// type, where the text behind `constant=` is no number of 32 bits, or where the name of a level or
/// of a variable is none that a `Name` can hold, which no config of a Registry that was read has.
pub fn levels(alloc: Global, config: &Config, hooks: &[HookName]) -> Result<Levels, AllocError>
    ensures fields { IfOk result
        (λ l. l.fields ≡ fields_from config.now hooks.now 0 config.now.fields) }
    ensures extents { IfOk result (λ l. l.extents ≡ z_extents config.now) }
{
    let made = made_of(alloc, config, hooks, config.fields.as_slice())?;
    Ok(Levels {
        fields: List::from_vec(made.fields),
        extents: List::from_vec(made.extents),
    })
}
