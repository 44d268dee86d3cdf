//! The headers of the files that this project writes: what a stream of a domain holds.

ghost use Rattle.std.specs.Prelude.{◌≡◌, ℕ, ◌+◌, ◌-◌, ◌*◌, ◌<◌, ◌≤◌, ◌^◌, ◌∷◌, ◌++◌, []};
ghost use Rattle.std.specs.Prelude.{if◌then◌else◌, All, IfOk, fold, length, map, position};
ghost use Rattle.std.specs.List.{list_any};
ghost use Rattle.std.specs.Str.{bytes_eq};
ghost use Rattle.wf_model.specs.Headers.{text_att, int_att, dim_name, dim, dim_x, dim_y, dim_z};
ghost use Rattle.wf_model.specs.Headers.{dims_of_level, add_dim, letters, level_atts, times_var};
ghost use Rattle.wf_model.specs.Headers.{file_header};
ghost use Rattle.wf_model.specs.Plans.{domain_of, field_of};
ghost use Rattle.wf_model.specs.Ranges.{IsRangedField};
ghost use Rattle.wf_model.specs.Sound.{IsDomain, IsLevel};
ghost use Rattle.wf_model.specs.Streams.{one_if, level_suffix, stream_levels, variable_name};
ghost use Rattle.wf_cdf.specs.StreamLevels.{holds, dims_of_levels, number_named, level_numbers};
ghost use Rattle.wf_cdf.specs.StreamLevels.{written_var, global_atts};
ghost use Rattle.wf_model.specs.declared.header.Dim.{Dim};

use std::alloc::{AllocError, Global};
use wf_model::cdf_type::{CHAR, INT};
use wf_model::extents::file_points;
use wf_model::limits::RESTART_STREAM;
use wf_model::{Att, Bytes, Dim, Domain, Field, Header, List, Plan, Var};

fn bytes(alloc: Global, text: &[u8]) -> Result<Bytes, AllocError>
    ensures { IfOk result (λ b. b ≡ text.now) }
{
    Ok(Bytes::from_vec(Vec::from_slice(alloc, text)?))
}

fn text_att(alloc: Global, name: &[u8], text: &[u8]) -> Result<Att, AllocError>
    requires { length text.now < 2 ^ 31 }
    ensures { IfOk result (λ a. a ≡ text_att name.now text.now) }
{
    Ok(Att {
        name: bytes(alloc, name)?,
        kind: CHAR,
        count: text.len() as u32,
        bytes: bytes(alloc, text)?,
    })
}

fn int_att(alloc: Global, name: &[u8], n: u32) -> Result<Att, AllocError>
    ensures { IfOk result (λ a. a ≡ int_att name.now n) }
{
    Ok(Att {
        name: bytes(alloc, name)?,
        kind: INT,
        count: 1,
        bytes: bytes(alloc, &n.to_be_bytes())?,
    })
}

// ---- dimensions

/// The name of a dimension: a staggered one has its own.
fn dim_name(alloc: Global, name: &[u8], staggered: bool) -> Result<Bytes, AllocError>
    ensures { IfOk result (λ b. b ≡ dim_name name.now staggered) }
{
    let mut whole = Vec::from_slice(alloc, name)?;
    if staggered {
        whole.extend_from_slice(b"_stag")?;
    }
    Ok(Bytes::from_vec(whole))
}

fn dim(alloc: Global, name: &[u8], staggered: bool, len: u32) -> Result<Dim, AllocError>
    ensures { IfOk result (λ d. d ≡ dim (dim_name name.now staggered) len) }
{
    Ok(Dim {
        name: dim_name(alloc, name, staggered)?,
        len,
    })
}

/// The domain of a number, from 1.
#[tactic(auto, unfolding(wf_model::specs::Plans::domain_of))]
fn domain_of(plan: &Plan, domain: u32) -> &Domain
    requires { IsDomain plan.now domain }
    ensures { result.now ≡ domain_of plan.now domain }
{
    &plan.domains.as_slice()[domain as usize - 1]
}

/// The field level of a number, from 0.
#[tactic(auto, unfolding(wf_model::specs::Plans::field_of))]
fn field_of(plan: &Plan, level: usize) -> &Field
    requires { IsLevel plan.now level }
    ensures { result.now ≡ field_of plan.now level }
{
    &plan.fields.as_slice()[level]
}

fn dim_x(alloc: Global, plan: &Plan, domain: u32, level: usize) -> Result<Dim, AllocError>
    requires { IsDomain plan.now domain × IsLevel plan.now level }
    ensures { IfOk result (λ x. x ≡ dim_x plan.now domain level) }
{
    let field = field_of(plan, level);
    let len = file_points(domain_of(plan, domain).ide, field.stag_x);
    dim(alloc, field.x_name.as_slice(), field.stag_x, len)
}

fn dim_y(alloc: Global, plan: &Plan, domain: u32, level: usize) -> Result<Dim, AllocError>
    requires { IsDomain plan.now domain × IsLevel plan.now level }
    ensures { IfOk result (λ y. y ≡ dim_y plan.now domain level) }
{
    let field = field_of(plan, level);
    let len = file_points(domain_of(plan, domain).jde, field.stag_y);
    dim(alloc, field.y_name.as_slice(), field.stag_y, len)
}

fn dim_z(alloc: Global, plan: &Plan, level: usize) -> Result<Dim, AllocError>
    requires { IsLevel plan.now level }
    ensures { IfOk result (λ z. z ≡ dim_z plan.now level) }
{
    let field = field_of(plan, level);
    dim(alloc, field.z_name.as_slice(), field.stag_z, field.nz)
}

/// The place of the first dimension of this name.
fn find_dim(dims: &[Dim], name: &[u8]) -> Option<usize>
    ensures { result ≡ position (λ (y : Dim). bytes_eq y.name name.now) dims.now }
{
    dims.iter().position(|d| d.name.as_slice() == name)
}

fn has_dim(dims: &[Dim], name: &[u8]) -> bool
    ensures { result ≡ list_any (λ (y : Dim). bytes_eq y.name name.now) dims.now }
{
    dims.iter().any(|d| d.name.as_slice() == name)
}

/// A dimension more, but each name once, where it comes first.
fn add_dim(mut dims: Vec<Dim>, dim: Dim) -> Result<Vec<Dim>, AllocError>
    ensures dims { IfOk result (λ v. v.items ≡ add_dim dims.items dim) }
    ensures few { IfOk result (λ v. length v.items ≤ length dims.items + 1) }
{
    if !has_dim(&dims, dim.name.as_slice()) {
        dims.push(dim)?;
    }
    Ok(dims)
}

/// The dimensions of a level more, in order x, y, z.
fn add_dims_of_level(
    alloc: Global,
    dims: Vec<Dim>,
    plan: &Plan,
    domain: u32,
    level: usize,
) -> Result<Vec<Dim>, AllocError>
    requires { IsDomain plan.now domain × IsLevel plan.now level }
    ensures dims { IfOk result
        (λ v. v.items ≡ fold add_dim dims.items (dims_of_level plan.now domain level)) }
    ensures few { IfOk result (λ v. length v.items ≤ length dims.items + 3) }
{
    let dims = add_dim(dims, dim_x(alloc, plan, domain, level)?)?;
    let dims = add_dim(dims, dim_y(alloc, plan, domain, level)?)?;
    if field_of(plan, level).z {
        add_dim(dims, dim_z(alloc, plan, level)?)
    } else {
        Ok(dims)
    }
}

/// `Time`, which is the record dimension, `DateStrLen`, and those of the levels, each at its
/// first use.
#[tactic(auto, using(crate::proofs::LevelLoops::dims_more, crate::proofs::LevelLoops::dims_none))]
fn dims_of(
    alloc: Global,
    plan: &Plan,
    domain: u32,
    levels: &[usize],
) -> Result<Vec<Dim>, AllocError>
    requires { IsDomain plan.now domain × All (IsLevel plan.now) levels.now }
    ensures dims { IfOk result (λ v. v.items ≡ dims_of_levels plan.now domain levels.now) }
    ensures few { IfOk result (λ v. length v.items ≤ 2 + 3 * length levels.now) }
{
    let time = dim(alloc, b"Time", false, 0)?;
    let text = dim(alloc, b"DateStrLen", false, 19)?;
    let mut dims = vec![in alloc; time, text]?;
    for level in levels {
        dims = add_dims_of_level(alloc, dims, plan, domain, *level)?;
    }
    Ok(dims)
}

// ---- levels of a stream

/// Whether a stream holds a level: restart files all that are restarted, the others the last level
/// of each field that names the stream.
fn is_in_stream(field: &Field, stream: u32) -> bool
    requires { stream ≤ 10 }
    ensures { result ≡ holds stream field.now }
{
    if stream == RESTART_STREAM {
        field.restart
    } else {
        field.last && (field.streams >> stream) & 1 == 1
    }
}

/// The levels with one more, if it is held.
fn with_level(mut levels: Vec<usize>, level: usize, is_held: bool) -> Result<Vec<usize>, AllocError>
    ensures { IfOk result (λ v. v.items ≡ levels.items ++ (if is_held then level ∷ [] else [])) }
{
    if is_held {
        levels.push(level)?;
    }
    Ok(levels)
}

/// The levels that a stream holds, by number from 0, in order. Streams are 0 for history, 1 to 9
/// for auxiliary history and 10 for restart files, which hold all levels with `r`; the others hold
/// the last level of each field with their `h`.
#[tactic(auto, using(crate::proofs::LevelLoops::levels_more), unfolding(wf_model::specs::Streams::stream_levels))]
pub fn stream_levels(alloc: Global, plan: &Plan, stream: u32) -> Result<Vec<usize>, AllocError>
    requires { stream ≤ 10 }
    ensures levels { IfOk result (λ v. v.items ≡ stream_levels plan.now stream) }
{
    let mut levels = Vec::new(alloc);
    for level in 0..plan.fields.as_slice().len() {
        levels = with_level(levels, level, is_in_stream(field_of(plan, level), stream))?;
    }
    Ok(levels)
}

// ---- variables

/// The letters of the directions in which it is staggered.
fn letters(alloc: Global, field: &Field) -> Result<Vec<u8>, AllocError>
    ensures { IfOk result (λ v. v.items ≡ letters field.now) }
{
    let mut letters = Vec::new(alloc);
    if field.stag_x {
        letters.push(b'X')?;
    }
    if field.stag_y {
        letters.push(b'Y')?;
    }
    if field.stag_z {
        letters.push(b'Z')?;
    }
    Ok(letters)
}

fn level_atts(alloc: Global, field: &Field) -> Result<List<Att>, AllocError>
    requires { IsRangedField field.now }
    ensures { IfOk result (λ l. l ≡ level_atts field.now) }
{
    let kind = int_att(alloc, b"FieldType", 106)?;
    let order = text_att(alloc, b"MemoryOrder", if field.z { b"XYZ" } else { b"XY " })?;
    let description = text_att(alloc, b"description", field.description.as_slice())?;
    let units = text_att(alloc, b"units", field.units.as_slice())?;
    let stagger = text_att(alloc, b"stagger", &letters(alloc, field)?)?;
    Ok(List::from_vec(vec![in alloc; kind, order, description, units, stagger]?))
}

/// The names of a field's two levels differ in restart files: `_1` the first and `_2` the last.
fn level_suffix(field: &Field, level: usize) -> &'static [u8]
    ensures { result.now ≡ level_suffix field.now level }
{
    if field.pair as usize == level {
        b""
    } else if field.last {
        b"_2"
    } else {
        b"_1"
    }
}

/// The name of a level in files: its data name, in restart files with the level.
fn variable_name(alloc: Global, plan: &Plan, stream: u32, level: usize) -> Result<Bytes, AllocError>
    requires { IsLevel plan.now level }
    ensures { IfOk result (λ b. b ≡ variable_name plan.now stream level) }
{
    let field = field_of(plan, level);
    let mut name = Vec::from_slice(alloc, field.dname.as_slice())?;
    if stream == RESTART_STREAM {
        name.extend_from_slice(level_suffix(field, level))?;
    }
    Ok(Bytes::from_vec(name))
}

/// The number of the dimension of this name among the dimensions, or their count where there
/// is none.
#[tactic(auto, using(wf_model::proofs::FirstPlaces::found, wf_model::proofs::FirstPlaces::not_found))]
fn number_of(dims: &[Dim], name: &[u8]) -> u32
    requires { length dims.now < 2 ^ 32 }
    ensures { result ≡ number_named dims.now name.now }
{
    match find_dim(dims, name) {
        Some(place) => place as u32,
        None => dims.len() as u32,
    }
}

/// The number of the dimension with this name, staggered or not.
fn dim_number(alloc: Global, dims: &[Dim], name: &[u8], staggered: bool) -> Result<u32, AllocError>
    requires { length dims.now < 2 ^ 32 }
    ensures { IfOk result (λ n. n ≡ number_named dims.now (dim_name name.now staggered)) }
{
    let name = dim_name(alloc, name, staggered)?;
    Ok(number_of(dims, name.as_slice()))
}

/// The number of Time, and of z where the level has one.
fn first_numbers(alloc: Global, dims: &[Dim], field: &Field) -> Result<Vec<u32>, AllocError>
    requires { length dims.now < 2 ^ 32 }
    ensures { IfOk result (λ v. v.items ≡ 0 ∷ (if field.now.z
        then number_named dims.now (dim_name field.now.z_name field.now.stag_z) ∷ [] else [])) }
{
    if !field.z {
        return Ok(vec![in alloc; 0]?);
    }
    let z = dim_number(alloc, dims, field.z_name.as_slice(), field.stag_z)?;
    Ok(vec![in alloc; 0, z]?)
}

/// The numbers of a level's dimensions: Time, z where it has one, y and x.
#[tactic(auto, using(crate::proofs::LevelLoops::two_more))]
fn level_numbers(alloc: Global, dims: &[Dim], field: &Field) -> Result<List<u32>, AllocError>
    requires { length dims.now < 2 ^ 32 }
    ensures { IfOk result (λ l. l ≡ level_numbers dims.now field.now) }
{
    let mut numbers = first_numbers(alloc, dims, field)?;
    let y = dim_number(alloc, dims, field.y_name.as_slice(), field.stag_y)?;
    let x = dim_number(alloc, dims, field.x_name.as_slice(), field.stag_x)?;
    numbers.push(y)?;
    numbers.push(x)?;
    Ok(List::from_vec(numbers))
}

/// A level as a variable of whole numbers.
fn level_var(
    alloc: Global,
    plan: &Plan,
    level: usize,
    stream: u32,
    dims: &[Dim],
) -> Result<Var, AllocError>
    requires { IsLevel plan.now level × IsRangedField (field_of plan.now level)
        × (length dims.now < 2 ^ 32) }
    ensures { IfOk result (λ v. v ≡ written_var plan.now stream dims.now level) }
{
    Ok(Var {
        name: variable_name(alloc, plan, stream, level)?,
        dims: level_numbers(alloc, dims, field_of(plan, level))?,
        atts: level_atts(alloc, field_of(plan, level))?,
        kind: INT,
        vsize: 0,
        begin: 0,
    })
}

/// The time texts as a variable, by Time and DateStrLen.
fn times_var(alloc: Global) -> Result<Var, AllocError>
    ensures { IfOk result (λ v. v ≡ times_var) }
{
    Ok(Var {
        name: bytes(alloc, b"Times")?,
        dims: List::from_vec(vec![in alloc; 0, 1]?),
        atts: List::from_vec(Vec::new(alloc)),
        kind: CHAR,
        vsize: 0,
        begin: 0,
    })
}

/// `Times`, and then the levels in order.
#[tactic(auto, using(crate::proofs::LevelLoops::ranged))]
fn vars_of(
    alloc: Global,
    plan: &Plan,
    stream: u32,
    dims: &[Dim],
    levels: &[usize],
) -> Result<List<Var>, AllocError>
    requires levels { All (IsLevel plan.now) levels.now }
    requires fields { All IsRangedField plan.now.fields }
    requires dims { length dims.now < 2 ^ 32 }
    ensures { IfOk result
        (λ l. l ≡ times_var ∷ map (written_var plan.now stream dims.now) levels.now) }
{
    let mut vars = vec![in alloc; times_var(alloc)?]?;
    for level in levels {
        vars.push(level_var(alloc, plan, *level, stream, dims)?)?;
    }
    Ok(List::from_vec(vars))
}

// ---- headers

/// The global attributes: START_DATE, GRID_ID, and in restart files STEPS, at most 2,147,483,647.
fn global_atts(
    alloc: Global,
    domain: u32,
    stream: u32,
    start_text: &[u8],
    steps: u64,
) -> Result<List<Att>, AllocError>
    requires { length start_text.now < 2 ^ 31 }
    ensures { IfOk result (λ l. l ≡ global_atts domain stream start_text.now steps) }
{
    let start = text_att(alloc, b"START_DATE", start_text)?;
    let grid = int_att(alloc, b"GRID_ID", domain)?;
    let mut atts = vec![in alloc; start, grid]?;
    if stream == RESTART_STREAM {
        atts.push(int_att(alloc, b"STEPS", steps.min(2_147_483_647) as u32)?)?;
    }
    Ok(List::from_vec(atts))
}

/// The header of the files of a stream of a domain, with no record and nothing placed.
///
/// Domains count from 1. Streams 0 to 9 are history and auxiliary streams, which hold the last
/// level of each field that names the stream, and 10 are restart files, which hold all levels that
/// are restarted. Dimensions stand in the order of their first use, of a variable x, y, z;
/// variables are `Times` and then the levels, by Time, z, y, x. `start_text` is the domain's start,
/// and `steps`, which restart files hold, how many steps it has taken. Names, attributes and their
/// order are this project's own; dimensions and attributes are written as WRF writes them.
#[tactic(auto, using(crate::proofs::LevelLoops::levels_few, crate::proofs::LevelLoops::levels_within), unfolding(wf_model::specs::Headers::file_header, wf_model::specs::Headers::dims_of, crate::specs::StreamLevels::dims_of_levels))]
pub fn file_header(
    alloc: Global,
    plan: &Plan,
    domain: u32,
    stream: u32,
    start_text: &[u8; 19],
    steps: u64,
) -> Result<Header, AllocError>
    requires domain { IsDomain plan.now domain }
    requires stream { stream ≤ 10 }
    requires fields { All IsRangedField plan.now.fields }
    requires few { length plan.now.fields ≤ 64 }
    ensures { IfOk result (λ h. h ≡ file_header plan.now domain stream start_text.now steps) }
{
    let levels = stream_levels(alloc, plan, stream)?;
    let dims = dims_of(alloc, plan, domain, &levels)?;
    let vars = vars_of(alloc, plan, stream, &dims, &levels)?;
    Ok(Header {
        version: plan.version,
        numrecs: 0,
        dims: List::from_vec(dims),
        atts: global_atts(alloc, domain, stream, start_text.as_slice(), steps)?,
        vars,
    })
}
