//! The levels of a domain, read from an input file or filled with 0.

ghost use Rattle.std.specs.Prelude.{◌≡◌, ◌+◌, ◌-◌, ◌*◌, ◌≤◌, None, [], ◌∷◌, All, length, map, IfOk};
ghost use Rattle.std.specs.Prelude.{IsOk, IsTrue};
ghost use Rattle.wf_model.specs.CdfRead.{ints};
ghost use Rattle.wf_model.specs.InputOf.{all_slabs, asked, bytes_read, grids_read, is_input};
ghost use Rattle.wf_model.specs.InputOf.{level_read, slab_read, slabs_fault, zeros};
ghost use Rattle.wf_model.specs.Plans.{domain_of, extra, field_of, levels_of};
ghost use Rattle.wf_model.specs.Ranges.{IsRangedField};
ghost use Rattle.wf_model.specs.Sizes.{product};
ghost use Rattle.wf_model.specs.Sound.{IsDomain, IsLevel};
ghost use Rattle.wf_model.specs.Streams.{one_if};
ghost use Rattle.wf_stream.specs.Levels.{HasLevels, asked_in, level_begin, shape_in};

use crate::own_points::{Extents, own_points};
use std::alloc::{AllocError, Global};
use wf_cdfread::{ValuesError, slab};
use wf_model::extents::{file_points, points};
use wf_model::{Domain, Field, Header, List, Plan};

/// The domain of a number, from 1.
#[tactic(auto, unfolding(wf_model::specs::Plans::domain_of))]
pub(crate) fn domain_of(plan: &Plan, number: u32) -> &Domain
    requires { IsDomain plan.now number }
    ensures { result.now ≡ domain_of plan.now number }
{
    &plan.domains.as_slice()[number as usize - 1]
}

/// The field level of a number, from 0.
#[tactic(auto, unfolding(wf_model::specs::Plans::field_of))]
pub(crate) fn field_of(plan: &Plan, level: usize) -> &Field
    requires { IsLevel plan.now level }
    ensures { result.now ≡ field_of plan.now level }
{
    &plan.fields.as_slice()[level]
}

fn extents_of(domain: &Domain, field: &Field) -> Extents
    ensures levels { result.levels ≡ field.now.nz }
    ensures rows { result.rows ≡ domain.now.jde - 1 + extra field.now.stag_y domain.now.periodic_y }
    ensures columns { result.columns
        ≡ domain.now.ide - 1 + extra field.now.stag_x domain.now.periodic_x }
    ensures file_rows { result.file_rows ≡ domain.now.jde - 1 + one_if field.now.stag_y }
    ensures file_columns { result.file_columns ≡ domain.now.ide - 1 + one_if field.now.stag_x }
{
    Extents {
        levels: field.nz,
        rows: points(domain.jde, field.stag_y, domain.periodic_y),
        columns: points(domain.ide, field.stag_x, domain.periodic_x),
        file_rows: file_points(domain.jde, field.stag_y),
        file_columns: file_points(domain.ide, field.stag_x),
    }
}

/// The lengths of a level in files: those in z, y and x.
pub(crate) fn lengths_of(domain: &Domain, field: &Field) -> [u32; 3]
    ensures { result ≡ field.now.nz ∷ (domain.now.jde - 1 + one_if field.now.stag_y)
        ∷ (domain.now.ide - 1 + one_if field.now.stag_x) ∷ [] }
{
    [
        field.nz,
        file_points(domain.jde, field.stag_y),
        file_points(domain.ide, field.stag_x),
    ]
}

/// The same as the shape of its variable: a field without a z letter has none in z.
pub(crate) fn shape_of<'a>(domain: &Domain, field: &Field, lengths: &'a [u32; 3]) -> &'a [u32]
    requires { lengths.now ≡ field.now.nz ∷ (domain.now.jde - 1 + one_if field.now.stag_y)
        ∷ (domain.now.ide - 1 + one_if field.now.stag_x) ∷ [] }
    ensures { result.now ≡ shape_in domain.now field.now }
{
    if field.z { &lengths[..] } else { &lengths[1..] }
}

/// How many points of its own a level has. A number that doesn't fit counts as want of memory.
fn count_of(extents: Extents) -> Result<usize, AllocError>
    ensures { IfOk result (λ n. n ≡ extents.levels * (extents.rows * extents.columns)) }
{
    let count = u128::from(extents.levels)
        * (u128::from(extents.rows) * u128::from(extents.columns));
    match usize::try_from(count) {
        Ok(count) => Ok(count),
        Err(_) => Err(AllocError),
    }
}

/// A level that nothing gives.
fn zeros(alloc: Global, plan: &Plan, number: u32, level: usize) -> Result<List<i32>, AllocError>
    requires domain { IsDomain plan.now number }
    requires level { IsLevel plan.now level }
    ensures { IfOk result (λ l. l ≡ zeros plan.now number level) }
{
    let count = count_of(extents_of(domain_of(plan, number), field_of(plan, level)))?;
    Ok(List::from_vec(vec![in alloc; 0; count]?))
}

/// The numbers of a level's variable in a file that has them.
fn numbers(
    alloc: Global,
    domain: &Domain,
    field: &Field,
    bytes: &[u8],
    header: &Header,
) -> Result<Vec<i32>, AllocError>
    requires found { IsOk (slab_read bytes.now header.now (asked_in domain.now field.now)) }
    ensures value { IfOk result (λ v. v.items ≡ ints (product (shape_in domain.now field.now))
        (bytes_read (slab_read bytes.now header.now (asked_in domain.now field.now)))) }
    ensures size { IfOk result (λ v. length v.items ≡ product (shape_in domain.now field.now)) }
{
    let lengths = lengths_of(domain, field);
    let shape = shape_of(domain, field, &lengths);
    match slab(alloc, bytes, header, field.dname.as_slice(), shape, 0) {
        Ok(values) => Ok(values),
        Err(ValuesError::Memory) => Err(AllocError),
        Err(ValuesError::Fault(_)) => unreachable!(),
    }
}

/// A level, read from a file that has its variable.
fn read_level(
    alloc: Global,
    plan: &Plan,
    number: u32,
    level: usize,
    bytes: &[u8],
    header: &Header,
) -> Result<List<i32>, AllocError>
    requires domain { IsDomain plan.now number }
    requires level { IsLevel plan.now level }
    requires field { IsRangedField (field_of plan.now level) }
    requires found { IsOk (slab_read bytes.now header.now
        (asked_in (domain_of plan.now number) (field_of plan.now level))) }
    ensures { IfOk result (λ l. l ≡ level_read plan.now number 0 bytes.now header.now level) }
{
    let domain = domain_of(plan, number);
    let field = field_of(plan, level);
    let values = numbers(alloc, domain, field, bytes, header)?;
    Ok(List::from_vec(own_points(values, extents_of(domain, field))))
}

/// What a level begins with where there is an input file: what the file gives, or 0.
fn level_begin(
    alloc: Global,
    plan: &Plan,
    number: u32,
    level: usize,
    bytes: &[u8],
    header: &Header,
) -> Result<List<i32>, AllocError>
    requires domain { IsDomain plan.now number }
    requires level { IsLevel plan.now level }
    requires field { IsRangedField (field_of plan.now level) }
    requires found { IsTrue (is_input plan.now level) → IsOk (slab_read bytes.now header.now
        (asked_in (domain_of plan.now number) (field_of plan.now level))) }
    ensures { IfOk result (λ l. l ≡ level_begin plan.now number bytes.now header.now level) }
{
    if field_of(plan, level).input {
        read_level(alloc, plan, number, level, bytes, header)
    } else {
        zeros(alloc, plan, number, level)
    }
}

/// The levels that an input file gives, and 0 for the others.
pub(crate) fn grids_read(
    alloc: Global,
    plan: &Plan,
    number: u32,
    bytes: &[u8],
    header: &Header,
) -> Result<List<List<i32>>, AllocError>
    requires domain { IsDomain plan.now number }
    requires fields { All IsRangedField plan.now.fields }
    requires found { slabs_fault bytes.now
        (all_slabs plan.now number 0 (is_input plan.now) bytes.now header.now) ≡ None }
    ensures value { IfOk result
        (λ g. g ≡ grids_read plan.now number 0 (is_input plan.now) bytes.now header.now) }
    ensures levels { IfOk result (HasLevels plan.now number) }
{
    let mut grids = Vec::new(alloc);
    for level in 0..plan.fields.as_slice().len() {
        grids.push(level_begin(alloc, plan, number, level, bytes, header)?)?;
    }
    Ok(List::from_vec(grids))
}

/// All levels with 0.
pub(crate) fn all_zeros(
    alloc: Global,
    plan: &Plan,
    number: u32,
) -> Result<List<List<i32>>, AllocError>
    requires domain { IsDomain plan.now number }
    ensures value { IfOk result (λ g. g ≡ map (zeros plan.now number) (levels_of plan.now)) }
    ensures levels { IfOk result (HasLevels plan.now number) }
{
    let mut grids = Vec::new(alloc);
    for level in 0..plan.fields.as_slice().len() {
        grids.push(zeros(alloc, plan, number, level)?)?;
    }
    Ok(List::from_vec(grids))
}
