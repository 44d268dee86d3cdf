ghost use Rattle.std.specs.Prelude.{◌≡◌, ◌≤◌, ◌⊎◌, ◌*◌, ◌<◌, ◌^◌, ◌↔◌, All, length, filter};
ghost use Rattle.std.specs.Prelude.{count_by, IsTrue, not};
ghost use Rattle.wf_model.specs.Sizes.{type_size, is_record_dim, dim_of, rest_of};
ghost use Rattle.wf_model.specs.SoundHeader.{IsCount, IsKind, IsSoundDim, IsSoundAtt, IsSoundVar};
ghost use Rattle.wf_model.specs.SoundHeader.{IsSoundHeader, BeginsFit};

use crate::size::{all_but_first, type_size};
use wf_model::{Att, Dim, Header, Var};

fn is_count(length: usize) -> bool
    ensures { IsTrue result ↔ IsCount length }
{
    length <= 2_147_483_647
}

fn is_sound_dim(dim: &Dim) -> bool
    ensures { IsTrue result ↔ IsSoundDim dim.now }
{
    is_count(dim.name.as_slice().len()) && is_count(dim.len as usize)
}

fn is_sound_att(att: &Att) -> bool
    ensures { IsTrue result ↔ IsSoundAtt att.now }
{
    if !is_kind(att.kind) {
        return false;
    }
    let bytes = u64::from(att.count) * u64::from(type_size(att.kind));
    is_count(att.name.as_slice().len())
        && is_count(att.count as usize)
        && att.bytes.as_slice().len() as u64 == bytes
}

fn are_sound_atts(atts: &[Att]) -> bool
    ensures { IsTrue result ↔ All IsSoundAtt atts.now }
{
    atts.iter().all(|att| is_sound_att(att))
}

fn are_sound_dims(dims: &[Dim]) -> bool
    ensures { IsTrue result ↔ All IsSoundDim dims.now }
{
    dims.iter().all(|dim| is_sound_dim(dim))
}

fn record_dims(dims: &[Dim]) -> usize
    ensures { result ≡ count_by is_record_dim dims.now }
{
    dims.iter().filter(|dim| dim.len == 0).count()
}

/// Whether there is at most one record dimension.
fn has_one_record(dims: &[Dim]) -> bool
    ensures { IsTrue result ↔ (length (filter is_record_dim dims.now) ≤ 1) }
{
    record_dims(dims) <= 1
}

/// Whether these dimensions are there.
fn are_there(dims: &[Dim], numbers: &[u32]) -> bool
    ensures { IsTrue result ↔ All (λ n. n < length dims.now) numbers.now }
{
    numbers.iter().all(|number| (*number as usize) < dims.len())
}

/// Whether none of these dimensions is the record dimension.
fn are_fixed(dims: &[Dim], numbers: &[u32]) -> bool
    requires { All (λ n. n < length dims.now) numbers.now }
    ensures { IsTrue result
        ↔ All (λ n. IsTrue (not (is_record_dim (dim_of dims.now n)))) numbers.now }
{
    for number in numbers {
        if dims[*number as usize].len == 0 {
            return false;
        }
    }
    true
}

/// Whether the record dimension is none of these but the first.
fn has_record_first(dims: &[Dim], numbers: &[u32]) -> bool
    requires { All (λ n. n < length dims.now) numbers.now }
    ensures { IsTrue result
        ↔ All (λ n. IsTrue (not (is_record_dim (dim_of dims.now n)))) (rest_of numbers.now) }
{
    are_fixed(dims, all_but_first(numbers))
}

fn is_kind(kind: u8) -> bool
    ensures { IsTrue result ↔ IsKind kind }
{
    1 <= kind && kind <= 6
}

fn is_sound_var(dims: &[Dim], var: &Var) -> bool
    ensures { IsTrue result ↔ IsSoundVar dims.now var.now }
{
    let numbers = var.dims.as_slice();
    let atts = var.atts.as_slice();
    if !are_there(dims, numbers) {
        return false;
    }
    has_record_first(dims, numbers)
        && is_count(var.name.as_slice().len())
        && is_kind(var.kind)
        && is_count(numbers.len())
        && is_count(atts.len())
        && are_sound_atts(atts)
}

fn are_sound_vars(dims: &[Dim], vars: &[Var]) -> bool
    ensures { IsTrue result ↔ All (IsSoundVar dims.now) vars.now }
{
    vars.iter().all(|var| is_sound_var(dims, var))
}

/// Whether a header can be placed and written: it has version 1 or 2, numrecs below 4,294,967,295,
/// types from 1 to 6, at most one record dimension and that the first of any variable's, dimension
/// numbers from 0 and below their count, attributes' bytes as long as type and count say, and all
/// counts, lengths and ranks at most 2,147,483,647. These are the netCDF classic format's rules.
pub fn is_sound(header: &Header) -> bool
    ensures { IsTrue result ↔ IsSoundHeader header.now }
{
    let dims = header.dims.as_slice();
    let atts = header.atts.as_slice();
    let vars = header.vars.as_slice();
    let head = (header.version == 1 || header.version == 2) && header.numrecs < u32::MAX;
    let counts = is_count(dims.len()) && is_count(atts.len()) && is_count(vars.len());
    head && counts
        && are_sound_dims(dims)
        && has_one_record(dims)
        && are_sound_atts(atts)
        && are_sound_vars(dims, vars)
}

fn are_narrow(vars: &[Var]) -> bool
    ensures { IsTrue result ↔ All (λ v. v.begin < 2 ^ 32) vars.now }
{
    vars.iter().all(|var| var.begin <= 4_294_967_295)
}

/// Whether each begin fits the version: it has four bytes in version 1, and eight in version 2
/// (netCDF classic format).
pub fn begins_fit(header: &Header) -> bool
    ensures { IsTrue result ↔ BeginsFit header.now }
{
    header.version != 1 || are_narrow(header.vars.as_slice())
}
