ghost use Rattle.std.specs.Prelude.{◌≡◌, ◌+◌, ◌*◌, ◌^◌, ◌<◌, ◌++◌, IfOk, OnOk, All, length};
ghost use Rattle.std.specs.Prelude.{flat_map, ◌==◌, if◌then◌else◌};
ghost use Rattle.wf_model.specs.Bytes.{four_bytes, name_bytes, dim_bytes, att_bytes, begin_bytes};
ghost use Rattle.wf_model.specs.Bytes.{var_bytes, list_bytes, header_bytes};
ghost use Rattle.wf_model.specs.SoundHeader.{IsCount, IsSoundDim, IsSoundAtt, IsSoundVar};
ghost use Rattle.wf_model.specs.SoundHeader.{IsSoundHeader, BeginsFit};

use crate::length::header_length;
use crate::padding::put_padded;
use std::alloc::{AllocError, Global};
use wf_model::{Att, Dim, Header, Var};

const DIMENSIONS: u32 = 10;

const VARIABLES: u32 = 11;

const ATTRIBUTES: u32 = 12;

fn put_word(out: &mut Vec<u8>, word: u32) -> Result<(), AllocError>
    ensures { OnOk result (out.new.items ≡ out.old.items ++ four_bytes word) }
{
    out.extend_from_slice(&word.to_be_bytes())
}

fn put_name(out: &mut Vec<u8>, name: &[u8]) -> Result<(), AllocError>
    requires { IsCount (length name.now) }
    ensures { OnOk result (out.new.items ≡ out.old.items ++ name_bytes name.now) }
{
    put_word(out, name.len() as u32)?;
    put_padded(out, name)
}

/// The tag and count of a list: two zeros where it is empty.
fn put_tag(out: &mut Vec<u8>, tag: u32, count: usize) -> Result<(), AllocError>
    requires { IsCount count }
    ensures { OnOk result (out.new.items
        ≡ out.old.items ++ (four_bytes (if count == 0 then 0 else tag) ++ four_bytes count)) }
{
    put_word(out, if count == 0 { 0 } else { tag })?;
    put_word(out, count as u32)
}

fn put_dim(out: &mut Vec<u8>, dim: &Dim) -> Result<(), AllocError>
    requires { IsSoundDim dim.now }
    ensures { OnOk result (out.new.items ≡ out.old.items ++ dim_bytes dim.now) }
{
    put_name(out, dim.name.as_slice())?;
    put_word(out, dim.len)
}

fn put_dims(out: &mut Vec<u8>, dims: &[Dim]) -> Result<(), AllocError>
    requires count { IsCount (length dims.now) }
    requires each { All IsSoundDim dims.now }
    ensures { OnOk result (out.new.items ≡ out.old.items ++ list_bytes 10 dim_bytes dims.now) }
{
    put_tag(out, DIMENSIONS, dims.len())?;
    for dim in dims {
        put_dim(out, dim)?;
    }
    Ok(())
}

fn put_att(out: &mut Vec<u8>, att: &Att) -> Result<(), AllocError>
    requires { IsSoundAtt att.now }
    ensures { OnOk result (out.new.items ≡ out.old.items ++ att_bytes att.now) }
{
    put_name(out, att.name.as_slice())?;
    put_word(out, u32::from(att.kind))?;
    put_word(out, att.count)?;
    put_padded(out, att.bytes.as_slice())
}

fn put_atts(out: &mut Vec<u8>, atts: &[Att]) -> Result<(), AllocError>
    requires count { IsCount (length atts.now) }
    requires each { All IsSoundAtt atts.now }
    ensures { OnOk result (out.new.items ≡ out.old.items ++ list_bytes 12 att_bytes atts.now) }
{
    put_tag(out, ATTRIBUTES, atts.len())?;
    for att in atts {
        put_att(out, att)?;
    }
    Ok(())
}

fn put_shape(out: &mut Vec<u8>, numbers: &[u32]) -> Result<(), AllocError>
    requires { IsCount (length numbers.now) }
    ensures { OnOk result (out.new.items
        ≡ out.old.items ++ (four_bytes (length numbers.now) ++ flat_map four_bytes numbers.now)) }
{
    put_word(out, numbers.len() as u32)?;
    for number in numbers {
        put_word(out, *number)?;
    }
    Ok(())
}

/// A begin has four bytes in version 1, and eight in version 2.
fn put_begin(out: &mut Vec<u8>, version: u8, begin: u64) -> Result<(), AllocError>
    requires { version ≡ 1 → begin < 2 ^ 32 }
    ensures { OnOk result (out.new.items ≡ out.old.items ++ begin_bytes version begin) }
{
    if version == 1 {
        put_word(out, begin as u32)
    } else {
        out.extend_from_slice(&begin.to_be_bytes())
    }
}

fn put_var(out: &mut Vec<u8>, version: u8, var: &Var) -> Result<(), AllocError>
    requires name { IsCount (length var.now.name) }
    requires rank { IsCount (length var.now.dims) }
    requires count { IsCount (length var.now.atts) }
    requires atts { All IsSoundAtt var.now.atts }
    requires begin { version ≡ 1 → var.now.begin < 2 ^ 32 }
    ensures { OnOk result (out.new.items ≡ out.old.items ++ var_bytes version var.now) }
{
    put_name(out, var.name.as_slice())?;
    put_shape(out, var.dims.as_slice())?;
    put_atts(out, var.atts.as_slice())?;
    put_word(out, u32::from(var.kind))?;
    put_word(out, var.vsize)?;
    put_begin(out, version, var.begin)
}

fn put_vars(out: &mut Vec<u8>, version: u8, dims: &[Dim], vars: &[Var]) -> Result<(), AllocError>
    requires count { IsCount (length vars.now) }
    requires each { All (IsSoundVar dims.now) vars.now }
    requires begins { version ≡ 1 → All (λ v. v.begin < 2 ^ 32) vars.now }
    ensures { OnOk result
        (out.new.items ≡ out.old.items ++ list_bytes 11 (var_bytes version) vars.now) }
{
    put_tag(out, VARIABLES, vars.len())?;
    for var in vars {
        put_var(out, version, var)?;
    }
    Ok(())
}

/// The bytes of a header: `CDF`, the version, numrecs, and the lists of dimensions, attributes
/// and variables.
///
/// The spelling is the netCDF classic format's, in which an empty list has eight zero bytes.
#[tactic(auto, unfolding(wf_model::specs::Bytes::header_bytes))]
pub fn write_header(alloc: Global, header: &Header) -> Result<Vec<u8>, AllocError>
    requires sound { IsSoundHeader header.now }
    requires begins { BeginsFit header.now }
    ensures { IfOk result (λ v. v.items ≡ header_bytes header.now) }
{
    let capacity = usize::try_from(header_length(header)).unwrap_or(usize::MAX);
    let mut out = Vec::with_capacity(alloc, capacity)?;
    out.extend_from_slice(b"CDF")?;
    out.push(header.version)?;
    put_word(&mut out, header.numrecs)?;
    put_dims(&mut out, header.dims.as_slice())?;
    put_atts(&mut out, header.atts.as_slice())?;
    put_vars(
        &mut out,
        header.version,
        header.dims.as_slice(),
        header.vars.as_slice(),
    )?;
    Ok(out)
}
