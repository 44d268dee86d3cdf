//! The header of the demo's file.

ghost use Rattle.std.specs.Prelude.{◌≡◌, ℕ, ◌+◌, ◌*◌, ◌<◌, ◌≤◌, ◌^◌, [], ◌∷◌, length, IfOk, codes};
ghost use Rattle.wf_model.specs.Headers.{text_att, int_att, dim};
ghost use Rattle.wf_model.specs.Demo.{demo_header};
ghost use Rattle.wf_top.specs.DemoHeader.{demo_dims, demo_atts, field_atts, demo_vars, unplaced};

use std::alloc::{AllocError, Global};
use wf_cdf::{place_vars, write_header};
use wf_model::cdf_type::{CHAR, INT};
use wf_model::{Att, Bytes, Dim, Header, List, Var};

fn bytes(alloc: Global, text: &[u8]) -> Result<Bytes, AllocError>
    ensures { IfOk result (λ b. b ≡ text.now) }
{
    Ok(Bytes::from_vec(Vec::from_slice(alloc, text)?))
}

fn dim(alloc: Global, name: &[u8], len: u32) -> Result<Dim, AllocError>
    ensures { IfOk result (λ d. d ≡ dim name.now len) }
{
    Ok(Dim {
        name: bytes(alloc, name)?,
        len,
    })
}

fn text_att(alloc: Global, name: &[u8], text: &[u8]) -> Result<Att, AllocError>
    requires { length text.now < 2 ^ 31 }
    ensures { IfOk result (λ a. a ≡ text_att name.now text.now) }
{
    Ok(Att {
        name: bytes(alloc, name)?,
        kind: CHAR,
        count: text.len() as u32,
        bytes: bytes(alloc, text)?,
    })
}

fn int_att(alloc: Global, name: &[u8], n: u32) -> Result<Att, AllocError>
    ensures { IfOk result (λ a. a ≡ int_att name.now n) }
{
    Ok(Att {
        name: bytes(alloc, name)?,
        kind: INT,
        count: 1,
        bytes: bytes(alloc, &n.to_be_bytes())?,
    })
}

fn dims(alloc: Global, nx: u32, ny: u32) -> Result<List<Dim>, AllocError>
    ensures { IfOk result (λ l. l ≡ demo_dims nx ny) }
{
    let time = dim(alloc, b"Time", 0)?;
    let text = dim(alloc, b"DateStrLen", 19)?;
    let x = dim(alloc, b"west_east", nx)?;
    let y = dim(alloc, b"south_north", ny)?;
    Ok(List::from_vec(vec![in alloc; time, text, x, y]?))
}

fn atts(alloc: Global) -> Result<List<Att>, AllocError>
    ensures { IfOk result (λ l. l ≡ demo_atts) }
{
    let start = text_att(alloc, b"START_DATE", b"2000-01-01_00:00:00")?;
    let grid = int_att(alloc, b"GRID_ID", 1)?;
    Ok(List::from_vec(vec![in alloc; start, grid]?))
}

fn field_atts(alloc: Global) -> Result<List<Att>, AllocError>
    ensures { IfOk result (λ l. l ≡ field_atts) }
{
    let kind = int_att(alloc, b"FieldType", 106)?;
    let order = text_att(alloc, b"MemoryOrder", b"XY ")?;
    let description = text_att(alloc, b"description", b"")?;
    let units = text_att(alloc, b"units", b"")?;
    let stagger = text_att(alloc, b"stagger", b"")?;
    Ok(List::from_vec(vec![in alloc; kind, order, description, units, stagger]?))
}

fn vars(alloc: Global) -> Result<List<Var>, AllocError>
    ensures { IfOk result (λ l. l ≡ demo_vars) }
{
    let times = Var {
        name: bytes(alloc, b"Times")?,
        dims: List::from_vec(vec![in alloc; 0, 1]?),
        atts: List::from_vec(Vec::new(alloc)),
        kind: CHAR,
        vsize: 0,
        begin: 0,
    };
    let t = Var {
        name: bytes(alloc, b"T")?,
        dims: List::from_vec(vec![in alloc; 0, 3, 2]?),
        atts: field_atts(alloc)?,
        kind: INT,
        vsize: 0,
        begin: 0,
    };
    Ok(List::from_vec(vec![in alloc; times, t]?))
}

// The header, with nothing placed.
fn unplaced(alloc: Global, nx: u32, ny: u32) -> Result<Header, AllocError>
    ensures { IfOk result (λ h. h ≡ unplaced nx ny) }
{
    Ok(Header {
        version: 1,
        numrecs: 0,
        dims: dims(alloc, nx, ny)?,
        atts: atts(alloc)?,
        vars: vars(alloc)?,
    })
}

/// The bytes of the header of the demo's file, which has no record yet.
pub fn demo_header(alloc: Global, nx: u32, ny: u32, steps: u32) -> Result<Vec<u8>, AllocError>
    requires { (0 < nx) × (nx ≤ 200) × (0 < ny) × (ny ≤ 200) × (steps ≤ 100) }
    ensures { IfOk result (λ v. v.items ≡ demo_header nx ny steps) }
{
    let mut header = unplaced(alloc, nx, ny)?;
    match place_vars(&mut header, steps + 1) {
        Ok(_) => write_header(alloc, &header),
        Err(_) => unreachable!(),
    }
}
