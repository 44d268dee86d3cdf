//! What a run on whole domains prints.

ghost use Rattle.std.specs.Prelude.{◌≡◌, ◌++◌, [], ◌∷◌, IfOk, codes, decimal, map, slice_index_or};
ghost use Rattle.std.specs.Prelude.{string_bytes};
ghost use Rattle.wf_model.specs.declared.plan.Plan.{Plan};
ghost use Rattle.wf_model.specs.Answer.{summary_line, overflow_line, phase_name, what_name};
ghost use Rattle.wf_model.specs.Writes.{Summary};
ghost use Rattle.wf_grid.specs.RunEnds.{finished_of};
ghost use Rattle.wf_top.specs.Names.{AreNamesOf};

use std::alloc::{AllocError, Global};
use wf_model::{Bytes, Field, Finished, Item, List, Plan, Point, What};

/// The names of a plan's items and field levels. An item that is no phase has no letters.
#[derive(Drop)]
pub struct PointNames {
    items: List<Bytes>,
    fields: List<Bytes>,
}

/// The name of a phase, and no letters for any other item.
fn phase_name(item: &Item) -> &[u8]
    ensures { result.now ≡ phase_name item.now }
{
    match item {
        Item::Phase(phase) => phase.name.as_slice(),
        _ => b"",
    }
}

fn phase_names(alloc: Global, items: &[Item]) -> Result<List<Bytes>, AllocError>
    ensures { IfOk result (λ names. names ≡ map phase_name items.now) }
{
    let mut names = Vec::new(alloc);
    for item in items {
        let name = Vec::from_slice(alloc, phase_name(item))?;
        names.push(Bytes::from_vec(name))?;
    }
    Ok(List::from_vec(names))
}

fn field_names(alloc: Global, fields: &[Field]) -> Result<List<Bytes>, AllocError>
    ensures { IfOk result (λ names. names ≡ map (λ f. f.name) fields.now) }
{
    let mut names = Vec::new(alloc);
    for field in fields {
        let name = Vec::from_slice(alloc, field.name.as_slice())?;
        names.push(Bytes::from_vec(name))?;
    }
    Ok(List::from_vec(names))
}

/// The name of a number, counted from 0, and no letters past the end.
fn name_at(names: &[Bytes], number: u32) -> &[u8]
    ensures { result.now ≡ slice_index_or names.now number [] }
{
    match names.get(number as usize) {
        Some(name) => name.as_slice(),
        None => b"",
    }
}

impl PointNames {
    /// Copies the names, since the plan goes into the run.
    pub fn new(alloc: Global, plan: &Plan) -> Result<PointNames, AllocError>
        ensures { IfOk result (AreNamesOf plan.now) }
    {
        let items = phase_names(alloc, plan.items.as_slice())?;
        let fields = field_names(alloc, plan.fields.as_slice())?;
        Ok(PointNames { items, fields })
    }

    /// What it is that overflowed.
    fn what(&self, what: What) -> &[u8]
        ensures { (plan : Plan) → AreNamesOf plan self.now → result.now ≡ what_name plan what }
    {
        match what {
            What::Phase(number) => name_at(self.items.as_slice(), number),
            What::Start => b"start",
            What::Force => b"force",
            What::Feedback => b"feedback",
        }
    }
}

/// `files F records R bytes B sum S`: files created, records written, bytes behind the headers, and
/// the sum of these bytes.
pub fn summary_text(alloc: Global, finished: &Finished) -> Result<String, AllocError>
    ensures { (s : Summary) → finished.now ≡ finished_of s
        → IfOk result (λ t. string_bytes t ≡ summary_line s) }
{
    let files = finished.files;
    let records = finished.records;
    let bytes = finished.bytes;
    let sum = finished.sum;
    format!(in alloc; "files {files} records {records} bytes {bytes} sum {sum}\n")
}

/// `overflow DOMAIN STEP `.
fn overflow_front(alloc: Global, domain: u32, step: u64) -> Result<String, AllocError>
    ensures { IfOk result (λ t.
        string_bytes t ≡ codes "overflow " ++ (decimal domain ++ 32 ∷ (decimal step ++ 32 ∷ []))) }
{
    format!(in alloc; "overflow {domain} {step} ")
}

/// ` K J I` and a line feed.
fn overflow_back(alloc: Global, k: u32, j: u32, i: u32) -> Result<String, AllocError>
    ensures { IfOk result (λ t.
        string_bytes t ≡ 32 ∷ (decimal k ++ 32 ∷ (decimal j ++ 32 ∷ (decimal i ++ 10 ∷ [])))) }
{
    format!(in alloc; " {k} {j} {i}\n")
}

/// `overflow DOMAIN STEP WHAT FIELD K J I`: the point with the names of its phase and field level.
/// Domains, K, J and I count from 1.
pub fn overflow_text(
    alloc: Global,
    names: &PointNames,
    point: &Point,
) -> Result<Vec<u8>, AllocError>
    ensures { (plan : Plan) → AreNamesOf plan names.now
        → IfOk result (λ t. t.items ≡ overflow_line plan point.now) }
{
    let front = overflow_front(alloc, point.domain, point.step)?;
    let back = overflow_back(alloc, point.k, point.j, point.i)?;
    let mut text = Vec::from_slice(alloc, front.as_bytes())?;
    text.extend_from_slice(names.what(point.what))?;
    text.push(b' ')?;
    text.extend_from_slice(name_at(names.fields.as_slice(), point.field))?;
    text.extend_from_slice(back.as_bytes())?;
    Ok(text)
}
