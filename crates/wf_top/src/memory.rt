//! The numbers that the memories of patches hold, counted and summed, and the lines that say so.

ghost use Rattle.std.specs.Prelude.{◌≡◌, ℕ, ◌+◌, ◌-◌, ◌*◌, ◌<◌, ◌≤◌, length, get_or, pos, sum_by};
ghost use Rattle.std.specs.Prelude.{flat_map, IfOk, string_bytes, codes, decimal, fold, ◌+ℤ◌, []};
ghost use Rattle.std.specs.Prelude.{◌∷◌};
ghost use Rattle.std.specs.List.{range_with_len};
ghost use Rattle.wf_model.specs.Refusals.{line};
ghost use Rattle.wf_model.specs.Answer.{patch_line, memory_text, how};
ghost use Rattle.wf_model.specs.Demo.{demo_memory, demo_memories};
ghost use Rattle.wf_top.specs.Cells.{size_at, AreSmall};
ghost use Rattle.wf_top.specs.Domains.{IsDomain, HoldGrid, IsEnd};

use crate::cells::size_at;
use crate::patches::Patches;
use std::alloc::{AllocError, Global};
use wf_model::Demo;

// The sum of a column.
fn column_sum(values: &[i32], width: usize, rows: usize, c: usize) -> u64
    requires place { c < width }
    requires rows { length values.now ≡ rows * width }
    requires few { rows ≤ 200 }
    requires small { AreSmall values.now width rows }
    ensures value { result ≡ sum_by (λ r. size_at values.now width r c) (range_with_len 0 rows) }
    ensures bound { result ≤ 20000 }
{
    let mut total = 0;
    for r in 0..rows {
        total += u64::from(size_at(values, r * width + c));
    }
    total
}

// The sum of all columns.
fn cell_sum(values: &[i32], width: usize, rows: usize) -> u64
    requires rows { length values.now ≡ rows * width }
    requires few { (rows ≤ 200) × (width ≤ 202) }
    requires small { AreSmall values.now width rows }
    ensures value { result ≡ sum_by (λ c. sum_by (λ r. size_at values.now width r c)
        (range_with_len 0 rows)) (range_with_len 0 width) }
    ensures bound { result ≤ 4040000 }
{
    let mut total = 0;
    for c in 0..width {
        total += column_sum(values, width, rows, c);
    }
    total
}

/// How many cells a memory has, and the sum of their numbers.
#[derive(Clone, Copy, Drop)]
pub struct MemorySum {
    pub cells: u64,
    pub sum: u64,
}

impl Patches {
    // The memory of a patch.
    fn memory(&self, p: usize) -> MemorySum
        requires domain { IsDomain self.now }
        requires place { p < length self.now.patches.items }
        requires grid { (n : ℕ) × (m : ℕ) × HoldGrid n m self.now }
        ensures memory { (d : Demo) → IsEnd d self.now → demo_memory d p
            ≡ record { domain = 1; patch = p; cells = result.cells; sum = pos result.sum } }
        ensures bound { (result.cells ≤ 40400) × (result.sum ≤ 4040000) }
    {
        let patch = &self.patches[p];
        MemorySum {
            cells: (patch.width * self.ny) as u64,
            sum: cell_sum(&patch.values, patch.width, self.ny),
        }
    }
}

fn patch_line(alloc: Global, patch: usize, memory: MemorySum) -> Result<String, AllocError>
    ensures { IfOk result (λ t. string_bytes t ≡ patch_line
        (record { domain = 1; patch = patch; cells = memory.cells; sum = pos memory.sum })) }
{
    let domain = 1;
    let cells = memory.cells;
    let sum = memory.sum;
    format!(in alloc; "memory {domain} {patch} {cells} {sum}\n")
}

fn total_line(alloc: Global, total: MemorySum) -> Result<String, AllocError>
    ensures { IfOk result (λ t.
        string_bytes t ≡ line (codes "memory" ∷ decimal total.cells ∷ decimal total.sum ∷ [])) }
{
    let cells = total.cells;
    let sum = total.sum;
    format!(in alloc; "memory {cells} {sum}\n")
}

// A line for each patch.
fn patch_lines(alloc: Global, patches: &Patches) -> Result<String, AllocError>
    requires domain { IsDomain patches.now }
    requires grid { (n : ℕ) × (m : ℕ) × HoldGrid n m patches.now }
    ensures { (d : Demo) → IsEnd d patches.now
        → IfOk result (λ t. string_bytes t ≡ flat_map patch_line (demo_memories d)) }
{
    let mut text = String::new(alloc);
    for p in 0..patches.patches.len() {
        text.push_str(&patch_line(alloc, p, patches.memory(p))?)?;
    }
    Ok(text)
}

// The cells and numbers of all patches.
fn total(patches: &Patches) -> MemorySum
    requires domain { IsDomain patches.now }
    requires grid { (n : ℕ) × (m : ℕ) × HoldGrid n m patches.now }
    ensures cells { (d : Demo) → IsEnd d patches.now
        → result.cells ≡ sum_by (λ m. m.cells) (demo_memories d) }
    ensures sum { (d : Demo) → IsEnd d patches.now
        → pos result.sum ≡ fold (λ a m. a +ℤ m.sum) (pos 0) (demo_memories d) }
{
    let mut total = MemorySum { cells: 0, sum: 0 };
    for p in 0..patches.patches.len() {
        let memory = patches.memory(p);
        total.cells += memory.cells;
        total.sum += memory.sum;
    }
    total
}

/// The lines on the memories of a demo's patches after its last step: one for each, or one of
/// their totals.
pub fn memory_lines(alloc: Global, demo: &Demo, patches: &Patches) -> Result<String, AllocError>
    requires domain { IsDomain patches.now }
    requires end { IsEnd demo.now patches.now }
    ensures { IfOk result
        (λ t. string_bytes t ≡ memory_text (how demo.now.each) (demo_memories demo.now)) }
{
    if demo.each {
        patch_lines(alloc, patches)
    } else {
        total_line(alloc, total(patches))
    }
}
