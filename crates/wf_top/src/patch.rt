//! Patches: blocks of columns, each with a memory of its own.

ghost use Rattle.std.specs.Prelude.{◌≡◌, ℕ, ◌+◌, ◌-◌, ◌*◌, ◌<◌, ◌≤◌, length, pos, slice_index_or};
ghost use Rattle.std.specs.Prelude.{IfOk};
ghost use Rattle.wf_model.specs.Demo.{demo_value};
ghost use Rattle.wf_top.specs.Cells.{cell, next_at, AreSmall};
ghost use Rattle.wf_top.specs.Memories.{IsBlock, HasRows, Hold, KeepsShape, Took};

use crate::cells::{first_cells, next_cells, write_column};
use std::alloc::{AllocError, Global};
use std::mem;

/// A patch, with its memory: its own columns of the domain, and the column beside each end where
/// the domain has one.
#[derive(Drop)]
pub struct Patch {
    /// The columns of the domain before the memory.
    pub from: usize,
    /// The columns of the memory before the own ones.
    pub west: usize,
    /// The own columns.
    pub own: usize,
    /// The columns of the memory.
    pub width: usize,
    /// The memory, row by row.
    pub values: Vec<i32>,
    /// The memory that the next step makes.
    pub scratch: Vec<i32>,
}

impl Patch {
    /// The patch of the columns from `first` up to `end`, counted from 0, before the first step.
    pub fn new(
        alloc: Global,
        nx: usize,
        ny: usize,
        first: usize,
        end: usize,
    ) -> Result<Patch, AllocError>
        requires { (first < end) × (end ≤ nx) × (nx ≤ 200) × (ny ≤ 200) }
        ensures block { IfOk result (λ p. IsBlock nx first end p) }
        ensures rows { IfOk result (λ p. HasRows ny p) }
        ensures holds { IfOk result (λ p. Hold (demo_value nx ny 0) ny p 0 p.width) }
    {
        let from = first.saturating_sub(1);
        let width = nx.min(end + 1) - from;
        let mut values = vec![in alloc; 0; ny * width]?;
        let scratch = vec![in alloc; 0; ny * width]?;
        first_cells(&mut values, width, ny, from);
        Ok(Patch {
            from,
            west: first - from,
            own: end - first,
            width,
            values,
            scratch,
        })
    }

    /// Takes the numbers of a column of the memory.
    pub fn take_column(&mut self, c: usize, column: &[i32])
        requires place { c < self.old.width }
        requires rows { HasRows (length column.now) self.old }
        ensures shape { KeepsShape self.old self.new }
        ensures took { Took c (length column.now)
            (λ r. slice_index_or column.now r (pos 0)) self.old self.new }
    {
        write_column(&mut self.values, self.width, c, column);
    }

    /// Makes the next step's memory.
    pub fn step(&mut self, rows: usize)
        requires some { (0 < rows) × (0 < self.old.width) }
        requires rows { HasRows rows self.old }
        requires small { AreSmall self.old.values.items self.old.width rows }
        ensures shape { KeepsShape self.old self.new }
        ensures cells { (r c : ℕ) → r < rows → c < self.old.width → cell self.new.values.items
            self.old.width r c ≡ next_at self.old.values.items self.old.width rows r c }
    {
        next_cells(&self.values, &mut self.scratch, self.width, rows);
        mem::swap(&mut self.values, &mut self.scratch);
    }
}
