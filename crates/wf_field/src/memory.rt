//! The memory of a patch.

ghost use Rattle.std.specs.Prelude.{◌≡◌, ℕ, ◌+◌, ◌-◌, ◌*◌, ◌<◌, ◌≤◌, All, IfOk, flat_map, fold};
ghost use Rattle.std.specs.Prelude.{length, pos, ◌+ℤ◌};
ghost use Rattle.wf_rect.specs.Tiles.{rows_of};
ghost use Rattle.wf_model.specs.Agreement.{IsPatch};
ghost use Rattle.wf_model.specs.Core.{begin_patch};
ghost use Rattle.wf_model.specs.Kept.{IsSoundPatch, level_kept};
ghost use Rattle.wf_model.specs.PatchEffect.{swap_setting};
ghost use Rattle.wf_model.specs.Plans.{field_of, nx, ny, nz};
ghost use Rattle.wf_model.specs.Sound.{IsDomain, IsLevel, IsSoundLayout};
ghost use Rattle.wf_model.specs.SoundRun.{IsSoundRun};
ghost use Rattle.wf_boxes.specs.Boxes.{HasNearEnds, IsWide};
ghost use Rattle.wf_field.specs.Kept.{HasBox, IsSamePatch, Keeps, Owns, Sets, Shows, number_in};
ghost use Rattle.wf_field.specs.Regions.{KeepsRegion, plane_cells, region_cells, region_number};
ghost use Rattle.wf_field.specs.Regions.{region_setting, region_size};
ghost use Rattle.wf_field.specs.Rows.{SetsEach, box_rows, row_cells, row_number};
ghost use Rattle.wf_field.specs.Settings.{cell_at, cell_setting, level_setting, levels_setting};
ghost use Rattle.wf_field.specs.Settings.{point_number};
ghost use Rattle.wf_field.specs.Sources.{points_of};

use crate::making::{has_numbers, level_boxes, lists_of, zero_levels};
use crate::numbers::{number_of, put_in};
use crate::rows::{moved, part, put_row_in};
use crate::sources::{column, row};
use crate::sums::{count_cells, sum_levels};
use std::alloc::{AllocError, Global};
use std::marker::{Model, PhantomData};
use wf_boxes::{LevelBox, Patch, count};
use wf_model::{Initial, Layout, List, Plan, RunName};
use wf_rect::Region;

/// The numbers of all field levels that a patch keeps: at its own points, and at the cells around
/// them as far as the margin of the plan, which in a periodic direction lie outside the domain.
/// Contracts see the patch and the lists of its levels, each in order k, j, i.
#[derive(Drop)]
pub struct Memory<N: RunName> {
    domain: u32,
    patch: u32,
    boxes: List<LevelBox>,
    levels: List<List<i32>>,
    of: PhantomData<N>,
}

impl<N: RunName> Model for Memory<N> {
    ghost use Rattle.wf_field.specs.Kept.{KeptMemory, IsMemory};

    ghost Value = { KeptMemory };

    ghost view = { λ m. record { domain = m.domain; patch = m.patch; levels = m.levels } };

    ghost invariant = { λ m. IsMemory N.run.plan N.layout m.domain m.patch m.boxes m.levels };
}

impl<N: RunName> Memory<N> {
    /// A memory of a patch whose numbers are all 0. It takes all memory that it needs.
    ///
    /// Domains count from 1, patches from 0.
    pub fn new(
        alloc: Global,
        plan: &Plan,
        layout: &Layout,
        domain: u32,
        patch: u32,
    ) -> Result<Memory<N>, AllocError>
        requires plan { plan.now ≡ N.run.plan }
        requires layout { layout.now ≡ N.layout }
        requires sound { IsSoundRun N.run }
        requires laid { IsSoundLayout N.run.plan N.layout }
        requires domain { IsDomain N.run.plan domain }
        requires patch { IsPatch N.layout patch }
        ensures domain { IfOk result (λ m. m.domain ≡ domain) }
        ensures patch { IfOk result (λ m. m.patch ≡ patch) }
        ensures zeros { IfOk result (λ m. Shows N.run.plan N.layout m (λ f k j i. pos 0)) }
    {
        let place = Patch {
            plan,
            layout,
            domain,
            number: patch,
        };
        let boxes = level_boxes(alloc, &place)?;
        let levels = zero_levels(alloc, boxes.as_slice())?;
        Ok(Memory {
            domain,
            patch,
            boxes: List::from_vec(boxes),
            levels: List::from_vec(levels),
            of: PhantomData,
        })
    }

    /// A memory of a patch as the run begins: each cell has the number that its point begins with,
    /// wrapped cells included. It takes all memory that it needs.
    pub fn begin(
        alloc: Global,
        plan: &Plan,
        layout: &Layout,
        domain: u32,
        patch: u32,
        initial: &Initial,
    ) -> Result<Memory<N>, AllocError>
        requires plan { plan.now ≡ N.run.plan }
        requires layout { layout.now ≡ N.layout }
        requires initial { initial.now ≡ N.run.initial }
        requires sound { IsSoundRun N.run }
        requires laid { IsSoundLayout N.run.plan N.layout }
        requires domain { IsDomain N.run.plan domain }
        requires patch { IsPatch N.layout patch }
        ensures domain { IfOk result (λ m. m.domain ≡ domain) }
        ensures patch { IfOk result (λ m. m.patch ≡ patch) }
        ensures begins { IfOk result
            (λ m. Shows N.run.plan N.layout m (begin_patch N.run N.layout domain patch).memory) }
    {
        let mut memory = Memory::new(alloc, plan, layout, domain, patch)?;
        if has_numbers(initial, domain) {
            memory.fill_levels(lists_of(initial, domain));
        }
        Ok(memory)
    }

    /// Its domain, from 1.
    pub fn domain(&self) -> u32
        ensures value { result ≡ self.now.domain }
        ensures sound { IsSoundPatch N.run.plan N.layout self.now.domain self.now.patch }
    {
        self.domain
    }

    /// Its patch, from 0.
    pub fn patch(&self) -> u32
        ensures value { result ≡ self.now.patch }
        ensures shown { Shows N.run.plan N.layout self.now
            (number_in N.run.plan N.layout self.now) }
    {
        self.patch
    }

    /// The number of a cell: of a level, from 0, at k, j and i, from 1 in the domain.
    pub fn get(&self, field: u32, k: u32, j: i64, i: i64) -> i32
        requires { Keeps N.run.plan N.layout self.now (cell_at field k j i) }
        ensures { result ≡ number_in N.run.plan N.layout self.now field k j i }
    {
        number_of(
            self.boxes.as_slice(),
            self.levels.as_slice(),
            field,
            k,
            j,
            i,
        )
    }

    /// Sets the number of an own cell, and no other one.
    pub fn set_own(&mut self, field: u32, k: u32, j: i64, i: i64, value: i32)
        requires level { IsLevel N.run.plan field }
        requires own { Owns N.run.plan N.layout self.old (cell_at field k j i) }
        ensures same { IsSamePatch self.old self.new }
        ensures set { Sets N.run.plan N.layout
            (cell_setting (cell_at field k j i) value) self.old self.new }
    {
        put_in(
            self.boxes.as_slice(),
            self.levels.as_mut_slice(),
            field,
            k,
            j,
            i,
            value,
        );
    }

    /// Sets as many cells of a row of a level as there are numbers, from `i` on, and no others.
    pub fn set_row(&mut self, field: u32, k: u32, j: i64, i: i64, values: &[i32])
        requires level { IsLevel N.run.plan field }
        requires row { All (Keeps N.run.plan N.layout self.old)
            (row_cells field k j i (length values.now)) }
        ensures same { IsSamePatch self.old self.new }
        ensures set { SetsEach N.run.plan N.layout (row_number i values.now)
            (row_cells field k j i (length values.now)) self.old self.new }
    {
        if values.is_empty() {
            return;
        }
        put_row_in(
            self.boxes.as_slice(),
            self.levels.as_mut_slice(),
            field,
            k,
            j,
            i,
            values,
        );
    }

    /// Sets the cells of a region at its k of number `a`, from 0, to their numbers of the scratch.
    fn commit_plane(&mut self, field: u32, region: Region, a: u32, scratch: &[i32])
        requires level { IsLevel N.run.plan field }
        requires plane { a < region.k1 - region.k0 }
        requires near { HasNearEnds region.rect }
        requires cells { All (Keeps N.run.plan N.layout self.old) (region_cells field region) }
        requires scratch { length (region_cells field region) ≤ length scratch.now }
        ensures same { IsSamePatch self.old self.new }
        ensures set { SetsEach N.run.plan N.layout (region_number region scratch.now) (plane_cells
            field (region.k0 + a) region.rect (rows_of region.rect)) self.old self.new }
    {
        let rect = region.rect;
        let rows = count(rect.j0, rect.j1);
        let columns = count(rect.i0, rect.i1) as usize;
        for y in 0..rows {
            let from = (a as usize * rows as usize + y as usize) * columns;
            let row = part(scratch, from, columns);
            self.set_row(field, region.k0 + a, moved(rect.j0, y), rect.i0, row);
        }
    }

    /// Sets the cells of a region of a level to the first numbers of the scratch, in order k, j, i,
    /// and no others. The patch keeps all of them; an empty region has near ends too.
    pub fn commit(&mut self, field: u32, region: Region, scratch: &[i32])
        requires level { IsLevel N.run.plan field }
        requires region { KeepsRegion N.run.plan N.layout self.old field region }
        requires scratch { region_size region ≤ length scratch.now }
        ensures same { IsSamePatch self.old self.new }
        ensures set { Sets N.run.plan N.layout
            (region_setting field region scratch.now) self.old self.new }
    {
        for a in 0..region.k1.saturating_sub(region.k0) {
            self.commit_plane(field, region, a, scratch);
        }
    }

    /// Sets the cells of a row of a level to the numbers of the points that they stand for.
    fn fill_row(&mut self, field: u32, bounds: &LevelBox, k: u32, j: i64, values: &[i32])
        requires sound { IsSoundPatch N.run.plan N.layout self.old.domain self.old.patch }
        requires level { IsLevel N.run.plan field }
        requires bounds { HasBox N.run.plan N.layout self.old field bounds.now }
        requires values { length values.now ≡ points_of bounds.now }
        requires wide { IsWide j }
        requires row { All (Keeps N.run.plan N.layout self.old)
            (row_cells field k j bounds.now.west bounds.now.columns) }
        ensures same { IsSamePatch self.old self.new }
        ensures set { SetsEach N.run.plan N.layout (point_number N.run.plan self.old.domain field
            values.now) (row_cells field k j bounds.now.west bounds.now.columns) self.old self.new }
    {
        let mut x = 0;
        while x < bounds.columns {
            let start = row(bounds, k, j);
            let i = moved(bounds.west, x);
            let first = column(bounds, i);
            let count = (bounds.columns - x).min(bounds.width - first);
            let run = part(values, start + first as usize, count as usize);
            self.set_row(field, k, j, i, run);
            x += count;
        }
    }

    /// Sets the cells of a level at one k to the numbers of the points that they stand for.
    fn fill_plane(&mut self, field: u32, bounds: &LevelBox, k: u32, values: &[i32])
        requires sound { IsSoundPatch N.run.plan N.layout self.old.domain self.old.patch }
        requires level { IsLevel N.run.plan field }
        requires bounds { HasBox N.run.plan N.layout self.old field bounds.now }
        requires values { length values.now ≡ points_of bounds.now }
        requires plane { (1 ≤ k) × (k ≤ bounds.now.levels) }
        ensures same { IsSamePatch self.old self.new }
        ensures set { SetsEach N.run.plan N.layout (point_number N.run.plan self.old.domain field
            values.now) (box_rows field bounds.now k bounds.now.rows) self.old self.new }
    {
        for y in 0..bounds.rows {
            self.fill_row(field, bounds, k, moved(bounds.south, y), values);
        }
    }

    /// Sets all cells of a level, wrapped ones included, to the numbers of the points that they
    /// stand for, of which these are the whole domain's in order k, j, i.
    pub fn fill(&mut self, field: u32, values: &[i32])
        requires level { IsLevel N.run.plan field }
        requires values { length values.now ≡ nz N.run.plan field
            * (ny N.run.plan self.old.domain field * nx N.run.plan self.old.domain field) }
        ensures same { IsSamePatch self.old self.new }
        ensures set { Sets N.run.plan N.layout
            (level_setting N.run.plan self.old.domain field values.now) self.old self.new }
    {
        let bounds = self.boxes.as_slice()[field as usize];
        for k in 0..bounds.levels {
            self.fill_plane(field, &bounds, k + 1, values);
        }
    }

    /// Sets all cells of all levels to the numbers of the points that they stand for.
    fn fill_levels(&mut self, lists: &[List<i32>])
        requires levels { length lists.now ≡ length N.run.plan.fields }
        requires few { length lists.now ≤ 64 }
        requires lists { (f : ℕ) → f < length lists.now → length (level_kept lists.now f) ≡ nz
            N.run.plan f * (ny N.run.plan self.old.domain f * nx N.run.plan self.old.domain f) }
        ensures same { IsSamePatch self.old self.new }
        ensures set { Sets N.run.plan N.layout (levels_setting N.run.plan self.old.domain lists.now
            (length lists.now)) self.old self.new }
    {
        for field in 0..lists.len() as u32 {
            self.fill(field, lists[field as usize].as_slice());
        }
    }

    /// Exchanges the two levels of a field, whole memories.
    pub fn swap(&mut self, one: u32, two: u32)
        requires level { IsLevel N.run.plan one }
        requires pair { (field_of N.run.plan one).pair ≡ two }
        ensures same { IsSamePatch self.old self.new }
        ensures set { Sets N.run.plan N.layout
            (swap_setting one two (number_in N.run.plan N.layout self.old)) self.old self.new }
    {
        self.levels.as_mut_slice().swap(one as usize, two as usize);
    }

    /// How many cells it has.
    pub fn cells(&self) -> u64
        ensures { result ≡ length (flat_map (λ xs. xs) self.now.levels) }
    {
        count_cells(self.levels.as_slice())
    }

    /// The sum of all its numbers.
    pub fn sum(&self) -> i128
        ensures { result ≡ fold ◌+ℤ◌ (pos 0) (flat_map (λ xs. xs) self.now.levels) }
    {
        sum_levels(self.levels.as_slice())
    }
}
