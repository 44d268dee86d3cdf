//! All patches of a domain.

ghost use Rattle.std.specs.Prelude.{◌≡◌, ◌≢◌, ℕ, ◌+◌, ◌-◌, ◌*◌, ◌/◌, ◌<◌, ◌≤◌, length, get_or};
ghost use Rattle.std.specs.Prelude.{IfOk};
ghost use Rattle.wf_top.specs.declared.patch.Patch.{Patch};
ghost use Rattle.wf_top.specs.Memories.{Inside, Holds, Each, IsPatch, HasRows, KeepsShape, Took};
ghost use Rattle.wf_top.specs.Memories.{column_of};
ghost use Rattle.wf_top.specs.Domains.{IsDomain, SameSize, AllHold, HoldSteps, HoldGrid};

use crate::cells::read_column;
use crate::patch::Patch;
use std::alloc::{AllocError, Global};

/// The patches of a domain in order, from west to east, and what one sends to another.
#[derive(Drop)]
pub struct Patches {
    pub nx: usize,
    pub ny: usize,
    pub patches: Vec<Patch>,
    /// A column on its way.
    pub column: Vec<i32>,
}

impl Patches {
    /// The patches of so many blocks of columns, before the first step.
    pub fn new(alloc: Global, nx: usize, ny: usize, px: usize) -> Result<Patches, AllocError>
        requires { (0 < px) × (px ≤ nx) × (nx ≤ 200) × (0 < ny) × (ny ≤ 200) }
        ensures size { IfOk result (λ all. (all.nx ≡ nx) × (all.ny ≡ ny)
            × (length all.patches.items ≡ px)) }
        ensures domain { IfOk result IsDomain }
        ensures holds { IfOk result (HoldGrid 0 0) }
    {
        let mut patches = Vec::new(alloc);
        for p in 0..px {
            patches.push(Patch::new(alloc, nx, ny, p * nx / px, (p + 1) * nx / px)?)?;
        }
        let column = vec![in alloc; 0; ny]?;
        Ok(Patches {
            nx,
            ny,
            patches,
            column,
        })
    }

    // A patch takes the column before its own, which is the last own column of its
    // western neighbour.
    fn take_from_west(&mut self, p: usize)
        requires domain { IsDomain self.old }
        requires place { (0 < p) × (p < length self.old.patches.items) }
        ensures domain { IsDomain self.new }
        ensures size { SameSize self.old self.new }
        ensures others { (q : ℕ) (other : Patch) → q ≢ p
            → get_or self.new.patches.items q other ≡ get_or self.old.patches.items q other }
        ensures taken { (own west east : ℕ → ℕ → ℕ) (other : Patch)
            → Inside own self.old.ny (get_or self.old.patches.items (p - 1) other)
            → Holds self.old.ny own west east (get_or self.old.patches.items p other)
            → Holds self.old.ny own own east (get_or self.new.patches.items p other) }
    {
        let neighbour = &self.patches[p - 1];
        let last = neighbour.west + neighbour.own - 1;
        pass_column(&mut self.patches, &mut self.column, p - 1, last, p, 0);
    }

    // A patch takes the column behind its own, which is the first own column of its
    // eastern neighbour.
    fn take_from_east(&mut self, p: usize)
        requires domain { IsDomain self.old }
        requires place { p + 1 < length self.old.patches.items }
        ensures domain { IsDomain self.new }
        ensures size { SameSize self.old self.new }
        ensures others { (q : ℕ) (other : Patch) → q ≢ p
            → get_or self.new.patches.items q other ≡ get_or self.old.patches.items q other }
        ensures taken { (own west east : ℕ → ℕ → ℕ) (other : Patch)
            → Inside own self.old.ny (get_or self.old.patches.items (p + 1) other)
            → Holds self.old.ny own west east (get_or self.old.patches.items p other)
            → Holds self.old.ny own west own (get_or self.new.patches.items p other) }
    {
        let patch = &self.patches[p];
        let behind = patch.west + patch.own;
        let first = self.patches[p + 1].west;
        pass_column(&mut self.patches, &mut self.column, p + 1, first, p, behind);
    }

    // Each patch but the first takes the column before its own.
    fn exchange_west(&mut self)
        requires { IsDomain self.old }
        ensures domain { IsDomain self.new }
        ensures size { SameSize self.old self.new }
        ensures exchanged { (own west east : ℕ → ℕ → ℕ) → AllHold own west east self.old
            → AllHold own own east self.new }
    {
        for p in 1..self.patches.len() {
            self.take_from_west(p);
        }
    }

    // Each patch but the last takes the column behind its own.
    fn exchange_east(&mut self)
        requires { IsDomain self.old }
        ensures domain { IsDomain self.new }
        ensures size { SameSize self.old self.new }
        ensures exchanged { (own west east : ℕ → ℕ → ℕ) → AllHold own west east self.old
            → AllHold own west own self.new }
    {
        for p in 0..self.patches.len() - 1 {
            self.take_from_east(p);
        }
    }

    // A patch makes its next memory.
    fn step_patch(&mut self, p: usize)
        requires domain { IsDomain self.old }
        requires place { p < length self.old.patches.items }
        requires grid { (n : ℕ)
            × ((other : Patch) → HoldSteps self.old n n (get_or self.old.patches.items p other)) }
        ensures domain { IsDomain self.new }
        ensures size { SameSize self.old self.new }
        ensures others { (q : ℕ) (other : Patch) → q ≢ p
            → get_or self.new.patches.items q other ≡ get_or self.old.patches.items q other }
        ensures stepped { (n : ℕ) (other : Patch)
            → HoldSteps self.old n n (get_or self.old.patches.items p other)
            → HoldSteps self.old (n + 1) n (get_or self.new.patches.items p other) }
    {
        let rows = self.ny;
        self.patches[p].step(rows);
    }

    // Each patch makes its next memory.
    fn step_each(&mut self)
        requires domain { IsDomain self.old }
        requires grid { (n : ℕ) × HoldGrid n n self.old }
        ensures domain { IsDomain self.new }
        ensures size { SameSize self.old self.new }
        ensures stepped { (n : ℕ) → HoldGrid n n self.old → HoldGrid (n + 1) n self.new }
    {
        for p in 0..self.patches.len() {
            self.step_patch(p);
        }
    }

    /// One step: the patches exchange columns, and then each makes its next memory.
    pub fn advance(&mut self)
        requires domain { IsDomain self.old }
        requires grid { (n : ℕ) × (m : ℕ) × HoldGrid n m self.old }
        ensures domain { IsDomain self.new }
        ensures size { SameSize self.old self.new }
        ensures stepped { (n m : ℕ) → HoldGrid n m self.old → HoldGrid (n + 1) n self.new }
    {
        self.exchange_west();
        self.exchange_east();
        self.step_each();
    }
}

// Copies a column of one patch's memory into another's.
fn pass_column(
    patches: &mut [Patch],
    column: &mut [i32],
    source: usize,
    from: usize,
    target: usize,
    to: usize,
)
    requires places { (source < length patches.old) × (target < length patches.old) }
    requires rows { Each (λ _ patch. HasRows (length column.old) patch) patches.old }
    requires from { (other : Patch) → from < (get_or patches.old source other).width }
    requires to { (other : Patch) → to < (get_or patches.old target other).width }
    ensures shape { (other : Patch)
        → KeepsShape (get_or patches.old target other) (get_or patches.new target other) }
    ensures took { (other : Patch)
        → Took to (length column.old) (column_of (get_or patches.old source other) from)
        (get_or patches.old target other) (get_or patches.new target other) }
    ensures others { (q : ℕ) (other : Patch) → q ≢ target
        → get_or patches.new q other ≡ get_or patches.old q other }
{
    let neighbour = &patches[source];
    read_column(&neighbour.values, neighbour.width, from, column);
    patches[target].take_column(to, column);
}
