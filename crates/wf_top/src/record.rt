//! The record of a frame, put together from all patches.

ghost use Rattle.std.specs.Prelude.{◌≡◌, ℕ, ◌+◌, ◌<◌, ◌++◌, map, pos, OnOk};
ghost use Rattle.wf_model.specs.Plans.{up_to};
ghost use Rattle.wf_model.specs.Demo.{demo_grid};
ghost use Rattle.wf_top.specs.Domains.{IsDomain, AllHold, HoldGrid};

use crate::patches::Patches;
use std::alloc::AllocError;

impl Patches {
    // Appends a row of the domain, counted from 0: the own columns of each patch.
    fn append_row(&self, r: usize, values: &mut Vec<i32>) -> Result<(), AllocError>
        requires domain { IsDomain self.now }
        requires row { r < self.now.ny }
        ensures { (own west east : ℕ → ℕ → ℕ) → AllHold own west east self.now
            → OnOk result (values.new.items
            ≡ values.old.items ++ map (λ i. pos (own (r + 1) i)) (up_to self.now.nx)) }
    {
        for patch in &self.patches {
            let start = r * patch.width + patch.west;
            values.extend_from_slice(&patch.values[start..start + patch.own])?;
        }
        Ok(())
    }

    /// Puts the numbers of all points into `values`, row by row, in place of what it held.
    pub fn assemble(&self, values: &mut Vec<i32>) -> Result<(), AllocError>
        requires { IsDomain self.now }
        ensures { (n m : ℕ) → HoldGrid n m self.now
            → OnOk result (values.new.items ≡ demo_grid self.now.nx self.now.ny n) }
    {
        values.clear();
        for r in 0..self.ny {
            self.append_row(r, values)?;
        }
        Ok(())
    }
}
