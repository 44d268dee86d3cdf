//! How many points a field level has in a domain, and in files: a staggered one has one more.

ghost use Rattle.std.specs.Prelude.{◌≡◌, ℕ, ◌+◌, ◌-◌, ◌<◌, length};
ghost use Rattle.wf_model.specs.Plans.{domain_of, field_of, item_of, extra, nx, ny, nz};
ghost use Rattle.wf_model.specs.Streams.{one_if};
ghost use Rattle.wf_model.specs.Sound.{IsDomain, IsLevel};

use crate::plan::{Domain, Field, Item, Plan};

/// How many points a field level has from west to east (columns) and from south to north (rows),
/// and how many levels in z.
#[derive(Clone, Copy, Debug, PartialEq, Eq)]
pub struct Extents {
    pub columns: u32,
    pub rows: u32,
    pub levels: u32,
}

/// The points of its own that a field level has in a direction: one that is staggered has one more,
/// but in a periodic direction. `end` is WRF's e_we or e_sn.
pub fn points(end: u32, staggered: bool, periodic: bool) -> u32
    ensures { result ≡ end - 1 + extra staggered periodic }
{
    let own = end.saturating_sub(1);
    if staggered && !periodic { own + 1 } else { own }
}

/// The same in files, where a staggered one has its extra point in a periodic direction too.
pub fn file_points(end: u32, staggered: bool) -> u32
    ensures { result ≡ end - 1 + one_if staggered }
{
    let own = end.saturating_sub(1);
    if staggered { own + 1 } else { own }
}

impl Domain {
    /// The points of its own that a field level has in this domain.
    pub fn extents(&self, field: &Field) -> Extents
        ensures columns { result.columns
            ≡ self.now.ide - 1 + extra field.now.stag_x self.now.periodic_x }
        ensures rows { result.rows ≡ self.now.jde - 1 + extra field.now.stag_y self.now.periodic_y }
        ensures levels { result.levels ≡ field.now.nz }
    {
        Extents {
            columns: points(self.ide, field.stag_x, self.periodic_x),
            rows: points(self.jde, field.stag_y, self.periodic_y),
            levels: field.nz,
        }
    }

    /// The points that a field level has in files of this domain.
    pub fn file_extents(&self, field: &Field) -> Extents
        ensures columns { result.columns ≡ self.now.ide - 1 + one_if field.now.stag_x }
        ensures rows { result.rows ≡ self.now.jde - 1 + one_if field.now.stag_y }
        ensures levels { result.levels ≡ field.now.nz }
    {
        Extents {
            columns: file_points(self.ide, field.stag_x),
            rows: file_points(self.jde, field.stag_y),
            levels: field.nz,
        }
    }
}

impl Plan {
    /// The domain of a number, from 1.
    pub fn domain(&self, number: u32) -> &Domain
        requires { IsDomain self.now number }
        ensures { result.now ≡ domain_of self.now number }
    {
        &self.domains.as_slice()[number as usize - 1]
    }

    /// The field level of a number, from 0.
    pub fn field(&self, number: u32) -> &Field
        requires { IsLevel self.now number }
        ensures { result.now ≡ field_of self.now number }
    {
        &self.fields.as_slice()[number as usize]
    }

    /// The item of the stencil table of a number, from 0.
    pub fn item(&self, number: u32) -> &Item
        requires { number < length self.now.items }
        ensures { result.now ≡ item_of self.now number }
    {
        &self.items.as_slice()[number as usize]
    }

    /// The points of its own that a field level has in a domain, both by number.
    pub fn extents(&self, domain: u32, field: u32) -> Extents
        requires domain { IsDomain self.now domain }
        requires field { IsLevel self.now field }
        ensures columns { result.columns ≡ nx self.now domain field }
        ensures rows { result.rows ≡ ny self.now domain field }
        ensures levels { result.levels ≡ nz self.now field }
    {
        self.domain(domain).extents(self.field(field))
    }
}
