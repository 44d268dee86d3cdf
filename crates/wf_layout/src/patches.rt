//! The tests of the numbers of patches.

ghost use Rattle.std.specs.Prelude.{◌≡◌, ◌≤◌, nat_lt, length};
ghost use Rattle.wf_model.specs.declared.plan_fault.LayoutFault.TheVariants.{TooManyPatches};
ghost use Rattle.wf_model.specs.Reading.{fault_if, first_fault};
ghost use Rattle.wf_model.specs.PlanOf.{patches_faults};
ghost use Rattle.wf_model.specs.Sound.{IsDomain};
ghost use Rattle.wf_layout.specs.Faults.{all_patches_faults};

use wf_model::limits::PATCHES;
use wf_model::{Layout, LayoutFault, Plan};

/// More patches of a domain than it may have.
fn too_many(domain: u32, most: u64, count: u64) -> Option<LayoutFault>
    ensures { result ≡ fault_if (nat_lt most count) (TooManyPatches domain count) }
{
    if most < count {
        Some(LayoutFault::TooManyPatches {
            domain,
            value: count,
        })
    } else {
        None
    }
}

/// More patches than points of a domain in x or in y, or too many in all.
fn patches_fault(plan: &Plan, layout: &Layout, number: u32) -> Option<LayoutFault>
    requires { IsDomain plan.now number }
    ensures { result ≡ first_fault (patches_faults plan.now layout.now number) }
{
    let domain = plan.domain(number);
    let width = u64::from(domain.ide.saturating_sub(1));
    let fault = too_many(number, width, u64::from(layout.nproc_x));
    if fault.is_some() {
        return fault;
    }
    let height = u64::from(domain.jde.saturating_sub(1));
    let fault = too_many(number, height, u64::from(layout.nproc_y));
    if fault.is_some() {
        return fault;
    }
    let all = u64::from(layout.nproc_x) * u64::from(layout.nproc_y);
    too_many(number, u64::from(PATCHES), all)
}

/// The first domain that has too many patches.
pub(crate) fn all_patches_fault(plan: &Plan, layout: &Layout) -> Option<LayoutFault>
    requires { length plan.now.domains ≤ 8 }
    ensures { result ≡ first_fault (all_patches_faults plan.now layout.now) }
{
    let last = plan.domains.as_slice().len() as u32;
    for number in 1..last + 1 {
        let fault = patches_fault(plan, layout, number);
        if fault.is_some() {
            return fault;
        }
    }
    None
}
