//! Numbers that pass their limits, as faults.

ghost use Rattle.std.specs.Prelude.{◌≡◌, ◌<◌, ◌^◌, IfOk, OnOk, Some, nat_lt, pos};
ghost use Rattle.wf_model.specs.Reading.{fault_if};
ghost use Rattle.wf_model.specs.declared.plan_fault.PlanFault.TheVariants.{Limit};

use std::alloc::AllocError;
use wf_model::{PlanFault, Which};

/// A fault, or none; or want of memory.
pub(crate) type Found = Result<Option<PlanFault>, AllocError>;

/// A number past its limit, as a fault; one that the fault can't hold counts as want of memory.
pub(crate) fn as_limit(which: Which, value: u128) -> Found
    ensures limit { IfOk result (λ f. f ≡ Some (Limit which (pos value))) }
    ensures fits { OnOk result (value < 2 ^ 127) }
{
    match i128::try_from(value) {
        Ok(value) => Ok(Some(PlanFault::Limit { which, value })),
        Err(_) => Err(AllocError),
    }
}

/// A number, as a fault where it passes its limit.
pub(crate) fn limited(which: Which, most: u128, value: u128) -> Found
    ensures { IfOk result (λ f. f ≡ fault_if (nat_lt most value) (Limit which (pos value))) }
{
    if value <= most {
        Ok(None)
    } else {
        as_limit(which, value)
    }
}
