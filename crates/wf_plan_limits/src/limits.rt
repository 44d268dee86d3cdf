//! The first limit that a plan passes.

ghost use Rattle.std.specs.Prelude.{◌≡◌, ◌≤◌, IfOk, length, map};
ghost use Rattle.wf_model.specs.PlanTests.{extent_fault, limit_faults};
ghost use Rattle.wf_model.specs.Reading.{first_fault};
ghost use Rattle.wf_plan_limits.specs.LimitParts.{size_faults, run_faults};

use crate::cells::all_cells;
use crate::files::files_fault;
use crate::found::{Found, limited};
use crate::script::script_fault;
use std::alloc::{AllocError, Global};
use wf_counts::has_domains_in_time;
use wf_model::limits::{CELLS, EXTENT_IN_Z, FIELD_LEVELS};
use wf_model::{Plan, PlanFault, Which};

/// Whether an extent in z is 1 to 128.
fn extent_fault(extent: i64) -> Option<PlanFault>
    ensures { result ≡ extent_fault extent }
{
    if 1 <= extent && extent <= i64::from(EXTENT_IN_Z) {
        return None;
    }
    Some(PlanFault::Limit {
        which: Which::Extent,
        value: i128::from(extent),
    })
}

/// The first extent that isn't.
fn extents_fault(extents: &[i64]) -> Option<PlanFault>
    ensures { result ≡ first_fault (map extent_fault extents.now) }
{
    for extent in extents {
        let fault = extent_fault(*extent);
        if fault.is_some() {
            return fault;
        }
    }
    None
}

/// What passes its limit of levels, extents and cells.
fn size_fault(plan: &Plan, extents: &[i64]) -> Found
    ensures { IfOk result (λ f. f ≡ first_fault (size_faults plan.now extents.now)) }
{
    let levels = plan.fields.as_slice().len() as u128;
    let fault = limited(Which::Levels, FIELD_LEVELS, levels)?;
    if fault.is_some() {
        return Ok(fault);
    }
    let fault = extents_fault(extents);
    if fault.is_some() {
        return Ok(fault);
    }
    limited(Which::Cells, CELLS, all_cells(plan)?)
}

/// What passes its limit of the script's items and the bytes of files. Domains out of time count as
/// want of memory.
fn run_fault(alloc: Global, plan: &Plan) -> Found
    requires { length plan.now.fields ≤ 64 }
    ensures { IfOk result (λ f. f ≡ first_fault (run_faults plan.now)) }
{
    if plan.domains.as_slice().is_empty() {
        return Ok(None);
    }
    if !has_domains_in_time(plan) {
        return Err(AllocError);
    }
    let fault = script_fault(plan)?;
    if fault.is_some() {
        return Ok(fault);
    }
    files_fault(alloc, plan)
}

/// The first limit that a plan passes, if any, for any number of domains.
///
/// `extents` are the extents in z that are asked for, in the order in which they are judged; they
/// stand beside the plan, since its type can't hold one below 0. The tests, in this order:
///
/// - more than 64 field levels;
/// - an extent in z that isn't 1 to 128;
/// - more than 50,000,000 cells of all levels in all domains;
/// - more than 1,000,000 items of the script, counted as if no domain resumed, and with one restart
///   file more of each domain where a restart writes restart files;
/// - of each domain, for streams 0 to 9 and then restart files, a file of more than 2,147,483,644
///   bytes in version 1, or 1,099,511,627,776 in version 2, with as many records as it takes in
///   this run.
///
/// The fault has the number that passes its limit. The limits are this project's own; that of
/// version 1 keeps all places in a file below 2 to the 31.
///
/// What can't be counted is answered as want of memory, after the tests before it: the script of
/// domains that are out of time, as `has_domains_in_time` of `wf_counts` tells, which no plan has
/// whose tests of domains, dates and nests passed; files of fields out of their ranges, or with a
/// header that can't be placed; a number from 2 to the 127 on.
pub fn limit_fault(
    alloc: Global,
    plan: &Plan,
    extents: &[i64],
) -> Result<Option<PlanFault>, AllocError>
    ensures { IfOk result (λ f. f ≡ first_fault (limit_faults plan.now extents.now)) }
{
    let fault = size_fault(plan, extents)?;
    if fault.is_some() {
        return Ok(fault);
    }
    run_fault(alloc, plan)
}
