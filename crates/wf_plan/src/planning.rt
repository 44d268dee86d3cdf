//! A plan put together, and tested.

ghost use Rattle.std.specs.Prelude.{◌≡◌, IfOk};
ghost use Rattle.wf_model.specs.Reading.{Gives, first_fault};
ghost use Rattle.wf_model.specs.PlanOf.{plan_of};
ghost use Rattle.wf_model.specs.PlanTests.{item_faults};
ghost use Rattle.wf_plan_domains.specs.DomainErrors.{fault_of};

use std::alloc::{AllocError, Global};
use wf_model::{Config, HookName, Item, List, Plan, PlanFault};
use wf_plan_domains::{PlanError, domain_plan};
use wf_plan_fields::{Levels, levels};
use wf_plan_limits::limit_fault;
use wf_plan_reads::read_fault;

/// The first fault of what phases read, and else of limits.
#[tactic(auto, using(crate::proofs::ItemFaults::in_reads, crate::proofs::ItemFaults::in_limits))]
fn item_fault(alloc: Global, plan: &Plan, extents: &[i64]) -> Result<Option<PlanFault>, AllocError>
    ensures { IfOk result (λ f. f ≡ first_fault (item_faults plan.now extents.now)) }
{
    match read_fault(alloc, plan, extents)? {
        Some(fault) => Ok(Some(fault)),
        None => limit_fault(alloc, plan, extents),
    }
}

/// The plan of a config and a stencil table, where stored functions have these names, or the first
/// of its tests that fails.
///
/// First comes what isn't built, by the order in which it will be: a `max_dom` above 1, `restart`,
/// a `restart_interval` above 0, an `auxhist` stream's interval above 0. Then come dates, the end
/// of the run past the year 9999, parents, ratios, sizes, edges and periods of nests, their steps,
/// the run's length in steps, the nests' starts and the intervals of streams, each for all domains;
/// then reads of phases past the levels, for all domains, and past an edge that isn't periodic; and
/// last the limits, in the order levels, extents in z, cells, items of the script and bytes of
/// files. Domains count from 1; fields, levels and items from 0 in Registry and table order. The
/// rules of nests, steps and intervals are WRF's, their order and the limits this project's own.
///
/// The error `Memory` is want of memory. It also comes where a number or a name doesn't fit its
/// type, which is so for no config of a Registry that was read and a namelist that was bound to it.
pub fn plan(
    alloc: Global,
    config: &Config,
    table: List<Item>,
    hooks: &[HookName],
) -> Result<Plan, PlanError>
    ensures { Gives (λ p. p) fault_of result (plan_of config.now hooks.now table) }
{
    let bare = domain_plan(alloc, config)?;
    let Levels { fields, extents } = levels(alloc, config, hooks)?;
    let whole = Plan {
        fields,
        items: table,
        ..bare
    };
    match item_fault(alloc, &whole, extents.as_slice())? {
        Some(fault) => Err(PlanError::Fault(fault)),
        None => Ok(whole),
    }
}
