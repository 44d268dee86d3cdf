//! What is wrong with reads, in order; none where nothing is.

ghost use Rattle.std.specs.Prelude.{◌≡◌, IfOk, Some, flat_map, int_lt, pos};
ghost use Rattle.wf_model.specs.Reading.{first_fault};
ghost use Rattle.wf_model.specs.Reads.{reads_of};
ghost use Rattle.wf_model.specs.Plans.{domain_of, domains_of};
ghost use Rattle.wf_model.specs.PlanTests.{extent_at, read_faults};
ghost use Rattle.wf_plan_reads.specs.Regions.{edges_in, first_of, leaves_edges, leaves_levels};
ghost use Rattle.wf_plan_reads.specs.Regions.{levels_in, of_item, past_edge, past_levels};

use crate::bounds::Bounds;
use crate::fields::{extent_at, name_of};
use crate::regions::{has_region, region_z, span_x, span_y};
use crate::walk::first_outside;
use std::alloc::{AllocError, Global};
use wf_model::{Bytes, Domain, Item, Phase, Plan, PlanFault};

/// A fault, or none; or want of memory.
type Found = Result<Option<PlanFault>, AllocError>;

// ---- levels

/// Of this level.
fn past_levels(alloc: Global, plan: &Plan, phase: &Phase, field: u32) -> Found
    ensures { IfOk result (λ f. f ≡ Some (past_levels plan.now phase.now field)) }
{
    let name = Bytes::copy_of(alloc, phase.name.as_slice())?;
    let field = Bytes::copy_of(alloc, name_of(plan, field))?;
    Ok(Some(PlanFault::ReadPastLevels { phase: name, field }))
}

/// Whether the phase names a level above the extent of what it writes.
fn is_above(extents: &[i64], phase: &Phase) -> bool
    ensures { result ≡ int_lt (extent_at extents.now phase.now.writes) (pos phase.now.to) }
{
    extent_at(extents, phase.writes) < i64::from(phase.to)
}

/// The level of its first read that leaves the levels.
fn first_past_levels(plan: &Plan, extents: &[i64], phase: &Phase) -> Option<u32>
    ensures { result
        ≡ first_of (leaves_levels plan.now extents.now phase.now) (reads_of phase.now.expr) }
{
    let span = region_z(extents, phase);
    let bounds = Bounds::Levels {
        plan,
        extents,
        span,
    };
    first_outside(&phase.expr, &bounds)
}

/// Levels that the phase names above the extent of what it writes, or its first read that leaves
/// the levels.
fn phase_levels(
    alloc: Global,
    plan: &Plan,
    extents: &[i64],
    domain: &Domain,
    phase: &Phase,
) -> Found
    ensures { IfOk result
        (λ f. f ≡ first_fault (levels_in plan.now extents.now domain.now phase.now)) }
{
    if is_above(extents, phase) {
        return past_levels(alloc, plan, phase, phase.writes);
    }
    if !has_region(plan, domain, extents, phase) {
        return Ok(None);
    }
    match first_past_levels(plan, extents, phase) {
        Some(field) => {
            let fault = past_levels(alloc, plan, phase, field)?;
            Ok(fault)
        }
        None => Ok(None),
    }
}

/// The same of an item, where it is a phase.
fn item_levels(alloc: Global, plan: &Plan, extents: &[i64], domain: &Domain, item: &Item) -> Found
    ensures { IfOk result
        (λ f. f ≡ first_fault (of_item (levels_in plan.now extents.now domain.now) item.now)) }
{
    match item {
        Item::Phase(phase) => phase_levels(alloc, plan, extents, domain, phase),
        _ => Ok(None),
    }
}

/// The first fault of levels of a domain's phases.
fn domain_levels(alloc: Global, plan: &Plan, extents: &[i64], domain: &Domain) -> Found
    ensures { IfOk result (λ f. f ≡ first_fault
        (flat_map (of_item (levels_in plan.now extents.now domain.now)) plan.now.items)) }
{
    for item in plan.items.as_slice() {
        let fault = item_levels(alloc, plan, extents, domain, item)?;
        if fault.is_some() {
            return Ok(fault);
        }
    }
    Ok(None)
}

/// The first fault of levels.
fn levels_fault(alloc: Global, plan: &Plan, extents: &[i64]) -> Found
    ensures { IfOk result (λ f. f ≡ first_fault (flat_map (λ d. flat_map (of_item (levels_in
        plan.now extents.now (domain_of plan.now d))) plan.now.items) (domains_of plan.now))) }
{
    for domain in plan.domains.as_slice() {
        let fault = domain_levels(alloc, plan, extents, domain)?;
        if fault.is_some() {
            return Ok(fault);
        }
    }
    Ok(None)
}

// ---- edges

/// Of this level.
fn past_edge(alloc: Global, plan: &Plan, domain: u32, phase: &Phase, field: u32) -> Found
    ensures { IfOk result (λ f. f ≡ Some (past_edge plan.now domain phase.now field)) }
{
    let name = Bytes::copy_of(alloc, phase.name.as_slice())?;
    let field = Bytes::copy_of(alloc, name_of(plan, field))?;
    Ok(Some(PlanFault::ReadPastEdge {
        domain,
        phase: name,
        field,
    }))
}

/// The level of the first read of a phase that leaves the domain.
fn first_past_edge(plan: &Plan, domain: &Domain, phase: &Phase) -> Option<u32>
    ensures { result
        ≡ first_of (leaves_edges plan.now domain.now phase.now) (reads_of phase.now.expr) }
{
    let x = span_x(plan, domain, phase);
    let y = span_y(plan, domain, phase);
    let bounds = Bounds::Edges { plan, domain, x, y };
    first_outside(&phase.expr, &bounds)
}

/// The first read of a phase that leaves the domain, which has this number.
fn phase_edges(
    alloc: Global,
    plan: &Plan,
    extents: &[i64],
    number: u32,
    domain: &Domain,
    phase: &Phase,
) -> Found
    ensures { IfOk result
        (λ f. f ≡ first_fault (edges_in plan.now extents.now number domain.now phase.now)) }
{
    if !has_region(plan, domain, extents, phase) {
        return Ok(None);
    }
    match first_past_edge(plan, domain, phase) {
        Some(field) => {
            let fault = past_edge(alloc, plan, number, phase, field)?;
            Ok(fault)
        }
        None => Ok(None),
    }
}

/// The same of an item, where it is a phase.
fn item_edges(
    alloc: Global,
    plan: &Plan,
    extents: &[i64],
    number: u32,
    domain: &Domain,
    item: &Item,
) -> Found
    ensures { IfOk result (λ f.
        f ≡ first_fault (of_item (edges_in plan.now extents.now number domain.now) item.now)) }
{
    match item {
        Item::Phase(phase) => phase_edges(alloc, plan, extents, number, domain, phase),
        _ => Ok(None),
    }
}

/// The first fault of edges of a domain's phases.
fn domain_edges(alloc: Global, plan: &Plan, extents: &[i64], number: u32, domain: &Domain) -> Found
    ensures { IfOk result (λ f. f ≡ first_fault
        (flat_map (of_item (edges_in plan.now extents.now number domain.now)) plan.now.items)) }
{
    for item in plan.items.as_slice() {
        let fault = item_edges(alloc, plan, extents, number, domain, item)?;
        if fault.is_some() {
            return Ok(fault);
        }
    }
    Ok(None)
}

/// The first fault of edges.
fn edges_fault(alloc: Global, plan: &Plan, extents: &[i64]) -> Found
    ensures { IfOk result (λ f. f ≡ first_fault (flat_map (λ d. flat_map (of_item (edges_in plan.now
        extents.now d (domain_of plan.now d))) plan.now.items) (domains_of plan.now))) }
{
    for (i, domain) in plan.domains.as_slice().iter().enumerate() {
        let Ok(number) = u32::try_from(i + 1) else {
            return Err(AllocError);
        };
        let fault = domain_edges(alloc, plan, extents, number, domain)?;
        if fault.is_some() {
            return Ok(fault);
        }
    }
    Ok(None)
}

/// The first read of a phase that leaves the levels or the extent of what it reads.
///
/// Of the extents in z each is that of the level with its number, with its sign. For each domain,
/// in order, and each phase, in the order of the table, the levels are judged: levels that the
/// phase names above the extent of the level that it writes, even where its region has no points,
/// and then its reads from left to right, each at every level of the region; a level without a z
/// letter is read at its one level. Then, again for each domain and phase, each read is judged at
/// every point of the region in the directions that aren't periodic. Reads count only where the
/// region has points. These rules are this project's own.
///
/// A number past the end of the levels or extents has a level without name, letters and extent. The
/// error is want of memory; it also comes where the number of a domain doesn't fit 32 bits.
pub fn read_fault(
    alloc: Global,
    plan: &Plan,
    extents: &[i64],
) -> Result<Option<PlanFault>, AllocError>
    ensures { IfOk result (λ f. f ≡ first_fault (read_faults plan.now extents.now)) }
{
    let levels = levels_fault(alloc, plan, extents)?;
    if levels.is_some() {
        return Ok(levels);
    }
    let edges = edges_fault(alloc, plan, extents)?;
    Ok(edges)
}
