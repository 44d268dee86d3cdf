//! The tests of nests.

ghost use Rattle.std.specs.Prelude.{◌≡◌, ◌≤◌, length, pos};
ghost use Rattle.std.specs.Int.{int_rem_euclid};
ghost use Rattle.wf_model.specs.PlanTests.{at_edge, counted_start, edge_fault, is_zero};
ghost use Rattle.wf_model.specs.PlanTests.{parent_fault, periodic_fault, ratio_fault, size_fault};
ghost use Rattle.wf_model.specs.PlanTests.{start_fault, step_fault};
ghost use Rattle.wf_plan_domains.specs.DomainTests.{nest_fault, nests_fault};

use crate::numbers::{is_multiple, quotient};
use crate::shape::shape_at;
use wf_model::{Plan, PlanFault};

/// The fault of a nest whose parent doesn't come before it.
fn parent_fault(plan: &Plan, nest: u32) -> Option<PlanFault>
    ensures { result ≡ parent_fault plan.now nest }
{
    let parent = shape_at(plan, nest).parent;
    if parent == 0 || nest <= parent {
        return Some(PlanFault::BadParent { domain: nest });
    }
    None
}

/// The fault of an even grid ratio.
fn ratio_fault(plan: &Plan, nest: u32) -> Option<PlanFault>
    ensures { result ≡ ratio_fault plan.now nest }
{
    if shape_at(plan, nest).ratio % 2 == 0 {
        return Some(PlanFault::BadRatio { domain: nest });
    }
    None
}

/// The fault of a nest that doesn't cover whole cells of its parent, or has another number
/// of levels.
fn size_fault(plan: &Plan, nest: u32) -> Option<PlanFault>
    ensures { result ≡ size_fault plan.now nest }
{
    let own = shape_at(plan, nest);
    let parent = shape_at(plan, own.parent);
    let ratio = u64::from(own.ratio);
    let cells_x = u64::from(own.ide.saturating_sub(1));
    let cells_y = u64::from(own.jde.saturating_sub(1));
    if is_multiple(cells_x, ratio) && is_multiple(cells_y, ratio) && own.kde == parent.kde {
        return None;
    }
    Some(PlanFault::NestSize { domain: nest })
}

/// Whether so many cells from this parent point on touch the edge of a parent of so many points.
fn is_at_edge(start: u64, cells: u64, points: u64) -> bool
    ensures { result ≡ at_edge start cells points }
{
    start < 2 || u128::from(points) < u128::from(start) + u128::from(cells)
}

/// The fault of a nest that touches its parent's edge.
fn edge_fault(plan: &Plan, nest: u32) -> Option<PlanFault>
    ensures { result ≡ edge_fault plan.now nest }
{
    let own = shape_at(plan, nest);
    let parent = shape_at(plan, own.parent);
    let ratio = u64::from(own.ratio);
    let cells_x = quotient(u64::from(own.ide.saturating_sub(1)), ratio);
    let cells_y = quotient(u64::from(own.jde.saturating_sub(1)), ratio);
    let points_x = u64::from(parent.ide.saturating_sub(1));
    let points_y = u64::from(parent.jde.saturating_sub(1));
    if is_at_edge(u64::from(own.i_start), cells_x, points_x)
        || is_at_edge(u64::from(own.j_start), cells_y, points_y)
    {
        return Some(PlanFault::NestAtEdge { domain: nest });
    }
    None
}

/// The fault of a periodic nest.
fn periodic_fault(plan: &Plan, nest: u32) -> Option<PlanFault>
    ensures { result ≡ periodic_fault plan.now nest }
{
    let own = shape_at(plan, nest);
    if own.periodic_x || own.periodic_y {
        return Some(PlanFault::NestPeriodic { domain: nest });
    }
    None
}

/// The fault of a nest whose steps don't fill its parent's.
fn step_fault(plan: &Plan, nest: u32) -> Option<PlanFault>
    ensures { result ≡ step_fault plan.now nest }
{
    let own = shape_at(plan, nest);
    let parent = shape_at(plan, own.parent);
    if is_multiple(parent.seconds, u64::from(own.time_ratio)) {
        return None;
    }
    Some(PlanFault::StepNotWhole { domain: nest })
}

/// Whether a time, in seconds from domain 1's start, is one of a domain's steps. Where a step takes
/// no time, those before the start count.
fn is_step(time: i64, seconds: u64) -> bool
    ensures { result ≡ is_zero (int_rem_euclid time (pos seconds)) }
{
    if seconds == 0 {
        time <= 0
    } else {
        i128::from(time).rem_euclid(i128::from(seconds)) == 0
    }
}

/// A start as it is compared: with restart, one before domain 1's counts as domain 1's.
fn counted_start(plan: &Plan, time: i64) -> i64
    ensures { result ≡ counted_start plan.now time }
{
    if plan.restart { time.max(0) } else { time }
}

/// The fault of a nest that starts at no step of its parent, before its parent, or without restart
/// before domain 1.
fn start_fault(plan: &Plan, nest: u32) -> Option<PlanFault>
    ensures { result ≡ start_fault plan.now nest }
{
    let own = shape_at(plan, nest);
    let parent = shape_at(plan, own.parent);
    let is_before_parent = counted_start(plan, own.begins) < counted_start(plan, parent.begins);
    if !is_step(own.begins, parent.seconds)
        || is_before_parent
        || (!plan.restart && own.begins < 0)
    {
        return Some(PlanFault::NestStart { domain: nest });
    }
    None
}

/// The tests that each nest has to pass.
#[derive(Clone, Copy)]
pub(crate) enum NestTest {
    Parent,
    Ratio,
    Size,
    Edge,
    Periodic,
    Step,
    Start,
}

/// What a test of this kind finds of a nest.
fn nest_fault(test: NestTest, plan: &Plan, nest: u32) -> Option<PlanFault>
    ensures { result ≡ nest_fault test plan.now nest }
{
    match test {
        NestTest::Parent => parent_fault(plan, nest),
        NestTest::Ratio => ratio_fault(plan, nest),
        NestTest::Size => size_fault(plan, nest),
        NestTest::Edge => edge_fault(plan, nest),
        NestTest::Periodic => periodic_fault(plan, nest),
        NestTest::Step => step_fault(plan, nest),
        NestTest::Start => start_fault(plan, nest),
    }
}

/// What a test of this kind finds of the first nest that fails it. Nests are the domains from 2 to
/// the last.
pub(crate) fn nests_fault(test: NestTest, plan: &Plan, last: u32) -> Option<PlanFault>
    requires count { last ≡ length plan.now.domains }
    requires most { last ≤ 8 }
    ensures { result ≡ nests_fault test plan.now }
{
    for nest in 2..last + 1 {
        let fault = nest_fault(test, plan, nest);
        if fault.is_some() {
            return fault;
        }
    }
    None
}
