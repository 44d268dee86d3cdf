//! How far the memory of a patch goes beyond its own points.

ghost use Rattle.std.specs.Prelude.{◌≡◌, map};
ghost use Rattle.wf_model.specs.declared.plan.HaloPart.{HaloPart};
ghost use Rattle.wf_model.specs.declared.plan.PeriodPart.{PeriodPart};
ghost use Rattle.wf_model.specs.Reads.{greatest, item_margin, margin_of};

use crate::reaches::expr_reach;
use wf_model::{HaloPart, Item, PeriodPart, Plan};

/// The greatest radius of a halo's parts.
#[tactic(auto, using(crate::proofs::Greatest::greatest_more))]
fn halo_margin(parts: &[HaloPart]) -> u32
    ensures { result ≡ greatest (map (λ (p : HaloPart). p.radius) parts.now) }
{
    let mut most = 0u32;
    for part in parts {
        most = most.max(part.radius);
    }
    most
}

/// The greatest width of a period's parts.
#[tactic(auto, using(crate::proofs::Greatest::greatest_more))]
fn period_margin(parts: &[PeriodPart]) -> u32
    ensures { result ≡ greatest (map (λ (p : PeriodPart). p.width) parts.now) }
{
    let mut most = 0u32;
    for part in parts {
        most = most.max(part.width);
    }
    most
}

/// How far an item asks for cells beyond a patch's own.
fn item_margin(item: &Item) -> u64
    ensures { result ≡ item_margin item.now }
{
    match item {
        Item::Halo(parts) => u64::from(halo_margin(parts.as_slice())),
        Item::Period(parts) => u64::from(period_margin(parts.as_slice())),
        Item::Swap(_, _) => 0,
        Item::Phase(phase) => u64::from(phase.extend) + u64::from(expr_reach(&phase.expr)),
    }
}

/// How far the memory of a patch goes beyond its own points: the farthest that an item of the plan
/// asks for cells. A halo asks for its radius, a period for its width, and a phase for the cells
/// that it computes around its own and those that it reads of them.
#[tactic(auto, using(crate::proofs::Greatest::greatest_more), unfolding(wf_model::specs::Reads::margin_of))]
pub fn margin(plan: &Plan) -> u64
    ensures { result ≡ margin_of plan.now }
{
    let mut most = 0u64;
    for item in plan.items.as_slice() {
        most = most.max(item_margin(item));
    }
    most
}
