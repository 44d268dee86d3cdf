ghost use Rattle.std.specs.Prelude.{◌≡◌, ◌≤◌, ◌<◌, ◌-◌, ◌^◌, ◌↔◌, length, IfOk, IfErr, IsOk};
ghost use Rattle.wf_model.specs.Covered.{IsCovered};
ghost use Rattle.wf_model.specs.Sound.{IsSoundPlan};
ghost use Rattle.wf_check.specs.Refused.{Refuses};

use crate::error::HaloError;
use crate::items::plan_error;
use std::marker::Model;
use wf_model::Plan;

/// A plan that the halo check accepts. Contracts see the plan.
#[derive(Drop)]
pub struct Checked {
    plan: Plan,
}

impl Model for Checked {
    ghost use Rattle.wf_model.specs.contracts.expr.Expr as e;
    ghost use Rattle.std.specs.Coded.{codes};
    ghost use Rattle.wf_model.specs.Covered.{IsCovered as Covers};
    ghost use Rattle.wf_model.specs.declared.plan.Plan as held;

    ghost Value = { held.Plan };

    ghost coded = { Prim.hlevel (codes, e.the_row.coded) };

    ghost view = { λ it. it.plan };

    ghost invariant = { λ it. Covers it.plan };
}

impl Checked {
    /// The plan, which is covered.
    pub fn plan(&self) -> &Plan
        ensures value { result.now ≡ self.now }
        ensures covered { IsCovered self.now }
    {
        &self.plan
    }
}

/// Looks back from each read of each phase, in the finest layout of each domain, for what last
/// wrote the cell.
///
/// The plan is accepted exactly where the rule holds of all reads: then phases read the grid's
/// numbers on every layout. Else the plan is handed back with the first read that is not covered,
/// by domain, item, and from left to right. A refusal is honest: in the finest layout some patch
/// computes a point of that phase, in the third cycle of its domain, and reads a stale cell there.
/// Domains count from 1, items and levels from 0. The rule is this project's own (`Covered` of
/// wf_model). It takes no memory, and its time does not grow with the domains' sizes.
pub fn check(plan: Plan) -> Result<Checked, (Plan, HaloError)>
    requires sound { IsSoundPlan plan }
    requires domains { length plan.domains < 2 ^ 32 - 1 }
    requires items { length plan.items < 2 ^ 32 }
    ensures exactly { IsOk result ↔ IsCovered plan }
    ensures accepted { IfOk result (λ c. c ≡ plan) }
    ensures refused { IfErr result (λ r. (r.0 ≡ plan) × Refuses plan r.1) }
{
    match plan_error(&plan) {
        None => Ok(Checked { plan }),
        Some(error) => Err((plan, error)),
    }
}
