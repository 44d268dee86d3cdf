//! The items of the script against their limit, counted without making it.

ghost use Rattle.std.specs.Prelude.{◌≡◌, IfOk};
ghost use Rattle.wf_model.specs.Weights.{HasDomainsInTime};
ghost use Rattle.wf_plan_limits.specs.LimitParts.{script_limit};

use crate::found::{Found, as_limit};
use wf_counts::script_items;
use wf_model::limits::SCRIPT_ITEMS;
use wf_model::{Plan, Which};

/// More than 1,000,000 items of the script, and what a restart adds.
pub(crate) fn script_fault(plan: &Plan) -> Found
    requires { HasDomainsInTime plan.now }
    ensures { IfOk result (λ f. f ≡ script_limit plan.now) }
{
    let items = script_items(plan);
    if items <= SCRIPT_ITEMS {
        return Ok(None);
    }
    as_limit(Which::Script, items)
}
