ghost use Rattle.std.specs.Prelude.{◌≡◌, ◌≤◌, ◌<◌, ◌-◌, ◌^◌, ◌&&◌, not, length, MatchResult, Some};
ghost use Rattle.std.specs.Prelude.{None};
ghost use Rattle.std.specs.List.{list_any};
ghost use Rattle.wf_model.specs.Live.{is_live};
ghost use Rattle.wf_model.specs.Plans.{domain_of, field_of};
ghost use Rattle.wf_model.specs.Uncovered.{first_lost, uses_restart};
ghost use Rattle.wf_restart_check.specs.Lost.{is_lost};

use crate::fields::is_restarted;
use crate::steps::is_live_in;
use wf_model::Plan;

/// The first live level that restart files don't hold, by its number from 0.
#[derive(Clone, Copy, Debug, PartialEq, Eq)]
pub struct NotRestartable {
    pub field: u32,
}

/// Whether a use of the level comes first in two steps of some domain.
fn is_live(plan: &Plan, level: u32) -> bool
    requires { length plan.now.domains < 2 ^ 32 - 1 }
    ensures { result ≡ is_live plan.now level }
{
    for (i, domain) in plan.domains.as_slice().iter().enumerate() {
        if is_live_in(plan, (i + 1) as u32, domain, level) {
            return true;
        }
    }
    false
}

/// Whether a restart would lack the level.
fn is_lost(plan: &Plan, level: u32) -> bool
    requires { length plan.now.domains < 2 ^ 32 - 1 }
    ensures { result ≡ is_lost plan.now level }
{
    let uses_restart = plan.restart || plan.restart_steps > 0;
    uses_restart && is_live(plan, level) && !is_restarted(plan, level)
}

/// Whether restart files hold each live level: one that is used before all of it is written, in two
/// steps of some domain. Only a plan that restarts, or writes restart files, is refused. Levels
/// count from 0. The rule is this project's own (`Live` of wf_model). It takes no memory.
pub fn restart_check(plan: &Plan) -> Result<(), NotRestartable>
    requires domains { length plan.now.domains < 2 ^ 32 - 1 }
    requires fields { length plan.now.fields < 2 ^ 32 }
    ensures { MatchResult result (λ _. first_lost plan.now ≡ None)
        (λ e. first_lost plan.now ≡ Some e.field) }
{
    for field in 0..plan.fields.as_slice().len() {
        let field = field as u32;
        if is_lost(plan, field) {
            return Err(NotRestartable { field });
        }
    }
    Ok(())
}
