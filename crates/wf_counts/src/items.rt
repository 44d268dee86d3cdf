//! The items of the script.

ghost use Rattle.std.specs.Prelude.{◌≡◌, sum_by, if◌then◌else◌};
ghost use Rattle.wf_model.specs.Plans.{domains_of};
ghost use Rattle.wf_model.specs.Sound.{IsDomain};
ghost use Rattle.wf_model.specs.Streams.{one_if};
ghost use Rattle.wf_model.specs.Counts.{more_restarts, script_items};
ghost use Rattle.wf_model.specs.Weights.{HasDomainsInTime};
ghost use Rattle.wf_count_laws.specs.Occurrences.{begins_within};
ghost use Rattle.wf_count_laws.specs.ByDomains.{domain_items, nest_items};
ghost use Rattle.wf_counts.specs.Capped.{capped};

use crate::frames::domain_frames;
use crate::times::{begins_within, own_steps, parent_steps};
use wf_model::Plan;

/// A nest's start, where it begins within the run.
fn start_item(plan: &Plan, number: usize) -> u128
    requires { IsDomain plan.now number }
    ensures { result ≡ one_if (begins_within plan.now number) }
{
    u128::from(begins_within(plan, number))
}

/// The items of a nest that each step of its parent has: it is forced, and may feed back.
fn items_of_a_step(plan: &Plan) -> u128
    ensures { result ≡ (if plan.now.feedback then 2 else 1) }
{
    if plan.feedback { 2 } else { 1 }
}

/// A nest's start, forces and feedbacks; domain 1 has none.
pub(crate) fn nest_items(plan: &Plan, number: usize) -> u128
    requires { IsDomain plan.now number }
    ensures { result ≡ capped (nest_items plan.now number) }
{
    if number == 1 {
        return 0;
    }
    let nesting = parent_steps(plan, number).saturating_mul(items_of_a_step(plan));
    start_item(plan, number).saturating_add(nesting)
}

/// The items of a domain.
fn domain_items(plan: &Plan, number: usize) -> u128
    requires { IsDomain plan.now number }
    ensures { result ≡ capped (domain_items plan.now number) }
{
    let items = plan.items.as_slice().len() as u128;
    own_steps(plan, number)
        .saturating_mul(items)
        .saturating_add(domain_frames(plan, number))
        .saturating_add(nest_items(plan, number))
}

/// One more restart file of each domain where a restart writes restart files.
pub(crate) fn more_restarts(plan: &Plan) -> u128
    ensures value { result ≡ more_restarts plan.now }
{
    if plan.restart && plan.restart_steps > 0 {
        plan.domains.as_slice().len() as u128
    } else {
        0
    }
}

/// The items of all domains.
#[tactic(auto, using(crate::proofs::CappedSums::none_yet, crate::proofs::CappedSums::domains_more))]
fn items_of_domains(plan: &Plan) -> u128
    ensures { result ≡ capped (sum_by (domain_items plan.now) (domains_of plan.now)) }
{
    let mut total = 0u128;
    for place in 0..plan.domains.as_slice().len() {
        total = total.saturating_add(domain_items(plan, place + 1));
    }
    total
}

/// The number of the script's items where no domain resumes, and what a restart adds, for any
/// number of domains.
///
/// A number that 128 bits can't hold is told as the greatest that they hold.
pub fn script_items(plan: &Plan) -> u128
    requires { HasDomainsInTime plan.now }
    ensures { result ≡ capped (script_items plan.now) }
{
    items_of_domains(plan).saturating_add(more_restarts(plan))
}
