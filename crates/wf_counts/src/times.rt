//! Times of domains, in seconds from domain 1's start, and their numbers of steps.

ghost use Rattle.std.specs.Prelude.{◌≡◌, ◌/◌, ◌<◌};
ghost use Rattle.wf_model.specs.Plans.{domain_of};
ghost use Rattle.wf_model.specs.Script.{not_before};
ghost use Rattle.wf_model.specs.Sound.{IsDomain};
ghost use Rattle.wf_model.specs.Counts.{due_steps, own_steps};
ghost use Rattle.wf_model.specs.Weights.{begins_at, parent_steps, restart_count};
ghost use Rattle.wf_model.specs.Weights.{run_seconds};
ghost use Rattle.wf_count_laws.specs.Occurrences.{begins_within};

use wf_model::{Domain, Plan};

/// The quotient, 0 where the divisor is 0.
fn quotient(number: u128, divisor: u64) -> u128
    ensures { result ≡ number / divisor }
{
    if divisor == 0 {
        0
    } else {
        number / u128::from(divisor)
    }
}

/// How many of so many steps are due, where each so many are; none of an interval of 0.
pub(crate) fn due_steps(interval: u64, steps: u128) -> u128
    ensures { result ≡ due_steps interval steps }
{
    if interval == 0 {
        0
    } else {
        steps / u128::from(interval)
    }
}

/// The domain of this number, from 1.
#[tactic(auto, unfolding(wf_model::specs::Plans::domain_of))]
pub(crate) fn domain_at(plan: &Plan, number: usize) -> &Domain
    requires { IsDomain plan.now number }
    ensures { result.now ≡ domain_of plan.now number }
{
    &plan.domains.as_slice()[number - 1]
}

/// The seconds of a step of the domain of this number, from 1; 0 where there is none.
#[tactic(auto, unfolding(wf_model::specs::Plans::domain_of, wf_model::specs::Plans::no_domain))]
pub(crate) fn seconds_of(plan: &Plan, number: u32) -> u64
    ensures { result ≡ (domain_of plan.now number).seconds }
{
    match plan
        .domains
        .as_slice()
        .get((number as usize).saturating_sub(1))
    {
        Some(domain) => domain.seconds,
        None => 0,
    }
}

/// When the run ends.
fn run_seconds(plan: &Plan) -> u128
    ensures { result ≡ run_seconds plan.now }
{
    u128::from(plan.steps) * u128::from(seconds_of(plan, 1))
}

/// The seconds after the run's start, and 0 for a time before it.
fn seconds_not_before(seconds: i64) -> u64
    ensures { result ≡ not_before seconds }
{
    if seconds < 0 { 0 } else { seconds as u64 }
}

/// When a domain begins.
pub(crate) fn begins_at(plan: &Plan, number: usize) -> u64
    requires { IsDomain plan.now number }
    ensures { result ≡ begins_at plan.now number }
{
    seconds_not_before(domain_at(plan, number).begins)
}

/// Whether a domain begins before the run ends.
pub(crate) fn begins_within(plan: &Plan, number: usize) -> bool
    requires { IsDomain plan.now number }
    ensures { result ≡ begins_within plan.now number }
{
    u128::from(begins_at(plan, number)) < run_seconds(plan)
}

/// The steps of a domain within the run.
pub(crate) fn own_steps(plan: &Plan, number: usize) -> u128
    requires { IsDomain plan.now number }
    ensures { result ≡ own_steps plan.now number }
{
    let left = run_seconds(plan).saturating_sub(u128::from(begins_at(plan, number)));
    quotient(left, domain_at(plan, number).seconds)
}

/// The steps of its parent from a nest's begin to the run's end.
pub(crate) fn parent_steps(plan: &Plan, number: usize) -> u128
    requires { IsDomain plan.now number }
    ensures { result ≡ parent_steps plan.now number }
{
    let left = run_seconds(plan).saturating_sub(u128::from(begins_at(plan, number)));
    quotient(left, seconds_of(plan, domain_at(plan, number).parent))
}

/// The restart frames of a domain: those due steps of domain 1 that end after the domain begins.
pub(crate) fn restart_count(plan: &Plan, number: usize) -> u128
    requires { IsDomain plan.now number }
    ensures value { result ≡ restart_count plan.now number }
{
    let begin = quotient(u128::from(begins_at(plan, number)), seconds_of(plan, 1));
    let all = due_steps(plan.restart_steps, u128::from(plan.steps));
    all.saturating_sub(due_steps(plan.restart_steps, begin))
}
