//! The test of what the counts ask of a plan's times.

ghost use Rattle.std.specs.Prelude.{◌≡◌, ◌↔◌, ◌-◌, ◌*◌, ◌%◌, ◌==◌, ◌&&◌, IsTrue, length};
ghost use Rattle.std.specs.List.{list_all, range_with_len};
ghost use Rattle.wf_model.specs.Plans.{domain_of, domains_of};
ghost use Rattle.wf_model.specs.Sound.{IsDomain};
ghost use Rattle.wf_count_laws.specs.InTime.{are_in_time, is_in_time};
ghost use Rattle.wf_model.specs.Weights.{HasDomainsInTime};
ghost use Rattle.wf_counts.specs.Parts.{all_in_time, begins_with_parent, fills_parent, has_seconds};

use crate::times::{begins_at, domain_at, seconds_of};
use wf_model::Plan;

/// Whether a number is a multiple of this one; of 0 only 0 is.
fn is_multiple(number: u64, of_this: u64) -> bool
    ensures { result ≡ (number % of_this == 0) }
{
    if of_this == 0 {
        number == 0
    } else {
        number % of_this == 0
    }
}

/// Whether a step of a domain takes a second at least.
fn has_seconds(plan: &Plan, number: usize) -> bool
    requires { IsDomain plan.now number }
    ensures { result ≡ has_seconds plan.now number }
{
    1 <= domain_at(plan, number).seconds
}

/// Whether the steps of a nest fill its parent's.
fn fills_parent(plan: &Plan, number: usize) -> bool
    requires { IsDomain plan.now number }
    ensures { result ≡ fills_parent plan.now number }
{
    let nest = domain_at(plan, number);
    let steps = u128::from(nest.seconds) * u128::from(nest.time_ratio);
    steps == u128::from(seconds_of(plan, nest.parent))
}

/// Whether a nest begins with a step of its parent and not before it.
fn begins_with_parent(plan: &Plan, number: usize) -> bool
    requires nest { IsDomain plan.now number }
    requires parent { IsDomain plan.now (domain_of plan.now number).parent }
    ensures { result ≡ begins_with_parent plan.now number }
{
    let parent = domain_at(plan, number).parent;
    let begin = begins_at(plan, number);
    is_multiple(begin, seconds_of(plan, parent)) && begins_at(plan, parent as usize) <= begin
}

/// The same of its parent's steps and of its begin.
fn goes_with_parent(plan: &Plan, number: usize) -> bool
    requires nest { IsDomain plan.now number }
    requires parent { IsDomain plan.now (domain_of plan.now number).parent }
    ensures { result ≡ fills_parent plan.now number && begins_with_parent plan.now number }
{
    fills_parent(plan, number) && begins_with_parent(plan, number)
}

/// Whether a nest is in time: its parent comes before it, its steps fill the parent's, and it
/// begins with a step of its parent and not before it.
fn is_in_time(plan: &Plan, number: usize) -> bool
    requires { IsDomain plan.now number }
    ensures { result ≡ is_in_time plan.now number }
{
    let parent = domain_at(plan, number).parent as usize;
    1 <= parent && parent < number && goes_with_parent(plan, number)
}

/// Whether the steps of all domains take a second at least.
fn have_seconds(plan: &Plan) -> bool
    ensures { result ≡ list_all (has_seconds plan.now) (domains_of plan.now) }
{
    for place in 0..plan.domains.as_slice().len() {
        if !has_seconds(plan, place + 1) {
            return false;
        }
    }
    true
}

/// Whether all nests, which are the domains from 2 on, are in time.
fn nests_are_in_time(plan: &Plan) -> bool
    ensures { result
        ≡ list_all (is_in_time plan.now) (range_with_len 2 (length plan.now.domains - 1)) }
{
    for place in 1..plan.domains.as_slice().len() {
        if !is_in_time(plan, place + 1) {
            return false;
        }
    }
    true
}

/// Both of these.
fn all_in_time(plan: &Plan) -> bool
    ensures { result ≡ all_in_time plan.now }
{
    have_seconds(plan) && nests_are_in_time(plan)
}

/// Whether a plan has what the counts of this crate ask for.
fn are_in_time(plan: &Plan) -> bool
    ensures { result ≡ are_in_time plan.now }
{
    !plan.domains.as_slice().is_empty() && begins_at(plan, 1) == 0 && all_in_time(plan)
}

/// Whether a plan has what the counts of this crate ask for: a domain; domain 1 begins at the run's
/// start; each domain's step takes a second at least; a nest's parent comes before it, the nest's
/// steps fill the parent's, and it begins with one of them and not before the parent.
pub fn has_domains_in_time(plan: &Plan) -> bool
    ensures { IsTrue result ↔ HasDomainsInTime plan.now }
{
    are_in_time(plan)
}
