//! A step of a domain, and whether a use of a level comes first in two of them.

ghost use Rattle.std.specs.Prelude.{◌≡◌, ◌&&◌, ◌++◌, nat_lt, length};
ghost use Rattle.wf_model.specs.Live.{deeds_of, live_through};
ghost use Rattle.wf_model.specs.Plans.{children, domain_of};
ghost use Rattle.wf_restart_check.specs.Fates.{fate_of, fates, first_deeds, half_deeds, last_deeds};
ghost use Rattle.wf_restart_check.specs.Fates.{middle_deeds, rest_deeds};

use crate::deeds::{feed_fate, force_fate, frames_fate, items_fate, start_fate};
use crate::fate::{Fate, is_used};
use wf_check_walk::has_nests;
use wf_model::{Domain, Plan};

/// A domain's force, and its nests' start.
#[tactic(auto, using(crate::proofs::Chains::chain_on, crate::proofs::Chains::chain_used, crate::proofs::Chains::chain_over))]
fn first_fate(plan: &Plan, number: u32, has_nests: bool, level: u32) -> Fate
    ensures { fate_of result ≡ fates plan.now number (first_deeds number has_nests) level }
{
    let is_nest = number > 1;
    match force_fate(plan, number, is_nest, level) {
        Fate::Followed(other) => start_fate(plan, number, has_nests, other),
        Fate::Used => Fate::Used,
        Fate::Overwritten => Fate::Overwritten,
    }
}

/// Its nests' force and feedback.
#[tactic(auto, using(crate::proofs::Chains::chain_on, crate::proofs::Chains::chain_used, crate::proofs::Chains::chain_over))]
fn middle_fate(plan: &Plan, number: u32, has_nests: bool, level: u32) -> Fate
    ensures { fate_of result ≡ fates plan.now number (middle_deeds plan.now has_nests) level }
{
    let is_fed = has_nests && plan.feedback;
    match force_fate(plan, number, has_nests, level) {
        Fate::Followed(other) => feed_fate(plan, number, is_fed, other),
        Fate::Used => Fate::Used,
        Fate::Overwritten => Fate::Overwritten,
    }
}

/// Whether the domain is a nest that feeds back.
fn feeds_back(plan: &Plan, number: u32) -> bool
    ensures { result ≡ (nat_lt 1 number && plan.now.feedback) }
{
    number > 1 && plan.feedback
}

/// The frames, and its own feedback.
fn last_fate(plan: &Plan, number: u32, level: u32) -> Fate
    ensures { fate_of result ≡ fates plan.now number (last_deeds plan.now number) level }
{
    match frames_fate(plan, number, level) {
        Fate::Followed(other) => feed_fate(plan, number, feeds_back(plan, number), other),
        Fate::Used => Fate::Used,
        Fate::Overwritten => Fate::Overwritten,
    }
}

/// The first deeds, and the items.
#[tactic(auto, using(crate::proofs::Chains::chain_on, crate::proofs::Chains::chain_used, crate::proofs::Chains::chain_over))]
fn half_fate(plan: &Plan, number: u32, domain: &Domain, has_nests: bool, level: u32) -> Fate
    requires { domain.now ≡ domain_of plan.now number }
    ensures { fate_of result ≡ fates plan.now number (half_deeds plan.now number has_nests) level }
{
    match first_fate(plan, number, has_nests, level) {
        Fate::Followed(other) => items_fate(plan, number, domain, other),
        Fate::Used => Fate::Used,
        Fate::Overwritten => Fate::Overwritten,
    }
}

/// All behind the items.
#[tactic(auto, using(crate::proofs::Chains::chain_on, crate::proofs::Chains::chain_used, crate::proofs::Chains::chain_over))]
fn rest_fate(plan: &Plan, number: u32, has_nests: bool, level: u32) -> Fate
    ensures { fate_of result ≡ fates plan.now number (rest_deeds plan.now number has_nests) level }
{
    match middle_fate(plan, number, has_nests, level) {
        Fate::Followed(other) => last_fate(plan, number, other),
        Fate::Used => Fate::Used,
        Fate::Overwritten => Fate::Overwritten,
    }
}

/// A whole step.
#[tactic(auto, using(crate::proofs::StepDeeds::step_on, crate::proofs::StepDeeds::step_used, crate::proofs::StepDeeds::step_over))]
fn step_fate(plan: &Plan, number: u32, domain: &Domain, has_nests: bool, level: u32) -> Fate
    requires domain { domain.now ≡ domain_of plan.now number }
    requires nests { has_nests ≡ nat_lt 0 (length (children plan.now number)) }
    ensures { fate_of result ≡ fates plan.now number (deeds_of plan.now number) level }
{
    match half_fate(plan, number, domain, has_nests, level) {
        Fate::Followed(other) => rest_fate(plan, number, has_nests, other),
        Fate::Used => Fate::Used,
        Fate::Overwritten => Fate::Overwritten,
    }
}

/// Two steps.
#[tactic(auto, using(crate::proofs::Chains::chain_on, crate::proofs::Chains::chain_used, crate::proofs::Chains::chain_over))]
fn two_fate(plan: &Plan, number: u32, domain: &Domain, has_nests: bool, level: u32) -> Fate
    requires domain { domain.now ≡ domain_of plan.now number }
    requires nests { has_nests ≡ nat_lt 0 (length (children plan.now number)) }
    ensures { fate_of result
        ≡ fates plan.now number (deeds_of plan.now number ++ deeds_of plan.now number) level }
{
    match step_fate(plan, number, domain, has_nests, level) {
        Fate::Followed(other) => step_fate(plan, number, domain, has_nests, other),
        Fate::Used => Fate::Used,
        Fate::Overwritten => Fate::Overwritten,
    }
}

/// Whether a use of the level comes first in two steps of a domain.
#[tactic(auto, using(crate::proofs::StepDeeds::live_is))]
pub fn is_live_in(plan: &Plan, number: u32, domain: &Domain, level: u32) -> bool
    requires { domain.now ≡ domain_of plan.now number }
    ensures { result ≡ live_through plan.now number
        (deeds_of plan.now number ++ deeds_of plan.now number) level }
{
    let has_nests = has_nests(plan, number);
    is_used(two_fate(plan, number, domain, has_nests, level))
}
