//! The plan of a config without field levels and items, or its first fault.

ghost use Rattle.std.specs.Prelude.{◌≡◌, ◌≤◌, IfOk, length};
ghost use Rattle.wf_model.specs.Calendar.{text_of};
ghost use Rattle.wf_model.specs.PlanDomains.{domain_total, start_moment};
ghost use Rattle.wf_model.specs.PlanTests.{domain_faults};
ghost use Rattle.wf_model.specs.Reading.{Gives, first_fault};
ghost use Rattle.wf_plan_domains.specs.DomainErrors.{fault_of};
ghost use Rattle.wf_plan_domains.specs.DomainPlans.{domain_plan_from, domain_plan_of};
ghost use Rattle.wf_plan_domains.specs.DomainTests.{nests_found};

use crate::built::unbuilt_fault;
use crate::domains::{domain_total, domains_to};
use crate::error::{Found, PlanError};
use crate::intervals::intervals_fault;
use crate::nests::{NestTest, nests_fault};
use crate::numbers::{flag, quotient, small_amount};
use crate::times::{dates_fault, end_fault, run_fault, run_seconds, start_stamp};
use std::alloc::{AllocError, Global};
use wf_model::{Config, List, Plan, PlanFault};
use wf_stamp::stamp_text;

/// The text of domain 1's start.
fn start_text(config: &Config) -> Result<[u8; 19], AllocError>
    ensures { IfOk result (λ text. text ≡ text_of (start_moment config.now 1)) }
{
    let start = start_stamp(config, 1)?;
    match stamp_text(&start, 0) {
        Ok(text) => Ok(text),
        Err(_) => Err(AllocError),
    }
}

/// What the config says of domains and times, sound or not, where it has so many domains.
pub(crate) fn plan_from(alloc: Global, config: &Config, total: u32) -> Result<Plan, AllocError>
    requires { total ≡ domain_total config.now }
    ensures value { IfOk result (λ p. p ≡ domain_plan_from config.now) }
    ensures count { IfOk result (λ p. total ≡ length p.domains) }
{
    let step = u64::from(small_amount(config, "time_step", 1)?);
    let restart_minutes = u64::from(small_amount(config, "restart_interval", 1)?);
    Ok(Plan {
        domains: List::from_vec(domains_to(alloc, config, total)?),
        fields: List::from_vec(Vec::new(alloc)),
        items: List::from_vec(Vec::new(alloc)),
        start: start_text(config)?,
        steps: quotient(run_seconds(config)?, step),
        restart_steps: quotient(restart_minutes * 60, step),
        restart: flag(config, "restart", 1),
        feedback: small_amount(config, "feedback", 1)? == 1,
        bdy_width: small_amount(config, "spec_bdy_width", 1)?,
        version: 1,
    })
}

/// The first fault of a nest but those of its start, which comes behind the length of the run.
fn nests_before_run(plan: &Plan, total: u32) -> Option<PlanFault>
    requires count { total ≡ length plan.now.domains }
    requires most { total ≤ 8 }
    ensures { result ≡ nests_found plan.now }
{
    nests_fault(NestTest::Parent, plan, total)
        .or(nests_fault(NestTest::Ratio, plan, total))
        .or(nests_fault(NestTest::Size, plan, total))
        .or(nests_fault(NestTest::Edge, plan, total))
        .or(nests_fault(NestTest::Periodic, plan, total))
        .or(nests_fault(NestTest::Step, plan, total))
}

/// The first fault of domains and times.
pub(crate) fn domains_fault(config: &Config, plan: &Plan, total: u32) -> Found
    requires count { total ≡ length plan.now.domains }
    requires most { total ≤ 8 }
    ensures { IfOk result (λ f. f ≡ first_fault (domain_faults config.now plan.now)) }
{
    let end = end_fault(config)?;
    let run = run_fault(config, plan)?;
    let intervals = intervals_fault(config, plan, total)?;
    Ok(
        dates_fault(config, total)
            .or(end)
            .or(nests_before_run(plan, total))
            .or(run)
            .or(nests_fault(NestTest::Start, plan, total))
            .or(intervals),
    )
}

/// The plan of a config without field levels and items: its domains, its start and its numbers of
/// steps; or the first fault.
///
/// Domains are numbered from 1, and streams from 0, where 10 stands for restart files. Steps and
/// starts are in seconds, the intervals of a config in minutes. A nest's step is its parent's by
/// the ratio of their steps.
///
/// The faults come in this order, each of the first domain that has it: what isn't built yet
/// (nests, restart, auxiliary streams); a start at no day of the years 1 to 9999; a run that ends
/// past the year 9999; of nests a parent that is no domain before, an even ratio, a size that fills
/// no whole cells of the parent or another number of levels, a place at the parent's edge, a
/// periodic direction, a step that doesn't fill the parent's; a run that steps don't fill; a nest's
/// start at no step of its parent, before its parent's start, or without restart before domain 1's;
/// and an interval that steps don't fill, the restart files' behind the streams of domain 1. These
/// rules are this project's own.
///
/// Want of memory may also be told where max_dom isn't 1 to 8, a number passes 32 bits, or an hour,
/// minute or second is none of a clock, which no config that was bound has.
pub fn domain_plan(alloc: Global, config: &Config) -> Result<Plan, PlanError>
    ensures { Gives (λ p. p) fault_of result (domain_plan_of config.now) }
{
    let unbuilt = unbuilt_fault(alloc, config)?;
    if let Some(fault) = unbuilt {
        return Err(PlanError::Fault(fault));
    }
    let total = domain_total(config)?;
    let dates = dates_fault(config, total);
    if let Some(fault) = dates {
        return Err(PlanError::Fault(fault));
    }
    let plan = plan_from(alloc, config, total)?;
    let fault = domains_fault(config, &plan, total)?;
    match fault {
        Some(fault) => Err(PlanError::Fault(fault)),
        None => Ok(plan),
    }
}
