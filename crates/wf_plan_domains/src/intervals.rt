//! The tests of intervals.

ghost use Rattle.std.specs.Prelude.{◌≡◌, ◌<◌, ◌≤◌, IfOk, length, codes, flat_map, map, slice_index};
ghost use Rattle.wf_model.specs.PlanDomains.{amount};
ghost use Rattle.std.specs.List.{range_with_len};
ghost use Rattle.wf_model.specs.PlanTests.{interval_fault, interval_faults};
ghost use Rattle.wf_model.specs.Plans.{up_to};
ghost use Rattle.wf_model.specs.Reading.{first_fault};
ghost use Rattle.wf_plan_domains.specs.DomainTests.{intervals_found, stream_minutes};

use crate::error::Found;
use crate::numbers::{is_multiple, small_amount};
use crate::shape::shape_at;
use crate::streams::interval_names;
use std::alloc::AllocError;
use wf_model::limits::RESTART_STREAM;
use wf_model::{Config, Plan, PlanFault};

/// The fault of an interval, in minutes, that the domain's steps do not fill.
fn interval_fault(plan: &Plan, domain: u32, stream: u32, minutes: u32) -> Option<PlanFault>
    ensures { result ≡ interval_fault plan.now domain stream minutes }
{
    if is_multiple(u64::from(minutes) * 60, shape_at(plan, domain).seconds) {
        None
    } else {
        Some(PlanFault::IntervalNotSteps { domain, stream })
    }
}

/// The interval of a stream, in minutes.
fn minutes_of(config: &Config, domain: u32, stream: u32) -> Result<u32, AllocError>
    requires { stream < 10 }
    ensures { IfOk result (λ m. m ≡ slice_index (stream_minutes config.now domain) stream) }
{
    let names = interval_names();
    small_amount(config, names[stream as usize], domain)
}

/// The first stream's fault.
fn streams_fault(config: &Config, plan: &Plan, domain: u32) -> Found
    ensures { IfOk result (λ f. f ≡ first_fault (map (λ s. interval_fault plan.now domain s
        (slice_index (stream_minutes config.now domain) s)) (range_with_len 0 10))) }
{
    for stream in 0..10 {
        let minutes = minutes_of(config, domain, stream)?;
        let fault = interval_fault(plan, domain, stream, minutes);
        if fault.is_some() {
            return Ok(fault);
        }
    }
    Ok(None)
}

/// The fault of the interval of restart files, which domain 1 has.
fn restart_fault(config: &Config, plan: &Plan) -> Found
    ensures { IfOk result
        (λ f. f ≡ interval_fault plan.now 1 10 (amount config.now (codes "restart_interval") 1)) }
{
    let minutes = small_amount(config, "restart_interval", 1)?;
    Ok(interval_fault(plan, 1, RESTART_STREAM, minutes))
}

/// A domain's first fault of an interval: of the ten streams, and then of restart files.
fn domain_fault(config: &Config, plan: &Plan, domain: u32) -> Found
    ensures { IfOk result (λ f. f ≡ intervals_found config.now plan.now domain) }
{
    let fault = streams_fault(config, plan, domain)?;
    if domain == 1 {
        Ok(fault.or(restart_fault(config, plan)?))
    } else {
        Ok(fault)
    }
}

/// The first fault of an interval of a domain from 1 to the last.
pub(crate) fn intervals_fault(config: &Config, plan: &Plan, last: u32) -> Found
    requires count { last ≡ length plan.now.domains }
    requires most { last ≤ 8 }
    ensures { IfOk result (λ f. f ≡ first_fault
        (flat_map (interval_faults config.now plan.now) (up_to (length plan.now.domains)))) }
{
    for domain in 1..last + 1 {
        let fault = domain_fault(config, plan, domain)?;
        if fault.is_some() {
            return Ok(fault);
        }
    }
    Ok(None)
}
