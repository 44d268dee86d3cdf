//! Starts and the length of the run, and their tests.

ghost use Rattle.std.specs.Prelude.{◌≡◌, ◌≤◌, IfOk, Some, map};
ghost use Rattle.std.specs.List.{range_with_len};
ghost use Rattle.wf_model.specs.Dates.{is_date};
ghost use Rattle.wf_model.specs.PlanDomains.{run_seconds, start_moment};
ghost use Rattle.wf_model.specs.PlanTests.{date_fault, end_fault, run_fault};
ghost use Rattle.wf_model.specs.Plans.{up_to};
ghost use Rattle.wf_model.specs.Reading.{first_fault};
ghost use Rattle.wf_stamp.specs.Moments.{day_at};

use crate::error::Found;
use crate::numbers::{amount, is_multiple, small_amount};
use crate::shape::shape_at;
use std::alloc::AllocError;
use wf_model::{Config, Plan, PlanFault};
use wf_stamp::{Stamp, stamp_text};

/// Whether the years 1 to 9999 have this day.
fn is_day(year: u128, month: u128, day: u128) -> bool
    ensures { result ≡ is_date (day_at year month day) }
{
    if year > 9999 || month > 12 || day > 31 {
        return false;
    }
    Stamp::new(year as u32, month as u32, day as u32, 0, 0, 0).is_some()
}

/// Whether a domain starts at a day of the years 1 to 9999.
fn is_start_day(config: &Config, domain: u32) -> bool
    ensures { result ≡ is_date (start_moment config.now domain).date }
{
    is_day(
        amount(config, "start_year", domain),
        amount(config, "start_month", domain),
        amount(config, "start_day", domain),
    )
}

/// The fault of a domain that starts at no such day.
fn date_fault(config: &Config, domain: u32) -> Option<PlanFault>
    ensures { result ≡ date_fault config.now domain }
{
    if is_start_day(config, domain) {
        None
    } else {
        Some(PlanFault::BadDate { domain })
    }
}

/// The fault of the first of the domains from 1 to the last whose start is no such day.
pub(crate) fn dates_fault(config: &Config, last: u32) -> Option<PlanFault>
    requires { last ≤ 8 }
    ensures { result ≡ first_fault (map (date_fault config.now) (up_to last)) }
{
    for domain in 1..last + 1 {
        let fault = date_fault(config, domain);
        if fault.is_some() {
            return fault;
        }
    }
    None
}

/// A domain's start. The error also comes where the start is no moment of the years 1 to 9999.
pub(crate) fn start_stamp(config: &Config, domain: u32) -> Result<Stamp, AllocError>
    ensures { IfOk result (λ s. s ≡ start_moment config.now domain) }
{
    let stamp = Stamp::new(
        small_amount(config, "start_year", domain)?,
        small_amount(config, "start_month", domain)?,
        small_amount(config, "start_day", domain)?,
        small_amount(config, "start_hour", domain)?,
        small_amount(config, "start_minute", domain)?,
        small_amount(config, "start_second", domain)?,
    );
    match stamp {
        Some(stamp) => Ok(stamp),
        None => Err(AllocError),
    }
}

/// The length of the run in seconds.
pub(crate) fn run_seconds(config: &Config) -> Result<u64, AllocError>
    ensures { IfOk result (λ n. n ≡ run_seconds config.now) }
{
    let days = small_amount(config, "run_days", 1)?;
    let hours = small_amount(config, "run_hours", 1)?;
    let minutes = small_amount(config, "run_minutes", 1)?;
    let seconds = small_amount(config, "run_seconds", 1)?;
    Ok(
        u64::from(days) * 86400
            + u64::from(hours) * 3600
            + u64::from(minutes) * 60
            + u64::from(seconds),
    )
}

/// The fault of a run that ends past the year 9999.
pub(crate) fn end_fault(config: &Config) -> Found
    ensures { IfOk result (λ f. f ≡ end_fault config.now) }
{
    let start = start_stamp(config, 1)?;
    let seconds = run_seconds(config)?;
    match stamp_text(&start, seconds) {
        Ok(_) => Ok(None),
        Err(_) => Ok(Some(PlanFault::PastYear9999)),
    }
}

/// The fault of a run that domain 1's steps do not fill.
pub(crate) fn run_fault(config: &Config, plan: &Plan) -> Found
    ensures { IfOk result (λ f. f ≡ run_fault config.now plan.now) }
{
    if is_multiple(run_seconds(config)?, shape_at(plan, 1).seconds) {
        Ok(None)
    } else {
        Ok(Some(PlanFault::RunNotSteps))
    }
}
