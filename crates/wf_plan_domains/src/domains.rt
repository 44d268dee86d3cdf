//! The domains that a config asks for, each from those before it.

ghost use Rattle.std.specs.Prelude.{◌≡◌, ◌-◌, ◌≤◌, IfOk, slice_index_or};
ghost use Rattle.wf_model.specs.Dates.{seconds_between};
ghost use Rattle.wf_model.specs.PlanDomains.{amount, domain_from, domain_total, domains_to};
ghost use Rattle.wf_model.specs.PlanDomains.{of_nest, start_moment, step_seconds};
ghost use Rattle.wf_model.specs.Plans.{no_domain};

use crate::numbers::{flag, quotient, small_amount};
use crate::streams::{frames, intervals};
use crate::times::start_stamp;
use std::alloc::{AllocError, Global};
use wf_model::{Config, Domain};
use wf_stamp::between;

/// How many domains there are, 1 to 8; any other number counts as want of memory.
pub(crate) fn domain_total(config: &Config) -> Result<u32, AllocError>
    ensures total { IfOk result (λ n. n ≡ domain_total config.now) }
    ensures most { IfOk result (λ n. n ≤ 8) }
{
    let total = small_amount(config, "max_dom", 1)?;
    if total == 0 || total > 8 {
        return Err(AllocError);
    }
    Ok(total)
}

/// The number that domain 1 has, or the nest's own.
fn of_nest(config: &Config, domain: u32, first: u32, name: &str) -> Result<u32, AllocError>
    ensures { IfOk result (λ n. n ≡ of_nest domain first (amount config.now name.now domain)) }
{
    if domain == 1 {
        return Ok(first);
    }
    let own = small_amount(config, name, domain)?;
    Ok(own)
}

/// The step of the domain of this number among those before, 0 where there is none.
#[tactic(auto, unfolding(wf_model::specs::Plans::no_domain))]
fn seconds_of(before: &[Domain], number: u32) -> u64
    ensures { result ≡ (slice_index_or before.now (number - 1) no_domain).seconds }
{
    match before.get((number as usize).saturating_sub(1)) {
        Some(domain) => domain.seconds,
        None => 0,
    }
}

/// A domain's step in seconds: a nest's is its parent's by the ratio.
fn step_seconds(config: &Config, before: &[Domain], domain: u32) -> Result<u64, AllocError>
    ensures { IfOk result (λ n. n ≡ step_seconds config.now before.now domain) }
{
    if domain == 1 {
        let step = small_amount(config, "time_step", 1)?;
        return Ok(u64::from(step));
    }
    let parent = small_amount(config, "parent_id", domain)?;
    let ratio = small_amount(config, "parent_time_step_ratio", domain)?;
    Ok(quotient(seconds_of(before, parent), u64::from(ratio)))
}

/// The seconds from domain 1's start to a domain's.
fn begins(config: &Config, domain: u32) -> Result<i64, AllocError>
    ensures { IfOk result
        (λ t. t ≡ seconds_between (start_moment config.now 1) (start_moment config.now domain)) }
{
    let first = start_stamp(config, 1)?;
    let own = start_stamp(config, domain)?;
    Ok(between(&first, &own))
}

/// A domain, where these come before it.
fn domain_from(
    alloc: Global,
    config: &Config,
    before: &[Domain],
    domain: u32,
) -> Result<Domain, AllocError>
    ensures { IfOk result (λ d. d ≡ domain_from config.now before.now domain) }
{
    let seconds = step_seconds(config, before, domain)?;
    Ok(Domain {
        parent: of_nest(config, domain, 0, "parent_id")?,
        i_start: small_amount(config, "i_parent_start", domain)?,
        j_start: small_amount(config, "j_parent_start", domain)?,
        ratio: of_nest(config, domain, 1, "parent_grid_ratio")?,
        time_ratio: of_nest(config, domain, 1, "parent_time_step_ratio")?,
        ide: small_amount(config, "e_we", domain)?,
        jde: small_amount(config, "e_sn", domain)?,
        kde: small_amount(config, "e_vert", domain)?,
        seconds,
        begins: begins(config, domain)?,
        periodic_x: flag(config, "periodic_x", domain),
        periodic_y: flag(config, "periodic_y", domain),
        from_file: flag(config, "input_from_file", domain),
        intervals: intervals(alloc, config, domain, seconds)?,
        frames: frames(alloc, config, domain)?,
    })
}

/// The first domains, so many.
pub(crate) fn domains_to(
    alloc: Global,
    config: &Config,
    total: u32,
) -> Result<Vec<Domain>, AllocError>
    ensures { IfOk result (λ v. v.items ≡ domains_to config.now total) }
{
    let mut domains = Vec::new(alloc);
    for made in 0..total {
        domains.push(domain_from(alloc, config, domains.as_slice(), made + 1)?)?;
    }
    Ok(domains)
}
