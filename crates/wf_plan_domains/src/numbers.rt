//! Numbers of a config, and their quotients.

ghost use Rattle.std.specs.Prelude.{◌≡◌, ◌/◌, IfOk};
ghost use Rattle.wf_model.specs.PlanDomains.{amount, flag};
ghost use Rattle.wf_model.specs.PlanTests.{is_multiple};

use std::alloc::AllocError;
use wf_model::Config;

/// A name's number for a domain, counted from 1, without its sign; 0 where it has none.
pub(crate) fn amount(config: &Config, name: &str, domain: u32) -> u128
    ensures { result ≡ amount config.now name.now domain }
{
    config.integer(name.as_bytes(), domain).unsigned_abs()
}

/// The same where 32 bits hold it, and else want of memory.
pub(crate) fn small_amount(config: &Config, name: &str, domain: u32) -> Result<u32, AllocError>
    ensures { IfOk result (λ n. n ≡ amount config.now name.now domain) }
{
    match u32::try_from(amount(config, name, domain)) {
        Ok(number) => Ok(number),
        Err(_) => Err(AllocError),
    }
}

/// A name's logical for a domain, counted from 1; false where it has none.
pub(crate) fn flag(config: &Config, name: &str, domain: u32) -> bool
    ensures { result ≡ flag config.now name.now domain }
{
    config.flag(name.as_bytes(), domain)
}

/// The quotient, 0 where the divisor is 0.
pub(crate) fn quotient(number: u64, divisor: u64) -> u64
    ensures { result ≡ number / divisor }
{
    if divisor == 0 { 0 } else { number / divisor }
}

/// Whether a number is a multiple of this one; of 0 only 0 is.
pub(crate) fn is_multiple(number: u64, of_this: u64) -> bool
    ensures { result ≡ is_multiple number of_this }
{
    if of_this == 0 {
        number == 0
    } else {
        number % of_this == 0
    }
}
