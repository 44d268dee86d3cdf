//! The numbers of the ten streams: their intervals, and the frames of a file.

ghost use Rattle.std.specs.Prelude.{◌≡◌, ◌*◌, ◌/◌, IfOk, map};
ghost use Rattle.wf_model.specs.PlanDomains.{amount, frames_names, interval_names};
ghost use Rattle.wf_plan_domains.specs.DomainTests.{stream_frames, stream_minutes};

use crate::numbers::{quotient, small_amount};
use std::alloc::{AllocError, Global};
use wf_model::{Config, List};

/// The names of the intervals, by stream.
pub(crate) const INTERVAL_NAMES: [&str; 10] = [
    "history_interval",
    "auxhist1_interval",
    "auxhist2_interval",
    "auxhist3_interval",
    "auxhist4_interval",
    "auxhist5_interval",
    "auxhist6_interval",
    "auxhist7_interval",
    "auxhist8_interval",
    "auxhist9_interval",
];

/// The names of the numbers of frames in a file, by stream.
const FRAMES_NAMES: [&str; 10] = [
    "frames_per_outfile",
    "frames_per_auxhist1",
    "frames_per_auxhist2",
    "frames_per_auxhist3",
    "frames_per_auxhist4",
    "frames_per_auxhist5",
    "frames_per_auxhist6",
    "frames_per_auxhist7",
    "frames_per_auxhist8",
    "frames_per_auxhist9",
];

pub(crate) fn interval_names() -> [&'static str; 10]
    ensures { map (λ n. n.now) result ≡ interval_names }
{
    INTERVAL_NAMES
}

fn frames_names() -> [&'static str; 10]
    ensures { map (λ n. n.now) result ≡ frames_names }
{
    FRAMES_NAMES
}

/// The numbers of these names for a domain.
fn numbers_of(
    alloc: Global,
    config: &Config,
    names: &[&str],
    domain: u32,
) -> Result<Vec<u32>, AllocError>
    ensures { IfOk result (λ v. v.items ≡ map (λ n. amount config.now n.now domain) names.now) }
{
    let mut numbers = Vec::new(alloc);
    for name in names {
        numbers.push(small_amount(config, name, domain)?)?;
    }
    Ok(numbers)
}

/// The intervals, by stream, in minutes.
fn minutes(alloc: Global, config: &Config, domain: u32) -> Result<Vec<u32>, AllocError>
    ensures { IfOk result (λ v. v.items ≡ stream_minutes config.now domain) }
{
    let names = interval_names();
    let numbers = numbers_of(alloc, config, &names, domain)?;
    Ok(numbers)
}

/// Intervals in minutes as numbers of steps of so many seconds.
fn in_steps(alloc: Global, minutes: &[u32], seconds: u64) -> Result<Vec<u64>, AllocError>
    ensures { IfOk result (λ v. v.items ≡ map (λ m. m * 60 / seconds) minutes.now) }
{
    minutes
        .iter()
        .map(|m| quotient(u64::from(*m) * 60, seconds))
        .collect(alloc)
}

/// By stream: a frame after so many steps of so many seconds; 0 for never.
pub(crate) fn intervals(
    alloc: Global,
    config: &Config,
    domain: u32,
    seconds: u64,
) -> Result<List<u64>, AllocError>
    ensures { IfOk result
        (λ l. l ≡ map (λ m. m * 60 / seconds) (stream_minutes config.now domain)) }
{
    let minutes = minutes(alloc, config, domain)?;
    let steps = in_steps(alloc, minutes.as_slice(), seconds)?;
    Ok(List::from_vec(steps))
}

/// By stream: the frames of a file.
pub(crate) fn frames(alloc: Global, config: &Config, domain: u32) -> Result<List<u32>, AllocError>
    ensures { IfOk result (λ l. l ≡ stream_frames config.now domain) }
{
    let names = frames_names();
    let numbers = numbers_of(alloc, config, &names, domain)?;
    Ok(List::from_vec(numbers))
}
