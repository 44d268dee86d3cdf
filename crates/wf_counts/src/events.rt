//! The events of a full run in which nothing overflows.

ghost use Rattle.std.specs.Prelude.{◌≡◌, ◌≤◌, sum_by};
ghost use Rattle.wf_model.specs.Plans.{domains_of};
ghost use Rattle.wf_model.specs.Sound.{IsDomain};
ghost use Rattle.wf_model.specs.Counts.{all_events};
ghost use Rattle.wf_model.specs.Weights.{HasDomainsInTime};
ghost use Rattle.wf_count_laws.specs.ByDomains.{domain_events};
ghost use Rattle.wf_counts.specs.Capped.{capped};
ghost use Rattle.wf_counts.specs.Parts.{events_by_domains, frame_events_to, stream_events};

use crate::frames::{STREAMS, stream_frames};
use crate::items::{more_restarts, nest_items};
use crate::table::{RESTART, more_events, table_halves};
use crate::times::{own_steps, restart_count};
use wf_model::Plan;

/// The events of the frames of a stream of a domain.
fn stream_events(plan: &Plan, patches: u128, number: usize, stream: usize) -> u128
    requires domain { IsDomain plan.now number }
    requires stream { stream ≤ 10 }
    ensures { result ≡ capped (stream_events plan.now patches number stream) }
{
    stream_frames(plan, number, stream).saturating_mul(more_events(plan, patches, stream))
}

/// The events of the frames of all streams of a domain but those of restart files.
#[tactic(auto, using(crate::proofs::CappedSums::none_yet, crate::proofs::CappedSums::numbers_more))]
fn frame_events(plan: &Plan, patches: u128, number: usize) -> u128
    requires { IsDomain plan.now number }
    ensures { result ≡ capped (frame_events_to plan.now patches number 10) }
{
    let mut total = 0u128;
    for stream in 0..STREAMS {
        total = total.saturating_add(stream_events(plan, patches, number, stream));
    }
    total
}

/// The events of a domain's items.
fn domain_events(plan: &Plan, patches: u128, number: usize) -> u128
    requires { IsDomain plan.now number }
    ensures { result ≡ capped (domain_events plan.now patches number) }
{
    let table = own_steps(plan, number).saturating_mul(table_halves(plan).saturating_mul(patches));
    let restarts = restart_count(plan, number).saturating_mul(more_events(plan, patches, RESTART));
    let nest = nest_items(plan, number).saturating_mul(2u128.saturating_mul(patches));
    table
        .saturating_add(frame_events(plan, patches, number))
        .saturating_add(restarts)
        .saturating_add(nest)
}

/// The events of all domains.
#[tactic(auto, using(crate::proofs::CappedSums::none_yet, crate::proofs::CappedSums::domains_more))]
fn events_of_domains(plan: &Plan, patches: u128) -> u128
    ensures { result ≡ capped (sum_by (domain_events plan.now patches) (domains_of plan.now)) }
{
    let mut total = 0u128;
    for place in 0..plan.domains.as_slice().len() {
        total = total.saturating_add(domain_events(plan, patches, place + 1));
    }
    total
}

/// The events of all domains, and what a restart adds.
fn events_by_domains(plan: &Plan, patches: u128) -> u128
    ensures { result ≡ capped (events_by_domains plan.now patches) }
{
    let more = more_restarts(plan).saturating_mul(more_events(plan, patches, RESTART));
    events_of_domains(plan, patches).saturating_add(more)
}

/// The number of events of a full run in which no domain resumes and nothing overflows, on so many
/// patches in x and in y, for any number of domains: of each patch its halves, of each piece a
/// gathering, and of each frame a writing; and where a restart writes restart files, those of one
/// restart frame more of each domain.
///
/// A number that 128 bits can't hold is told as the greatest that they hold.
pub fn all_events(plan: &Plan, nproc_x: u32, nproc_y: u32) -> u128
    requires { HasDomainsInTime plan.now }
    ensures { result ≡ capped (all_events plan.now (record { in_x = nproc_x; in_y = nproc_y })) }
{
    events_by_domains(plan, u128::from(nproc_x) * u128::from(nproc_y))
}
