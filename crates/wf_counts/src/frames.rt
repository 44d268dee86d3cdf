//! The frames of a run in which no domain resumes.

ghost use Rattle.std.specs.Prelude.{◌≡◌, ◌==◌, ◌||◌, nat_lt, length, slice_index, sum_by};
ghost use Rattle.std.specs.Prelude.{if◌then◌else◌};
ghost use Rattle.wf_model.specs.Frames.{frames_of};
ghost use Rattle.wf_model.specs.Streams.{one_if};
ghost use Rattle.wf_model.specs.Plans.{domain_of, domains_of};
ghost use Rattle.wf_model.specs.Sound.{IsDomain};
ghost use Rattle.wf_model.specs.Counts.{due_steps, fresh_run, own_steps};
ghost use Rattle.wf_model.specs.Weights.{HasDomainsInTime};
ghost use Rattle.wf_count_laws.specs.Occurrences.{begins_within, frames_of_stream};
ghost use Rattle.wf_count_laws.specs.ByDomains.{domain_frames};
ghost use Rattle.wf_counts.specs.Capped.{capped};
ghost use Rattle.wf_counts.specs.Parts.{frames_to};

use crate::times::{
    begins_within, domain_at, due_steps as due_of, own_steps as steps_of, restart_count,
};
use wf_model::{Domain, Plan, limits};

/// The streams but for that of restart files.
pub(crate) const STREAMS: usize = limits::STREAMS as usize;

/// The steps from one frame of a stream to the next, and 0 for never.
fn interval(domain: &Domain, stream: usize) -> u64
    ensures { result ≡ slice_index domain.now.intervals stream }
{
    domain
        .intervals
        .as_slice()
        .get(stream)
        .copied()
        .unwrap_or(0)
}

/// Whether a domain begins in the run: domain 1, and each nest that begins before the run ends.
fn has_start(plan: &Plan, number: usize) -> bool
    requires { IsDomain plan.now number }
    ensures { result ≡ (number == 1) || begins_within plan.now number }
{
    number == 1 || begins_within(plan, number)
}

/// The frame at the start, where the stream is used.
fn first_frame(starts: bool, interval: u64) -> u128
    ensures { result ≡ (if starts then one_if (nat_lt 0 interval) else 0) }
{
    u128::from(starts && interval > 0)
}

/// The frames that a stream of a domain has after steps of the run: one after each step that is
/// due.
///
/// Domains are numbered from 1. Stream 0 is history, and 1 to 9 are auxiliary history. No number
/// stops here: each count is exact.
pub fn due_frames(plan: &Plan, number: usize, stream: usize) -> u128
    requires { IsDomain plan.now number }
    ensures { result ≡ due_steps (slice_index (domain_of plan.now number).intervals stream)
        (own_steps plan.now number) }
{
    due_of(
        interval(domain_at(plan, number), stream),
        steps_of(plan, number),
    )
}

/// The frames of a stream of a domain: one at its start where the stream is used, and one after
/// each step that is due. A nest starts only where it begins within the run.
pub(crate) fn stream_frames(plan: &Plan, number: usize, stream: usize) -> u128
    requires { IsDomain plan.now number }
    ensures { result ≡ capped (frames_of_stream plan.now number stream) }
{
    let interval = interval(domain_at(plan, number), stream);
    let first = first_frame(has_start(plan, number), interval);
    first.saturating_add(due_frames(plan, number, stream))
}

/// The frames of all streams of a domain but those of restart files.
#[tactic(auto, using(crate::proofs::CappedSums::none_yet, crate::proofs::CappedSums::numbers_more))]
fn stream_total(plan: &Plan, number: usize) -> u128
    requires { IsDomain plan.now number }
    ensures { result ≡ capped (frames_to plan.now number 10) }
{
    let mut total = 0u128;
    for stream in 0..STREAMS {
        total = total.saturating_add(stream_frames(plan, number, stream));
    }
    total
}

/// The frames of a domain.
pub(crate) fn domain_frames(plan: &Plan, number: usize) -> u128
    requires { IsDomain plan.now number }
    ensures { result ≡ capped (domain_frames plan.now number) }
{
    stream_total(plan, number).saturating_add(restart_count(plan, number))
}

/// The frames of all domains.
#[tactic(auto, using(crate::proofs::CappedSums::none_yet, crate::proofs::CappedSums::domains_more))]
fn frames_of_domains(plan: &Plan) -> u128
    ensures { result ≡ capped (sum_by (domain_frames plan.now) (domains_of plan.now)) }
{
    let mut total = 0u128;
    for place in 0..plan.domains.as_slice().len() {
        total = total.saturating_add(domain_frames(plan, place + 1));
    }
    total
}

/// The number of frames that a run writes in which no domain resumes, for any number of domains.
///
/// A number that 128 bits can't hold is told as the greatest that they hold.
pub fn frame_count(plan: &Plan) -> u128
    requires { HasDomainsInTime plan.now }
    ensures { result ≡ capped (length (frames_of (fresh_run plan.now))) }
{
    frames_of_domains(plan)
}
