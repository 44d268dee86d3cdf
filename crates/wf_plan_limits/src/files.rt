//! The sizes of the files of a plan.

ghost use Rattle.std.specs.Prelude.{◌≡◌, ◌≤◌, All, IfOk, flat_map, length, map, slice_index};
ghost use Rattle.std.specs.List.{range_with_len};
ghost use Rattle.wf_model.specs.Plans.{domain_of, domains_of};
ghost use Rattle.wf_model.specs.Counts.{file_records};
ghost use Rattle.wf_model.specs.Ranges.{IsRangedField};
ghost use Rattle.wf_model.specs.Reading.{first_fault};
ghost use Rattle.wf_model.specs.Sound.{IsDomain};
ghost use Rattle.wf_model.specs.PlanTests.{file_fault};
ghost use Rattle.wf_plan_limits.specs.LimitParts.{files_of};

use crate::found::{Found, as_limit};
use crate::ranged::are_ranged;
use std::alloc::{AllocError, Global};
use wf_cdf::{file_header, is_sound, place_vars};
use wf_counts::due_frames;
use wf_model::limits::RESTART_STREAM;
use wf_model::{Plan, Which};

/// History, auxiliary streams and restart files.
const ALL_STREAMS: u32 = RESTART_STREAM + 1;

/// The most frames that a file of a stream takes.
fn frames_per_file(plan: &Plan, number: u32, stream: u32) -> u32
    requires { IsDomain plan.now number }
    ensures { result ≡ slice_index (domain_of plan.now number).frames stream }
{
    let frames = plan.domain(number).frames.as_slice();
    frames.get(stream as usize).copied().unwrap_or(0)
}

/// The records of a file of a stream: the lesser of the frames that it takes, and one more than the
/// domain's due steps.
fn file_records(plan: &Plan, number: u32, stream: u32) -> u32
    requires { IsDomain plan.now number }
    ensures { result ≡ file_records plan.now number stream }
{
    if stream == RESTART_STREAM {
        return 1;
    }
    let due = due_frames(plan, number as usize, stream as usize);
    let most = frames_per_file(plan, number, stream);
    if due < u128::from(most) {
        due as u32 + 1
    } else {
        most
    }
}

/// The size of the files of a stream of a domain, where it passes the limit of the version. A
/// header that can't be placed counts as want of memory.
fn file_fault(alloc: Global, plan: &Plan, number: u32, stream: u32) -> Found
    requires domain { IsDomain plan.now number }
    requires stream { stream ≤ 10 }
    requires fields { All IsRangedField plan.now.fields }
    requires few { length plan.now.fields ≤ 64 }
    ensures { IfOk result (λ f. f ≡ file_fault plan.now number stream) }
{
    let mut header = file_header(alloc, plan, number, stream, &plan.start, 0)?;
    if !is_sound(&header) {
        return Err(AllocError);
    }
    match place_vars(&mut header, file_records(plan, number, stream)) {
        Ok(_) => Ok(None),
        Err(too_long) => as_limit(Which::FileBytes, too_long.bytes),
    }
}

/// The first stream of a domain whose files pass the limit of the version.
fn domain_files_fault(alloc: Global, plan: &Plan, number: u32) -> Found
    requires domain { IsDomain plan.now number }
    requires fields { All IsRangedField plan.now.fields }
    requires few { length plan.now.fields ≤ 64 }
    ensures { IfOk result
        (λ f. f ≡ first_fault (map (file_fault plan.now number) (range_with_len 0 11))) }
{
    for stream in 0..ALL_STREAMS {
        let fault = file_fault(alloc, plan, number, stream)?;
        if fault.is_some() {
            return Ok(fault);
        }
    }
    Ok(None)
}

/// The same, where a number that 32 bits can't hold counts as want of memory.
fn files_fault_at(alloc: Global, plan: &Plan, number: usize) -> Found
    requires domain { IsDomain plan.now number }
    requires fields { All IsRangedField plan.now.fields }
    requires few { length plan.now.fields ≤ 64 }
    ensures { IfOk result (λ f. f ≡ first_fault (files_of plan.now number)) }
{
    match u32::try_from(number) {
        Ok(small) => domain_files_fault(alloc, plan, small),
        Err(_) => Err(AllocError),
    }
}

/// The first domain and stream whose files pass the limit of the version. Fields out of their
/// ranges count as want of memory.
pub(crate) fn files_fault(alloc: Global, plan: &Plan) -> Found
    requires few { length plan.now.fields ≤ 64 }
    ensures { IfOk result
        (λ f. f ≡ first_fault (flat_map (files_of plan.now) (domains_of plan.now))) }
{
    if !are_ranged(plan.fields.as_slice()) {
        return Err(AllocError);
    }
    for place in 0..plan.domains.as_slice().len() {
        let fault = files_fault_at(alloc, plan, place + 1)?;
        if fault.is_some() {
            return Ok(fault);
        }
    }
    Ok(None)
}
