//! What a domain begins with by its input file.

ghost use Rattle.std.specs.Prelude.{◌≡◌, ◌+◌, ◌≤◌, [], ◌∷◌, All, IfOk, IsTrue};
ghost use Rattle.std.specs.Str.{bytes_eq};
ghost use Rattle.wf_model.specs.Calendar.{moment_of, time_text};
ghost use Rattle.wf_model.specs.Dates.{is_stamp, last_moment, seconds_before};
ghost use Rattle.wf_model.specs.InputOf.{all_slabs, domain_stamp, fresh, grids_read, input_read};
ghost use Rattle.wf_model.specs.InputOf.{is_input, slabs_fault, time_read, with_zeros};
ghost use Rattle.wf_model.specs.Plans.{domain_of};
ghost use Rattle.wf_model.specs.Ranges.{IsRangedField};
ghost use Rattle.wf_model.specs.Reading.{Gives, fault_unless, first_fault, unless_fault};
ghost use Rattle.wf_model.specs.Script.{not_before};
ghost use Rattle.wf_model.specs.Sound.{IsDomain};
ghost use Rattle.wf_model.specs.declared.plan_fault.InputKind.TheVariants as kind;
ghost use Rattle.wf_stream.specs.Starts.{FitsDomain, begin_in, kind_of};

use crate::levels::{all_zeros, domain_of, grids_read};
use crate::slabs::{has_time, slabs_fault};
use std::alloc::{AllocError, Global};
use wf_cdfread::{HeaderError, read_header};
use wf_model::{Begin, Domain, Header, InputKind, List, Plan};
use wf_stamp::{read_stamp, stamp_text};

/// What a domain begins with: how it begins, and by level the list of all its own points.
#[derive(Drop)]
pub struct DomainStart {
    pub begin: Begin,
    pub grids: List<List<i32>>,
}

/// Why a file gives no begin.
#[derive(Clone, Copy, Debug, PartialEq, Eq)]
pub enum FileError {
    Fault(InputKind),
    Memory,
}

/// The seconds from the run's start to that of a domain, and 0 for one before it.
fn seconds_after(begins: i64) -> u64
    ensures { result ≡ not_before begins }
{
    if begins < 0 { 0 } else { begins as u64 }
}

/// The text of the moment at which a domain starts.
#[tactic(auto, unfolding(wf_model::specs::Calendar::time_text))]
fn start_text(plan: &Plan, domain: &Domain) -> [u8; 19]
    requires stamp { IsTrue (is_stamp plan.now.start) }
    requires starts { seconds_before (moment_of plan.now.start) + not_before domain.now.begins
        ≤ seconds_before last_moment }
    ensures text { result ≡ time_text plan.now.start (not_before domain.now.begins) }
    ensures stamp { IsTrue (is_stamp result) }
{
    match read_stamp(&plan.start) {
        None => unreachable!(),
        Some(start) => match stamp_text(&start, seconds_after(domain.begins)) {
            Ok(text) => text,
            Err(_) => unreachable!(),
        },
    }
}

/// How a domain begins that doesn't resume.
fn fresh(plan: &Plan, number: u32) -> Begin
    requires domain { IsDomain plan.now number }
    requires stamp { IsTrue (is_stamp plan.now.start) }
    requires starts { seconds_before (moment_of plan.now.start)
        + not_before (domain_of plan.now number).begins ≤ seconds_before last_moment }
    ensures begin { result ≡ fresh plan.now number }
    ensures stamp { IsTrue (is_stamp result.start_text) }
{
    Begin {
        steps: 0,
        start_text: start_text(plan, domain_of(plan, number)),
        resumed: false,
    }
}

/// What a domain without an input file begins with.
pub(crate) fn with_zeros(alloc: Global, plan: &Plan, number: u32) -> Result<DomainStart, AllocError>
    requires domain { IsDomain plan.now number }
    requires stamp { IsTrue (is_stamp plan.now.start) }
    requires starts { seconds_before (moment_of plan.now.start)
        + not_before (domain_of plan.now number).begins ≤ seconds_before last_moment }
    ensures begin { IfOk result (λ s. begin_in s ≡ with_zeros plan.now number) }
    ensures fits { IfOk result (FitsDomain plan.now number) }
{
    let grids = all_zeros(alloc, plan, number)?;
    Ok(DomainStart {
        begin: fresh(plan, number),
        grids,
    })
}

/// What a domain begins with by a file of this header: its variables, and then its time.
fn read_levels(
    alloc: Global,
    plan: &Plan,
    number: u32,
    bytes: &[u8],
    header: &Header,
) -> Result<DomainStart, FileError>
    requires domain { IsDomain plan.now number }
    requires fields { All IsRangedField plan.now.fields }
    requires stamp { IsTrue (is_stamp plan.now.start) }
    requires starts { seconds_before (moment_of plan.now.start)
        + not_before (domain_of plan.now number).begins ≤ seconds_before last_moment }
    ensures begin { Gives begin_in kind_of result (unless_fault (first_fault (slabs_fault bytes.now
        (all_slabs plan.now number 0 (is_input plan.now) bytes.now header.now)
        ∷ fault_unless (bytes_eq (time_read bytes.now header.now) (domain_stamp plan.now number))
        kind.WrongTime ∷ []))
        (record {
          begin = fresh plan.now number;
          grids = grids_read plan.now number 0 (is_input plan.now) bytes.now header.now;
        })) }
    ensures fits { IfOk result (FitsDomain plan.now number) }
{
    if let Some(kind) = slabs_fault(plan, number, bytes, header) {
        return Err(FileError::Fault(kind));
    }
    let begin = fresh(plan, number);
    if !has_time(bytes, header, &begin.start_text) {
        return Err(FileError::Fault(InputKind::WrongTime));
    }
    match grids_read(alloc, plan, number, bytes, header) {
        Ok(grids) => Ok(DomainStart { begin, grids }),
        Err(_) => Err(FileError::Memory),
    }
}

/// What a domain begins with by the bytes of its input file: its header, its variables, its time.
pub(crate) fn read_start(
    alloc: Global,
    plan: &Plan,
    number: u32,
    bytes: &[u8],
) -> Result<DomainStart, FileError>
    requires domain { IsDomain plan.now number }
    requires fields { All IsRangedField plan.now.fields }
    requires stamp { IsTrue (is_stamp plan.now.start) }
    requires starts { seconds_before (moment_of plan.now.start)
        + not_before (domain_of plan.now number).begins ≤ seconds_before last_moment }
    ensures begin { Gives begin_in kind_of result (input_read plan.now number bytes.now) }
    ensures fits { IfOk result (FitsDomain plan.now number) }
{
    match read_header(alloc, bytes) {
        Ok(header) => read_levels(alloc, plan, number, bytes, &header),
        Err(HeaderError::Memory) => Err(FileError::Memory),
        Err(HeaderError::Fault(fault)) => Err(FileError::Fault(InputKind::Cdf(fault))),
    }
}
