//! What a run begins with, from the input files of a store.

ghost use Rattle.std.specs.Prelude.{◌≡◌, ◌+◌, ◌≤◌, Some, length, map, string_bytes, IfErr, IfOk};
ghost use Rattle.std.specs.Prelude.{IsFalse, IsTrue};
ghost use Rattle.wf_io.specs.Files.{Told};
ghost use Rattle.wf_model.specs.Calendar.{moment_of};
ghost use Rattle.wf_model.specs.Dates.{last_moment, seconds_before};
ghost use Rattle.wf_model.specs.Files.{Files};
ghost use Rattle.wf_model.specs.InputOf.{domain_begin, from_file, initial_from, input_file};
ghost use Rattle.wf_model.specs.InputOf.{input_of, input_read, started};
ghost use Rattle.wf_model.specs.InputOf as begin;
ghost use Rattle.wf_model.specs.Letters.{is_store_name};
ghost use Rattle.wf_model.specs.Plans.{domains_of};
ghost use Rattle.wf_model.specs.Reading.{Gives, each, told_as};
ghost use Rattle.wf_model.specs.Sound.{IsDomain, IsFittingInitial, IsRangedPlan, IsSoundPlan};
ghost use Rattle.wf_stream.specs.Inputs.{StartsInTime, fault_of, FaultTold, FaultAmong};
ghost use Rattle.wf_stream.specs.Inputs.{input_names};
ghost use Rattle.wf_stream.specs.Starts.{FaultOn, FitDomains, FitsDomain, IsIoError, NoFault};
ghost use Rattle.wf_stream.specs.Starts.{OnlyRead, Tells, begin_in};
ghost use Rattle.wf_stream.specs.declared.input.InputError.TheVariants as input;

use crate::input_file::{DomainStart, FileError, read_start, with_zeros};
use crate::levels::domain_of;
use std::alloc::{AllocError, AllocFailed, Global};
use wf_io::{IoError, Store};
use wf_model::{Bytes, Initial, InputFault, InputKind, List, Plan};

/// Why a run has no begin data.
#[derive(Drop)]
pub enum InputError {
    /// An input file is refused.
    Fault(InputFault),
    /// A call of the store on the file of this name failed, which the store counted. It was the
    /// last call.
    Store(Bytes),
    Memory,
}

impl From<AllocError> for InputError {
    ghost from_gives = { λ _ e. e ≡ input.Memory };

    fn from(_e: AllocError) -> InputError {
        InputError::Memory
    }
}

impl<T: Drop> From<AllocFailed<T>> for InputError {
    ghost from_gives = { λ _ e. e ≡ input.Memory };

    fn from(_e: AllocFailed<T>) -> InputError {
        InputError::Memory
    }
}

/// The error of a call of the store on the file of this name.
fn io_error(alloc: Global, name: &str, error: IoError) -> InputError
    ensures { IsIoError error name.now result }
{
    if error == IoError::Memory {
        return InputError::Memory;
    }
    match Vec::from_slice(alloc, name.as_bytes()) {
        Ok(name) => InputError::Store(Bytes::from_vec(name)),
        Err(_) => InputError::Memory,
    }
}

/// The refusal of the file of this name.
fn refused(alloc: Global, name: &str, kind: InputKind) -> InputError
    ensures { Tells result (begin.fault_of name.now kind) }
{
    match Vec::from_slice(alloc, name.as_bytes()) {
        Ok(name) => InputError::Fault(InputFault {
            file: Bytes::from_vec(name),
            kind,
        }),
        Err(_) => InputError::Memory,
    }
}

/// The name of the input file of a domain, as `wrfinput_d01`.
fn input_name(alloc: Global, number: u32) -> Result<String, AllocError>
    requires { number ≤ 8 }
    ensures name { IfOk result (λ s. string_bytes s ≡ input_file number) }
    ensures valid { IfOk result (λ s. IsTrue (is_store_name (string_bytes s))) }
{
    let mut name = String::from_str(alloc, "wrfinput_d0")?;
    name.push(char::from(b'0' + number as u8))?;
    Ok(name)
}

/// What a domain begins with by the bytes of the file of this name.
fn start_of_bytes(
    alloc: Global,
    plan: &Plan,
    number: u32,
    name: &str,
    bytes: &[u8],
) -> Result<DomainStart, InputError>
    requires domain { IsDomain plan.now number }
    requires ranged { IsRangedPlan plan.now }
    requires starts { StartsInTime plan.now }
    ensures begin { Gives begin_in fault_of result
        (told_as (begin.fault_of name.now) (input_read plan.now number bytes.now)) }
    ensures fits { IfOk result (FitsDomain plan.now number) }
    ensures never { IfErr result NoFault }
{
    match read_start(alloc, plan, number, bytes) {
        Ok(start) => Ok(start),
        Err(FileError::Memory) => Err(InputError::Memory),
        Err(FileError::Fault(kind)) => Err(refused(alloc, name, kind)),
    }
}

/// What a domain begins with by the file of this name, which must be there.
fn start_of_file<S: Store>(
    alloc: Global,
    store: &mut S,
    plan: &Plan,
    number: u32,
    name: &str,
) -> Result<DomainStart, InputError>
    requires domain { IsDomain plan.now number }
    requires ranged { IsRangedPlan plan.now }
    requires starts { StartsInTime plan.now }
    requires name { IsTrue (is_store_name name.now) }
    ensures begin { (m : Files) → S.files store.old ≡ Some m → Gives begin_in fault_of result
        (from_file (input_read plan.now number) name.now (m name.now)) }
    ensures fits { IfOk result (FitsDomain plan.now number) }
    ensures only { OnlyRead (S.files store.old) (S.files store.new) (S.faults store.old)
        (S.faults store.new) }
    ensures fault { IfErr result
        (λ e. FaultTold e (S.faults store.old) (S.faults store.new) (S.failed store.new)) }
    ensures on { IfErr result (λ e. FaultOn e name.now) }
{
    match store.read(alloc, name) {
        Ok(None) => Err(refused(alloc, name, InputKind::Missing)),
        Ok(Some(bytes)) => start_of_bytes(alloc, plan, number, name, &bytes),
        Err(error) => Err(io_error(alloc, name, error)),
    }
}

/// What a domain begins with by its input file.
fn start_of_input<S: Store>(
    alloc: Global,
    store: &mut S,
    plan: &Plan,
    number: u32,
) -> Result<DomainStart, InputError>
    requires domain { IsDomain plan.now number }
    requires ranged { IsRangedPlan plan.now }
    requires starts { StartsInTime plan.now }
    ensures begin { (m : Files) → S.files store.old ≡ Some m → Gives begin_in fault_of result
        (from_file (input_read plan.now number) (input_file number) (m (input_file number))) }
    ensures fits { IfOk result (FitsDomain plan.now number) }
    ensures only { OnlyRead (S.files store.old) (S.files store.new) (S.faults store.old)
        (S.faults store.new) }
    ensures fault { IfErr result
        (λ e. FaultTold e (S.faults store.old) (S.faults store.new) (S.failed store.new)) }
    ensures on { IfErr result (λ e. FaultOn e (input_file number)) }
{
    match input_name(alloc, number) {
        Ok(name) => start_of_file(alloc, store, plan, number, name.as_str()),
        Err(_) => Err(InputError::Memory),
    }
}

/// What a domain begins with: by its input file, or 0 where it has none.
fn start_of_domain<S: Store>(
    alloc: Global,
    store: &mut S,
    plan: &Plan,
    number: u32,
) -> Result<DomainStart, InputError>
    requires domain { IsDomain plan.now number }
    requires ranged { IsRangedPlan plan.now }
    requires starts { StartsInTime plan.now }
    ensures begin { (m : Files) → S.files store.old ≡ Some m
        → Gives begin_in fault_of result (started m plan.now number) }
    ensures fits { IfOk result (FitsDomain plan.now number) }
    ensures only { OnlyRead (S.files store.old) (S.files store.new) (S.faults store.old)
        (S.faults store.new) }
    ensures fault { IfErr result
        (λ e. FaultTold e (S.faults store.old) (S.faults store.new) (S.failed store.new)) }
    ensures asked { IfErr result (λ e. FaultAmong e (input_names plan.now)) }
{
    if domain_of(plan, number).from_file {
        return start_of_input(alloc, store, plan, number);
    }
    match with_zeros(alloc, plan, number) {
        Ok(start) => Ok(start),
        Err(_) => Err(InputError::Memory),
    }
}

/// What each domain begins with, in order.
fn starts<S: Store>(
    alloc: Global,
    store: &mut S,
    plan: &Plan,
) -> Result<Vec<DomainStart>, InputError>
    requires ranged { IsRangedPlan plan.now }
    requires starts { StartsInTime plan.now }
    ensures begins { (m : Files) → S.files store.old ≡ Some m → Gives (λ v.
        map begin_in v.items) fault_of result (each (started m plan.now) (domains_of plan.now)) }
    ensures count { IfOk result (λ v. length v.items ≡ length plan.now.domains) }
    ensures fits { IfOk result (λ v. FitDomains plan.now v.items) }
    ensures only { OnlyRead (S.files store.old) (S.files store.new) (S.faults store.old)
        (S.faults store.new) }
    ensures fault { IfErr result
        (λ e. FaultTold e (S.faults store.old) (S.faults store.new) (S.failed store.new)) }
    ensures asked { IfErr result (λ e. FaultAmong e (input_names plan.now)) }
{
    let mut starts = Vec::new(alloc);
    for i in 0..plan.domains.as_slice().len() {
        match start_of_domain(alloc, store, plan, i as u32 + 1) {
            Ok(start) => match starts.push(start) {
                Ok(()) => {}
                Err(_) => return Err(InputError::Memory),
            },
            Err(error) => return Err(error),
        }
    }
    Ok(starts)
}

/// The begin data of what each domain begins with.
fn initial_of(alloc: Global, starts: Vec<DomainStart>) -> Result<Initial, AllocError>
    ensures { IfOk result (λ i. i ≡ initial_from (map begin_in starts.items)) }
{
    let mut grids = Vec::new(alloc);
    let mut begins = Vec::new(alloc);
    for start in starts {
        grids.push(start.grids)?;
        begins.push(start.begin)?;
    }
    Ok(Initial {
        grids: List::from_vec(grids),
        begins: List::from_vec(begins),
    })
}

/// What a run begins with: of each domain that has an input file the levels that the file gives,
/// and 0 for all others.
///
/// The files are read in order of domain, each one's header, its variables and its time. A level's
/// variable has the field's data name, and its numbers are those of the first record.
///
/// # Errors
/// The first refusal, with the file's name: a missing file; what its header is refused for; over
/// `Times` and the variables of all levels that input files give, a missing one, else a wrong type,
/// else a wrong shape, else a file that is cut off; another time than the domain's start. Or a
/// fault of the store, which it counted; or want of memory. The store's files stay as they were.
pub fn read_input<S: Store>(
    alloc: Global,
    store: &mut S,
    plan: &Plan,
) -> Result<Initial, InputError>
    requires sound { IsSoundPlan plan.now }
    requires ranged { IsRangedPlan plan.now }
    requires starts { StartsInTime plan.now }
    requires no_restart { IsFalse plan.now.restart }
    ensures initial { (m : Files) → S.files store.old ≡ Some m
        → Gives (λ i. i) fault_of result (input_of m plan.now) }
    ensures fits { IfOk result (IsFittingInitial plan.now) }
    ensures same { Told (S.files store.old) (S.files store.new) (λ m n. n ≡ m) }
    ensures later { S.faults store.old ≤ S.faults store.new }
    ensures fault { IfErr result
        (λ e. FaultTold e (S.faults store.old) (S.faults store.new) (S.failed store.new)) }
    ensures asked { IfErr result (λ e. FaultAmong e (input_names plan.now)) }
{
    let starts = match starts(alloc, store, plan) {
        Ok(starts) => starts,
        Err(error) => return Err(error),
    };
    match initial_of(alloc, starts) {
        Ok(initial) => Ok(initial),
        Err(_) => Err(InputError::Memory),
    }
}
