//! The variables of an input file, judged kind by kind before any of their numbers is read.

ghost use Rattle.std.specs.Prelude.{◌≡◌, ◌<◌, [], ◌∷◌, if◌then◌else◌, codes, length};
ghost use Rattle.std.specs.Str.{bytes_eq};
ghost use Rattle.wf_model.specs.InputOf.{all_slabs, asked, is_input, level_asked, slab_read};
ghost use Rattle.wf_model.specs.InputOf.{slabs_fault, time_read, times};
ghost use Rattle.wf_model.specs.Reading.{fault_if, first_fault};
ghost use Rattle.wf_model.specs.Sound.{IsDomain, IsLevel};
ghost use Rattle.wf_model.specs.declared.plan_fault.InputKind.TheVariants as kind;
ghost use Rattle.wf_stream.specs.Levels.{asked_in};
ghost use Rattle.wf_stream.specs.Slabs.{faults_of, slabs_up_to, with_slab};

use crate::levels::{domain_of, field_of, lengths_of, shape_of};
use wf_cdfread::find_slab;
use wf_model::cdf_type::{CHAR, INT};
use wf_model::{Domain, Field, Header, InputKind, Plan, SlabError};

/// Which faults some variables have.
#[derive(Clone, Copy, Debug, PartialEq, Eq)]
pub struct SlabFaults {
    pub no_variable: bool,
    pub wrong_type: bool,
    pub wrong_shape: bool,
    pub truncated: bool,
}

/// With those of a variable more, which is to be of this type and shape.
fn with_slab(
    faults: SlabFaults,
    bytes: &[u8],
    header: &Header,
    name: &[u8],
    kind: u8,
    shape: &[u32],
) -> SlabFaults
    ensures { result
        ≡ with_slab faults (slab_read bytes.now header.now (asked name.now kind shape.now)) }
{
    match find_slab(bytes, header, name, kind, shape, 0) {
        Ok(_) => faults,
        Err(SlabError::NoVariable) => SlabFaults {
            no_variable: true,
            ..faults
        },
        Err(SlabError::WrongType) => SlabFaults {
            wrong_type: true,
            ..faults
        },
        Err(SlabError::WrongShape) => SlabFaults {
            wrong_shape: true,
            ..faults
        },
        Err(SlabError::Truncated { .. }) => SlabFaults {
            truncated: true,
            ..faults
        },
    }
}

/// The faults of the variable `Times`.
fn times_faults(bytes: &[u8], header: &Header) -> SlabFaults
    ensures { result ≡ faults_of (slab_read bytes.now header.now times ∷ []) }
{
    let none = SlabFaults {
        no_variable: false,
        wrong_type: false,
        wrong_shape: false,
        truncated: false,
    };
    with_slab(none, bytes, header, b"Times", CHAR, &[19])
}

/// With those of a level's variable.
fn with_variable(
    faults: SlabFaults,
    domain: &Domain,
    field: &Field,
    bytes: &[u8],
    header: &Header,
) -> SlabFaults
    ensures { result
        ≡ with_slab faults (slab_read bytes.now header.now (asked_in domain.now field.now)) }
{
    let lengths = lengths_of(domain, field);
    let shape = shape_of(domain, field, &lengths);
    with_slab(faults, bytes, header, field.dname.as_slice(), INT, shape)
}

/// With those of a level, if an input file gives it.
fn with_level(
    faults: SlabFaults,
    plan: &Plan,
    number: u32,
    level: usize,
    bytes: &[u8],
    header: &Header,
) -> SlabFaults
    requires domain { IsDomain plan.now number }
    requires level { IsLevel plan.now level }
    ensures { result ≡ (if is_input plan.now level then with_slab faults
        (slab_read bytes.now header.now (level_asked plan.now number 0 level)) else faults) }
{
    let field = field_of(plan, level);
    if field.input {
        with_variable(faults, domain_of(plan, number), field, bytes, header)
    } else {
        faults
    }
}

/// The faults of `Times` and of the variables of all levels that an input file gives.
fn all_faults(plan: &Plan, number: u32, bytes: &[u8], header: &Header) -> SlabFaults
    requires { IsDomain plan.now number }
    ensures { result
        ≡ faults_of (slabs_up_to plan.now number (length plan.now.fields) bytes.now header.now) }
{
    let mut faults = times_faults(bytes, header);
    for level in 0..plan.fields.as_slice().len() {
        faults = with_level(faults, plan, number, level, bytes, header);
    }
    faults
}

/// The first kind of these faults.
fn first_kind(faults: SlabFaults, bytes: &[u8]) -> Option<InputKind>
    ensures { result ≡ first_fault (fault_if faults.no_variable kind.NoVariable
        ∷ fault_if faults.wrong_type kind.WrongType ∷ fault_if faults.wrong_shape kind.WrongShape
        ∷ fault_if faults.truncated (kind.Truncated (length bytes.now)) ∷ []) }
{
    if faults.no_variable {
        Some(InputKind::NoVariable)
    } else if faults.wrong_type {
        Some(InputKind::WrongType)
    } else if faults.wrong_shape {
        Some(InputKind::WrongShape)
    } else if faults.truncated {
        let at = bytes.len() as u64;
        Some(InputKind::Truncated { at })
    } else {
        None
    }
}

/// Why a file has not all variables that are asked for: kind by kind over all of them.
#[tactic(auto, unfolding(crate::specs::Slabs::slabs_up_to))]
pub(crate) fn slabs_fault(
    plan: &Plan,
    number: u32,
    bytes: &[u8],
    header: &Header,
) -> Option<InputKind>
    requires { IsDomain plan.now number }
    ensures { result ≡ slabs_fault bytes.now
        (all_slabs plan.now number 0 (is_input plan.now) bytes.now header.now) }
{
    first_kind(all_faults(plan, number, bytes, header), bytes)
}

/// Whether the time of a file's first record is this one.
pub(crate) fn has_time(bytes: &[u8], header: &Header, time: &[u8; 19]) -> bool
    ensures { result ≡ bytes_eq (time_read bytes.now header.now) time.now }
{
    match find_slab(bytes, header, b"Times", CHAR, &[19], 0) {
        Ok(found) => found == time.as_slice(),
        Err(_) => false,
    }
}
