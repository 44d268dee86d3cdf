//! Why a config has no plan.

ghost use Rattle.std.specs.Prelude.{◌≡◌};
ghost use Rattle.std.specs.Option.{option_copied};
ghost use Rattle.wf_plan_domains.specs.DomainErrors.{fault_of};
ghost use Rattle.wf_plan_domains.specs.declared.error.PlanError.TheVariants as plan;

use std::alloc::{AllocError, AllocFailed};
use std::fmt;
use thiserror::Error;
use wf_model::PlanFault;

/// Why a config has no plan: the first fault, or want of memory.
#[derive(Drop, Error)]
pub enum PlanError {
    #[error("out of memory")]
    Memory,
    /// What isn't sound, or isn't built.
    #[error("the config has no plan")]
    Fault(PlanFault),
}

impl PlanError {
    /// The fault; none where memory ran out.
    pub fn fault(&self) -> Option<&PlanFault>
        ensures { option_copied result ≡ fault_of self.now }
    {
        match self {
            PlanError::Memory => None,
            PlanError::Fault(fault) => Some(fault),
        }
    }
}

/// A fault, or none; or want of memory.
pub(crate) type Found = Result<Option<PlanFault>, AllocError>;

/// The name of a fault's kind.
pub(crate) fn kind(fault: &PlanFault) -> &'static str {
    match fault {
        PlanFault::NotBuilt { name: _ } => "NotBuilt",
        PlanFault::BadDate { domain: _ } => "BadDate",
        PlanFault::PastYear9999 => "PastYear9999",
        PlanFault::BadParent { domain: _ } => "BadParent",
        PlanFault::BadRatio { domain: _ } => "BadRatio",
        PlanFault::NestSize { domain: _ } => "NestSize",
        PlanFault::NestAtEdge { domain: _ } => "NestAtEdge",
        PlanFault::NestPeriodic { domain: _ } => "NestPeriodic",
        PlanFault::StepNotWhole { domain: _ } => "StepNotWhole",
        PlanFault::RunNotSteps => "RunNotSteps",
        PlanFault::NestStart { domain: _ } => "NestStart",
        PlanFault::IntervalNotSteps {
            domain: _,
            stream: _,
        } => "IntervalNotSteps",
        PlanFault::UnknownHook { field: _ } => "UnknownHook",
        PlanFault::ReadPastLevels { phase: _, field: _ } => "ReadPastLevels",
        PlanFault::ReadPastEdge {
            domain: _,
            phase: _,
            field: _,
        } => "ReadPastEdge",
        PlanFault::Limit { which: _, value: _ } => "Limit",
    }
}

impl fmt::Debug for PlanError {
    fn fmt<W: fmt::Write>(&self, f: &mut fmt::Formatter<W>) -> fmt::Result {
        let kind = match self {
            PlanError::Memory => "Memory",
            PlanError::Fault(fault) => kind(fault),
        };
        write!(f, "{kind}")
    }
}

impl From<AllocError> for PlanError {
    ghost from_gives = { λ _ e. e ≡ plan.Memory };

    fn from(_e: AllocError) -> PlanError {
        PlanError::Memory
    }
}

impl<T: Drop> From<AllocFailed<T>> for PlanError {
    ghost from_gives = { λ _ e. e ≡ plan.Memory };

    fn from(_e: AllocFailed<T>) -> PlanError {
        PlanError::Memory
    }
}
