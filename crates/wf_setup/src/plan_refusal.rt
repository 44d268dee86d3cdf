//! The refusals of a plan.

ghost use Rattle.std.specs.Prelude.{◌≡◌, [], ◌∷◌, IfOk, codes, decimal};
ghost use Rattle.wf_model.specs.Refusals.{line, whole, which_word, plan_words, plan_refusal};
ghost use Rattle.wf_setup.specs.Errors.{Tells};

use crate::error::{Refused, SetupError};
use crate::line::{line, number, whole};
use std::alloc::{AllocError, Global};
use wf_model::{Bytes, PlanFault, Which};

fn which_word(which: Which) -> &'static [u8]
    ensures { result.now ≡ which_word which }
{
    match which {
        Which::Levels => b"Levels",
        Which::Extent => b"Extent",
        Which::Cells => b"Cells",
        Which::Script => b"Script",
        Which::FileBytes => b"FileBytes",
    }
}

/// A kind and the name that it is about.
fn named(alloc: Global, kind: &[u8], name: &Bytes) -> Result<Bytes, AllocError>
    ensures { IfOk result (λ b. b ≡ line (codes "plan" ∷ kind.now ∷ name.now ∷ [])) }
{
    line(alloc, b"plan", &[kind, name.as_slice()])
}

/// A kind and a domain.
fn of_domain(alloc: Global, kind: &[u8], domain: u32) -> Result<Bytes, AllocError>
    ensures { IfOk result (λ b. b ≡ line (codes "plan" ∷ kind.now ∷ decimal domain ∷ [])) }
{
    let domain = number(alloc, domain)?;
    line(alloc, b"plan", &[kind, domain.as_bytes()])
}

fn interval(alloc: Global, domain: u32, stream: u32) -> Result<Bytes, AllocError>
    ensures { IfOk result (λ b.
        b ≡ line (codes "plan" ∷ codes "IntervalNotSteps" ∷ decimal domain ∷ decimal stream ∷ [])) }
{
    let domain = number(alloc, domain)?;
    let stream = number(alloc, stream)?;
    let words = [
        b"IntervalNotSteps".as_slice(),
        domain.as_bytes(),
        stream.as_bytes(),
    ];
    line(alloc, b"plan", &words)
}

fn past_levels(alloc: Global, phase: &Bytes, field: &Bytes) -> Result<Bytes, AllocError>
    ensures { IfOk result
        (λ b. b ≡ line (codes "plan" ∷ codes "ReadPastLevels" ∷ phase.now ∷ field.now ∷ [])) }
{
    let words = [
        b"ReadPastLevels".as_slice(),
        phase.as_slice(),
        field.as_slice(),
    ];
    line(alloc, b"plan", &words)
}

fn past_edge(alloc: Global, domain: u32, phase: &Bytes, field: &Bytes) -> Result<Bytes, AllocError>
    ensures { IfOk result (λ b. b ≡ line
        (codes "plan" ∷ codes "ReadPastEdge" ∷ decimal domain ∷ phase.now ∷ field.now ∷ [])) }
{
    let domain = number(alloc, domain)?;
    let kind = b"ReadPastEdge".as_slice();
    let words = [kind, domain.as_bytes(), phase.as_slice(), field.as_slice()];
    line(alloc, b"plan", &words)
}

fn limit(alloc: Global, which: Which, value: i128) -> Result<Bytes, AllocError>
    ensures { IfOk result
        (λ b. b ≡ line (codes "plan" ∷ codes "Limit" ∷ which_word which ∷ whole value ∷ [])) }
{
    let value = whole(alloc, value)?;
    let words = [b"Limit".as_slice(), which_word(which), value.as_bytes()];
    line(alloc, b"plan", &words)
}

/// The kind of a fault, and its parts in order.
fn plan_line(alloc: Global, fault: &PlanFault) -> Result<Bytes, AllocError>
    ensures { IfOk result (λ b. b ≡ line (codes "plan" ∷ plan_words fault.now)) }
{
    match fault {
        PlanFault::NotBuilt { name } => named(alloc, b"NotBuilt", name),
        PlanFault::BadDate { domain } => of_domain(alloc, b"BadDate", *domain),
        PlanFault::PastYear9999 => line(alloc, b"plan", &[b"PastYear9999".as_slice()]),
        PlanFault::BadParent { domain } => of_domain(alloc, b"BadParent", *domain),
        PlanFault::BadRatio { domain } => of_domain(alloc, b"BadRatio", *domain),
        PlanFault::NestSize { domain } => of_domain(alloc, b"NestSize", *domain),
        PlanFault::NestAtEdge { domain } => of_domain(alloc, b"NestAtEdge", *domain),
        PlanFault::NestPeriodic { domain } => of_domain(alloc, b"NestPeriodic", *domain),
        PlanFault::StepNotWhole { domain } => of_domain(alloc, b"StepNotWhole", *domain),
        PlanFault::RunNotSteps => line(alloc, b"plan", &[b"RunNotSteps".as_slice()]),
        PlanFault::NestStart { domain } => of_domain(alloc, b"NestStart", *domain),
        PlanFault::IntervalNotSteps { domain, stream } => interval(alloc, *domain, *stream),
        PlanFault::UnknownHook { field } => named(alloc, b"UnknownHook", field),
        PlanFault::ReadPastLevels { phase, field } => past_levels(alloc, phase, field),
        PlanFault::ReadPastEdge {
            domain,
            phase,
            field,
        } => past_edge(alloc, *domain, phase, field),
        PlanFault::Limit { which, value } => limit(alloc, *which, *value),
    }
}

/// `plan KIND` and the parts of the fault, status 4.
pub fn plan_refusal(alloc: Global, fault: &PlanFault) -> SetupError
    ensures { Tells result (plan_refusal fault.now) }
{
    match plan_line(alloc, fault) {
        Ok(line) => SetupError::Refused(Refused { status: 4, line }),
        Err(_) => SetupError::Memory,
    }
}
