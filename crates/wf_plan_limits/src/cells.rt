//! The cells of all whole domains and levels.

ghost use Rattle.std.specs.Prelude.{◌≡◌, ◌+◌, IfOk};
ghost use Rattle.wf_model.specs.Counts.{all_cells};
ghost use Rattle.wf_plan_limits.specs.CellCount.{level_cells, domain_cells};

use std::alloc::AllocError;
use wf_model::{Domain, Field, Plan};

/// The sum; one that 128 bits can't hold counts as want of memory.
pub(crate) fn plus(a: u128, b: u128) -> Result<u128, AllocError>
    ensures { IfOk result (λ n. n ≡ a + b) }
{
    match a.checked_add(b) {
        Some(sum) => Ok(sum),
        None => Err(AllocError),
    }
}

/// The points of a level in a domain.
fn level_cells(domain: &Domain, field: &Field) -> u128
    ensures { result ≡ level_cells domain.now field.now }
{
    let own = domain.extents(field);
    u128::from(own.levels) * (u128::from(own.rows) * u128::from(own.columns))
}

/// The points of all levels in a domain.
fn domain_cells(fields: &[Field], domain: &Domain) -> Result<u128, AllocError>
    ensures { IfOk result (λ n. n ≡ domain_cells fields.now domain.now) }
{
    let mut total = 0;
    for field in fields {
        total = plus(total, level_cells(domain, field))?;
    }
    Ok(total)
}

/// The points of all levels in all domains.
#[tactic(auto, using(crate::proofs::CellSums::all_cells_listed))]
pub(crate) fn all_cells(plan: &Plan) -> Result<u128, AllocError>
    ensures { IfOk result (λ n. n ≡ all_cells plan.now) }
{
    let mut total = 0;
    for domain in plan.domains.as_slice() {
        total = plus(total, domain_cells(plan.fields.as_slice(), domain)?)?;
    }
    Ok(total)
}
