//! One patch at one level: whether the read is covered at each point that the patch may compute.

ghost use Rattle.std.specs.Prelude.{◌≡◌, ◌+◌, ◌-◌, ◌<◌, ◌≤◌, ◌^◌, ◌+ℤ◌, pos, length};
ghost use Rattle.wf_model.specs.Covered.{is_cell_covered};
ghost use Rattle.wf_model.specs.Patches.{grown, size_of};
ghost use Rattle.wf_model.specs.Plans.{domain_of};
ghost use Rattle.wf_model.specs.Uncovered.{computed_box};
ghost use Rattle.wf_check_laws.specs.Repeats.{patch_in};
ghost use Rattle.wf_check_walk.specs.Directions.{IsSmall, span_of};
ghost use Rattle.wf_check_walk.specs.Place.{number_of};
ghost use Rattle.wf_check_walk.specs.Walks.{asked_by};
ghost use Rattle.wf_check.specs.Asks.{asked_in};
ghost use Rattle.wf_check.specs.Passing.{is_point_covered, passes_at, row_passes};

use crate::home::Home;
use wf_check_walk::{Patch, Question, Span, is_cell_covered, own_x, own_y};

/// How many numbers the span has with `by` more at both ends.
#[tactic(auto, using(crate::proofs::Rows::size_grown))]
fn count_of(span: Span, by: u32) -> u64
    ensures is { result ≡ size_of (grown by (span_of span)) }
    ensures few { result < 2 ^ 36 }
{
    u64::from(span.len) + 2 * u64::from(by)
}

/// The number at a place, from 0, of the span with `by` more at both ends.
fn number_at(span: Span, by: u32, place: u64) -> i64
    requires { place < 2 ^ 36 }
    ensures is { result ≡ (grown by (span_of span)).low +ℤ pos place }
    ensures small { IsSmall result }
{
    i64::from(span.low) - i64::from(by) + place as i64
}

/// Whether the read is covered at the point of a row and a column, from 0, of those that the patch
/// may compute.
fn is_point_covered(patch: &Patch, question: &Question, k: u32, row: u64, column: u64) -> bool
    requires item { question.now.item ≤ length patch.now.plan.now.items }
    requires row { row < 2 ^ 36 }
    requires column { column < 2 ^ 36 }
    ensures { result ≡ is_point_covered patch.now.plan.now (asked_by patch.now question.now)
        (number_of patch.now) k row column }
{
    let by = question.phase.extend;
    let j = number_at(own_y(patch, question.phase.writes), by, row);
    let i = number_at(own_x(patch, question.phase.writes), by, column);
    is_cell_covered(patch, question, k, j, i)
}

/// At each point of a row.
fn row_passes(patch: &Patch, question: &Question, k: u32, row: u64) -> bool
    requires item { question.now.item ≤ length patch.now.plan.now.items }
    requires row { row < 2 ^ 36 }
    ensures { result ≡ row_passes patch.now.plan.now (asked_by patch.now question.now)
        (number_of patch.now) k row }
{
    let count = count_of(own_x(patch, question.phase.writes), question.phase.extend);
    for column in 0..count {
        if !is_point_covered(patch, question, k, row, column) {
            return false;
        }
    }
    true
}

/// At each row.
fn level_passes(patch: &Patch, question: &Question, k: u32) -> bool
    requires { question.now.item ≤ length patch.now.plan.now.items }
    ensures { result
        ≡ passes_at patch.now.plan.now (asked_by patch.now question.now) k (number_of patch.now) }
{
    let count = count_of(own_y(patch, question.phase.writes), question.phase.extend);
    for row in 0..count {
        if !row_passes(patch, question, k, row) {
            return false;
        }
    }
    true
}

/// Whether the patch in a column and a row passes at a level.
pub fn passes_at(home: &Home, question: &Question, k: u32, row: u32, column: u32) -> bool
    requires item { question.now.item ≤ length home.now.plan.now.items }
    requires row { row < (domain_of home.now.plan.now home.now.number).jde - 1 }
    requires column { column < (domain_of home.now.plan.now home.now.number).ide - 1 }
    ensures { result ≡ passes_at home.now.plan.now (asked_in home.now question.now) k
        (patch_in home.now.plan.now (asked_in home.now question.now) row column) }
{
    let patch = Patch {
        plan: home.plan,
        number: home.number,
        domain: home.domain,
        is_fed: home.is_fed,
        x: column,
        y: row,
    };
    level_passes(&patch, question, k)
}
