//! A read over all patches of a domain: only those whose column, row and level repeat no other are
//! looked at.

ghost use Rattle.std.specs.Prelude.{◌≡◌, ◌-◌, ◌<◌, ◌≤◌, length, MatchBool};
ghost use Rattle.wf_model.specs.Plans.{domain_of};
ghost use Rattle.wf_check_laws.specs.Repeats.{is_covered_at_few};
ghost use Rattle.wf_check.specs.Asks.{asked_in};
ghost use Rattle.wf_check.specs.Passing.{FailsAt, IsDecided, LevelFails, LevelPasses, RowFails};
ghost use Rattle.wf_check.specs.Passing.{RowPasses};

use crate::columns::{next_x, next_y};
use crate::home::Home;
use crate::levels::repeats_z;
use crate::points::passes_at;
use crate::quick::{is_calm, is_own_read};
use wf_check_walk::{Question, levels_z};

/// Whether each patch of a row passes at a level.
fn row_passes(home: &Home, question: &Question, k: u32, row: u32) -> bool
    requires item { question.now.item ≤ length home.now.plan.now.items }
    requires row { row < (domain_of home.now.plan.now home.now.number).jde - 1 }
    ensures { MatchBool result (RowPasses home.now.plan.now (asked_in home.now question.now) k row)
        (RowFails home.now.plan.now (asked_in home.now question.now) k row) }
{
    let width = u64::from(home.domain.ide.saturating_sub(1));
    let mut column = next_x(home, question, 0);
    while column < width {
        if !passes_at(home, question, k, row, column as u32) {
            return false;
        }
        column = next_x(home, question, column + 1);
    }
    true
}

/// Whether each patch of each row passes at a level.
fn level_passes(home: &Home, question: &Question, k: u32) -> bool
    requires { question.now.item ≤ length home.now.plan.now.items }
    ensures { MatchBool result (LevelPasses home.now.plan.now (asked_in home.now question.now) k)
        (LevelFails home.now.plan.now (asked_in home.now question.now) k) }
{
    let height = u64::from(home.domain.jde.saturating_sub(1));
    let mut row = next_y(home, question, 0);
    while row < height {
        if !row_passes(home, question, k, row as u32) {
            return false;
        }
        row = next_y(home, question, row + 1);
    }
    true
}

/// Whether a level repeats the one before it, or each patch passes there.
fn is_level_decided(home: &Home, question: &Question, k: u32) -> bool
    requires { question.now.item ≤ length home.now.plan.now.items }
    ensures { MatchBool result (IsDecided home.now.plan.now (asked_in home.now question.now) k)
        (FailsAt home.now.plan.now (asked_in home.now question.now) k) }
{
    repeats_z(home, question, k) || level_passes(home, question, k)
}

/// Whether each level repeats, or passes.
fn are_levels_decided(home: &Home, question: &Question) -> bool
    requires { question.now.item ≤ length home.now.plan.now.items }
    ensures { result ≡ is_covered_at_few home.now.plan.now (asked_in home.now question.now) }
{
    let levels = levels_z(home.plan, question.phase.writes);
    for k in 1..=levels {
        if !is_level_decided(home, question, k) {
            return false;
        }
    }
    true
}

/// Whether the read is covered, at each level, patch and point.
#[tactic(auto, using(crate::proofs::Calm::calm_covered, crate::proofs::Calm::own_covered))]
pub fn is_covered(home: &Home, question: &Question) -> bool
    requires { question.now.item ≤ length home.now.plan.now.items }
    ensures { result ≡ is_covered_at_few home.now.plan.now (asked_in home.now question.now) }
{
    if is_own_read(home, question) {
        return true;
    }
    if is_calm(home, question.field) {
        return true;
    }
    are_levels_decided(home, question)
}
