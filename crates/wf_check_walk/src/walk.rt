//! The walk back from a read, by the numbers of the items.

ghost use Rattle.std.specs.Prelude.{◌≡◌, ◌+◌, ◌-◌, ◌≤◌, ◌+ℤ◌, length};
ghost use Rattle.wf_model.specs.Covered.{is_cell_covered};
ghost use Rattle.wf_model.specs.Plans.{level_at};
ghost use Rattle.wf_check_laws.specs.Backwards.{is_yes, then_met};
ghost use Rattle.wf_check_walk.specs.Directions.{IsSmall};
ghost use Rattle.wf_check_walk.specs.Place.{number_of};
ghost use Rattle.wf_check_walk.specs.Walks.{asked_by, at_feedback, at_force, cycles_before};
ghost use Rattle.wf_check_walk.specs.Walks.{met_back_at, met_items_at, met_of};

use crate::cell::Cell;
use crate::fields::{is_fed, is_forced, level_at};
use crate::met::{Met, at_item};
use crate::own::is_own;
use crate::patch::Patch;
use crate::regions::computes;
use wf_model::Phase;

/// A read of a phase, which is the item of this number, from 0.
#[derive(Drop)]
pub struct Question<'a> {
    pub item: u32,
    pub phase: &'a Phase,
    /// The level that is read, from 0, and the offset in columns, levels in z and rows.
    pub field: u32,
    pub di: i32,
    pub dk: i32,
    pub dj: i32,
}

/// At so many items backwards, down to the one of a number.
fn met_items(patch: &Patch, cell: &Cell, count: usize, low: usize, level: u32) -> Met
    requires { low + count ≤ length patch.now.plan.now.items }
    ensures { met_of result ≡ met_items_at patch.now cell.now count low level }
{
    let items = patch.plan.items.as_slice();
    let mut left = count;
    let mut level = level;
    while left > 0 {
        left -= 1;
        match at_item(patch, cell, &items[low + left], level) {
            Met::GoesOn(other) => level = other,
            Met::Ends(yes) => return Met::Ends(yes),
        }
    }
    Met::GoesOn(level)
}

/// At the force of a nest.
fn met_force(patch: &Patch, level: u32) -> Met
    ensures { met_of result ≡ at_force patch.now.plan.now patch.now.number level }
{
    if patch.number > 1 && is_forced(patch.plan, level) {
        Met::Ends(false)
    } else {
        Met::GoesOn(level)
    }
}

/// At the feedbacks of all nests.
fn met_feedback(patch: &Patch, level: u32) -> Met
    ensures { met_of result ≡ at_feedback patch.now.plan.now patch.now.number level }
{
    if patch.is_fed && is_fed(patch.plan, level) {
        Met::Ends(false)
    } else {
        Met::GoesOn(level)
    }
}

/// At so many items backwards from the table's head, and at the force before them.
fn met_to_begin(patch: &Patch, cell: &Cell, count: usize, level: u32) -> Met
    requires { count ≤ length patch.now.plan.now.items }
    ensures { met_of result ≡ then_met (met_items_at patch.now cell.now count 0 level)
        (at_force patch.now.plan.now patch.now.number) }
{
    match met_items(patch, cell, count, 0, level) {
        Met::GoesOn(other) => met_force(patch, other),
        Met::Ends(yes) => Met::Ends(yes),
    }
}

/// At a whole cycle.
fn met_cycle(patch: &Patch, cell: &Cell, level: u32) -> Met
    ensures { met_of result ≡ then_met (at_feedback patch.now.plan.now patch.now.number level)
        (λ h. then_met (met_items_at patch.now cell.now (length patch.now.plan.now.items) 0 h)
        (at_force patch.now.plan.now patch.now.number)) }
{
    match met_feedback(patch, level) {
        Met::GoesOn(other) => met_to_begin(patch, cell, patch.plan.items.as_slice().len(), other),
        Met::Ends(yes) => Met::Ends(yes),
    }
}

/// At the feedbacks, and at the items down to the one of a number.
fn met_to_item(patch: &Patch, cell: &Cell, item: usize, level: u32) -> Met
    requires { item ≤ length patch.now.plan.now.items }
    ensures { met_of result ≡ then_met (at_feedback patch.now.plan.now patch.now.number level)
        (met_items_at patch.now cell.now (length patch.now.plan.now.items - item) item) }
{
    match met_feedback(patch, level) {
        Met::GoesOn(other) => {
            let count = patch.plan.items.as_slice().len() - item;
            met_items(patch, cell, count, item, other)
        }
        Met::Ends(yes) => Met::Ends(yes),
    }
}

/// At the cycle before, and at the one before that down to the item of a number.
fn met_before(patch: &Patch, cell: &Cell, item: usize, level: u32) -> Met
    requires { item ≤ length patch.now.plan.now.items }
    ensures { met_of result ≡ cycles_before patch.now cell.now item level }
{
    match met_cycle(patch, cell, level) {
        Met::GoesOn(other) => met_to_item(patch, cell, item, other),
        Met::Ends(yes) => Met::Ends(yes),
    }
}

/// Back from the item of a number, over two whole cycles.
#[tactic(auto, unfolding(wf_check_laws::specs::Backwards::met_back))]
fn met_back(patch: &Patch, cell: &Cell, item: usize, level: u32) -> Met
    requires { item ≤ length patch.now.plan.now.items }
    ensures { met_of result ≡ met_back_at patch.now cell.now item level }
{
    match met_to_begin(patch, cell, item, level) {
        Met::GoesOn(other) => met_before(patch, cell, item, other),
        Met::Ends(yes) => Met::Ends(yes),
    }
}

/// Whether the walk back from the item of a number ends in yes, or not at all.
fn walk(patch: &Patch, cell: &Cell, item: usize, level: u32) -> bool
    requires { item ≤ length patch.now.plan.now.items }
    ensures { result ≡ is_yes (met_back_at patch.now cell.now item level) }
{
    match met_back(patch, cell, item, level) {
        Met::GoesOn(_) => true,
        Met::Ends(yes) => yes,
    }
}

/// The cell that is read from a point.
fn cell_read(patch: &Patch, question: &Question, k: u32, j: i64, i: i64) -> Cell
    requires j_small { IsSmall j }
    requires i_small { IsSmall i }
    ensures k { result.k ≡ level_at patch.now.plan.now question.now.field k question.now.dk }
    ensures j { result.j ≡ j +ℤ question.now.dj }
    ensures i { result.i ≡ i +ℤ question.now.di }
{
    Cell {
        k: level_at(patch.plan, question.field, k, question.dk),
        j: j + i64::from(question.dj),
        i: i + i64::from(question.di),
    }
}

/// Whether a read is covered at a point of the patch: it does not compute the point, it owns the
/// cell that is read, or the walk back from the read's item ends in yes, or not within two cycles.
pub fn is_cell_covered(patch: &Patch, question: &Question, k: u32, j: i64, i: i64) -> bool
    requires item { question.now.item ≤ length patch.now.plan.now.items }
    requires j_small { IsSmall j }
    requires i_small { IsSmall i }
    ensures { result ≡ is_cell_covered patch.now.plan.now (asked_by patch.now question.now)
        (number_of patch.now) k j i }
{
    let here = Cell {
        k: u64::from(k),
        j,
        i,
    };
    if !computes(patch, question.phase, &here) {
        return true;
    }
    let there = cell_read(patch, question, k, j, i);
    is_own(patch, question.field, &there)
        || walk(patch, &there, question.item as usize, question.field)
}
