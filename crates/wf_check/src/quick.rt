//! Reads that are covered whatever the table does in between, so that no patch has to be looked at.

ghost use Rattle.std.specs.Prelude.{◌≡◌};
ghost use Rattle.std.specs.List.{list_all};
ghost use Rattle.wf_check.specs.Asks.{asked_in};
ghost use Rattle.wf_check.specs.Quick.{has_same_points, is_calm, is_own_read, leaves_alone};

use crate::home::Home;
use wf_check_walk::{Question, is_fed, is_forced, is_staggered_x, is_staggered_y};
use wf_model::{Item, Plan};

/// Whether an item neither writes a level nor exchanges it with another.
fn leaves_alone(item: &Item, level: u32) -> bool
    ensures { result ≡ leaves_alone level item.now }
{
    match item {
        Item::Halo(_) => true,
        Item::Period(_) => true,
        Item::Swap(one, two) => level != *one && level != *two,
        Item::Phase(phase) => level != phase.writes,
    }
}

/// Whether no item does.
fn leave_alone(plan: &Plan, level: u32) -> bool
    ensures { result ≡ list_all (leaves_alone level) plan.now.items }
{
    for item in plan.items.as_slice() {
        if !leaves_alone(item, level) {
            return false;
        }
    }
    true
}

/// Whether nothing ever changes a level in a domain: no item of the table, no force and no
/// feedback.
pub fn is_calm(home: &Home, level: u32) -> bool
    ensures { result ≡ is_calm home.now.plan.now home.now.number level }
{
    let is_forced = home.number > 1 && is_forced(home.plan, level);
    let is_fed = home.is_fed && is_fed(home.plan, level);
    !is_forced && !is_fed && leave_alone(home.plan, level)
}

/// Whether two levels have the same points.
fn has_same_points(plan: &Plan, one: u32, two: u32) -> bool
    ensures { result ≡ has_same_points plan.now one two }
{
    is_staggered_x(plan, one) == is_staggered_x(plan, two)
        && is_staggered_y(plan, one) == is_staggered_y(plan, two)
}

/// Whether each patch computes its own points alone, and reads them at the same points.
pub fn is_own_read(home: &Home, question: &Question) -> bool
    ensures { result ≡ is_own_read home.now.plan.now (asked_in home.now question.now) }
{
    question.di == 0
        && question.dj == 0
        && question.phase.extend == 0
        && has_same_points(home.plan, question.field, question.phase.writes)
}
