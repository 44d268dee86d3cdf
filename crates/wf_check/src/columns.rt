//! From one column or row of patches to the next that does not repeat the one before it.

ghost use Rattle.std.specs.Prelude.{◌≡◌, ◌+◌, ◌<◌, ◌^◌, unsigned_abs};
ghost use Rattle.wf_model.specs.Plans.{nx, ny};
ghost use Rattle.wf_check_laws.specs.Repeats.{before_end, before_item_x, before_item_y};
ghost use Rattle.wf_check_laws.specs.Repeats.{before_near, look_x, look_y, next_x, next_y};
ghost use Rattle.wf_check.specs.Asks.{asked_in, columns_before, rows_before};

use crate::home::Home;
use wf_check_walk::{Question, is_staggered_x, is_staggered_y};
use wf_model::Item;
use wf_model::extents::points;

/// How far from its own point a patch looks for a read, from west to east.
fn look_x(question: &Question) -> u64
    ensures is { result ≡ question.now.phase.now.extend + unsigned_abs question.now.di }
    ensures small { result < 2 ^ 40 }
{
    u64::from(question.phase.extend) + u64::from(question.di.unsigned_abs())
}

/// The same from south to north.
fn look_y(question: &Question) -> u64
    ensures is { result ≡ question.now.phase.now.extend + unsigned_abs question.now.dj }
    ensures small { result < 2 ^ 40 }
{
    u64::from(question.phase.extend) + u64::from(question.dj.unsigned_abs())
}

/// How many points a field has from west to east.
fn points_x(home: &Home, field: u32) -> u32
    ensures { result ≡ nx home.now.plan.now home.now.number field }
{
    let staggered = is_staggered_x(home.plan, field);
    points(home.domain.ide, staggered, home.domain.periodic_x)
}

/// How many points a field has from south to north.
fn points_y(home: &Home, field: u32) -> u32
    ensures { result ≡ ny home.now.plan.now home.now.number field }
{
    let staggered = is_staggered_y(home.plan, field);
    points(home.domain.jde, staggered, home.domain.periodic_y)
}

/// The first number from `at` on that comes near `end`, if it is less than `far`.
fn before_near(look: u64, at: u64, end: u32, far: u64) -> u64
    requires { look < 2 ^ 40 }
    ensures { result ≡ before_near look at end far }
{
    let end = u64::from(end);
    if end + look < at {
        far
    } else {
        far.min(at.max(end.saturating_sub(look)))
    }
}

/// The first number from `at` on that comes near the end of `points`.
fn before_end(look: u64, at: u64, points: u32) -> u64
    ensures { result ≡ before_end look at points }
{
    let points = u64::from(points);
    at.max(points.saturating_sub(look).min(points.saturating_sub(1)))
}

/// The same of an item's region, from west to east.
fn before_item_x(home: &Home, look: u64, at: u64, far: u64, item: &Item) -> u64
    requires { look < 2 ^ 40 }
    ensures { result ≡ before_item_x home.now.plan.now home.now.number look at far item.now }
{
    match item {
        Item::Phase(phase) => {
            let near = before_near(look, at, phase.mx, far);
            let end = points_x(home, phase.writes).saturating_sub(phase.mx);
            before_near(look, at, end, near)
        }
        _ => far,
    }
}

/// The same from south to north.
fn before_item_y(home: &Home, look: u64, at: u64, far: u64, item: &Item) -> u64
    requires { look < 2 ^ 40 }
    ensures { result ≡ before_item_y home.now.plan.now home.now.number look at far item.now }
{
    match item {
        Item::Phase(phase) => {
            let near = before_near(look, at, phase.my, far);
            let end = points_y(home, phase.writes).saturating_sub(phase.my);
            before_near(look, at, end, near)
        }
        _ => far,
    }
}

/// The same of all items.
fn before_items_x(home: &Home, look: u64, at: u64, far: u64) -> u64
    requires { look < 2 ^ 40 }
    ensures { result
        ≡ columns_before home.now.plan.now home.now.number look at far home.now.plan.now.items }
{
    let mut next = far;
    for item in home.plan.items.as_slice() {
        next = before_item_x(home, look, at, next, item);
    }
    next
}

/// The same of all items, from south to north.
fn before_items_y(home: &Home, look: u64, at: u64, far: u64) -> u64
    requires { look < 2 ^ 40 }
    ensures { result
        ≡ rows_before home.now.plan.now home.now.number look at far home.now.plan.now.items }
{
    let mut next = far;
    for item in home.plan.items.as_slice() {
        next = before_item_y(home, look, at, next, item);
    }
    next
}

/// The first column from `at` on that does not repeat the one before it.
#[tactic(auto, unfolding(wf_check_laws::specs::Repeats::next_x), using(crate::proofs::Leaps::stays_x))]
pub fn next_x(home: &Home, question: &Question, at: u64) -> u64
    ensures { result ≡ next_x home.now.plan.now (asked_in home.now question.now) at }
{
    let look = look_x(question);
    if at <= look {
        return at;
    }
    let far = before_end(look, at, home.domain.ide.saturating_sub(1));
    if home.domain.periodic_x || far == at {
        return far;
    }
    before_items_x(home, look, at, far)
}

/// The first row from `at` on that does not repeat the one before it.
#[tactic(auto, unfolding(wf_check_laws::specs::Repeats::next_y), using(crate::proofs::Leaps::stays_y))]
pub fn next_y(home: &Home, question: &Question, at: u64) -> u64
    ensures { result ≡ next_y home.now.plan.now (asked_in home.now question.now) at }
{
    let look = look_y(question);
    if at <= look {
        return at;
    }
    let far = before_end(look, at, home.domain.jde.saturating_sub(1));
    if home.domain.periodic_y || far == at {
        return far;
    }
    before_items_y(home, look, at, far)
}
