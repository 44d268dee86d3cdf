//! The first read of a plan that is not covered: by domain, item, and from left to right.

ghost use Rattle.std.specs.Prelude.{◌≡◌, ◌≤◌, ◌<◌, ◌-◌, ◌^◌, length};
ghost use Rattle.wf_model.specs.Covered.{all_asked, asked_of};
ghost use Rattle.wf_model.specs.Plans.{domain_of};
ghost use Rattle.wf_check.specs.Errors.{asked_in_domain, errors_in};

use crate::error::HaloError;
use crate::home::Home;
use crate::nests::home_of;
use crate::place::Place;
use crate::reads::first_error;
use wf_model::{Domain, Item, Phase, Plan};

/// Of a phase, the item of a number.
fn phase_error(home: &Home, item: u32, phase: &Phase) -> Option<HaloError>
    requires { item ≤ length home.now.plan.now.items }
    ensures { result
        ≡ errors_in home.now.plan.now (asked_of home.now.number item (Item.Phase phase.now)) }
{
    let place = Place { home, item, phase };
    first_error(&phase.expr, &place)
}

/// Of an item.
fn item_error(home: &Home, number: u32, item: &Item) -> Option<HaloError>
    requires { number ≤ length home.now.plan.now.items }
    ensures { result ≡ errors_in home.now.plan.now (asked_of home.now.number number item.now) }
{
    match item {
        Item::Phase(phase) => phase_error(home, number, phase),
        _ => None,
    }
}

/// Of a domain.
fn domain_error(home: &Home) -> Option<HaloError>
    requires { length home.now.plan.now.items < 2 ^ 32 }
    ensures { result
        ≡ errors_in home.now.plan.now (asked_in_domain home.now.plan.now home.now.number) }
{
    for (i, item) in home.plan.items.as_slice().iter().enumerate() {
        let error = item_error(home, i as u32, item);
        if error.is_some() {
            return error;
        }
    }
    None
}

/// Of the domain of a number.
fn domain_error_at(plan: &Plan, number: u32, domain: &Domain) -> Option<HaloError>
    requires domain { domain.now ≡ domain_of plan.now number }
    requires items { length plan.now.items < 2 ^ 32 }
    ensures { result ≡ errors_in plan.now (asked_in_domain plan.now number) }
{
    let home = home_of(plan, number, domain);
    domain_error(&home)
}

/// Of a plan.
pub fn plan_error(plan: &Plan) -> Option<HaloError>
    requires domains { length plan.now.domains < 2 ^ 32 - 1 }
    requires items { length plan.now.items < 2 ^ 32 }
    ensures { result ≡ errors_in plan.now (all_asked plan.now) }
{
    for (i, domain) in plan.domains.as_slice().iter().enumerate() {
        let error = domain_error_at(plan, (i + 1) as u32, domain);
        if error.is_some() {
            return error;
        }
    }
    None
}
