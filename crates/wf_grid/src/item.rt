//! The items of the table, one by one.

ghost use Rattle.std.specs.Prelude.{◌≡◌, All, ◌^◌, ◌<◌, length, option_map};
ghost use Rattle.wf_model.specs.Plans.{item_of};
ghost use Rattle.wf_grid.specs.Levels.{AreLists};
ghost use Rattle.wf_grid.specs.Stepped.{left_by_item, left_by_step};
ghost use Rattle.wf_grid.specs.Takeable.{CallsAreAccepted, IsTable, HasRoom};

use crate::extents::Here;
use crate::phase::run_phase;
use wf_hooks::{Answering, HookTable, Meanings};
use wf_model::{Item, List, Plan, Point, What};

/// The item of a number, from 0.
fn item(plan: &Plan, number: u32) -> &Item
    requires { number < length plan.now.items }
    ensures { result.now ≡ item_of plan.now number }
{
    &plan.items.as_slice()[number as usize]
}

/// The point of a phase that overflowed.
fn named(domain: u32, step: u64, item: u32, field: u32, here: Option<Here>) -> Option<Point>
    ensures { result ≡ option_map (λ h. record {
      domain = domain;
      step = step;
      what = What.Phase item;
      field = field;
      k = h.k;
      j = h.j;
      i = h.i;
    }) here }
{
    match here {
        Some(here) => Some(Point {
            domain,
            step,
            what: What::Phase(item),
            field,
            k: here.k,
            j: here.j,
            i: here.i,
        }),
        None => None,
    }
}

/// Does an item of the table on a whole domain, or gives the first point that overflows and changes
/// nothing. An exchange between patches changes no whole domain.
pub fn take_item<M: Meanings, F: Answering<M>>(
    plan: &Plan,
    number: u32,
    levels: &mut [List<i32>],
    step: u64,
    place: u32,
    scratch: &mut [i32],
    hooks: &HookTable<M, F>,
) -> Option<Point>
    requires lists { AreLists plan.now number levels.old }
    requires table { IsTable plan.now number }
    requires calls { All (CallsAreAccepted M.accepts) plan.now.items }
    requires item { place < length plan.now.items }
    requires room { HasRoom plan.now number scratch.old }
    ensures point { result ≡ (left_by_item plan.now M.answer number step place levels.old).point }
    ensures lists { levels.new
        ≡ (left_by_item plan.now M.answer number step place levels.old).lists }
    ensures scratch { length scratch.new ≡ length scratch.old }
{
    match item(plan, place) {
        Item::Halo(_) | Item::Period(_) => None,
        Item::Swap(one, two) => {
            levels.swap(*one as usize, *two as usize);
            None
        }
        Item::Phase(phase) => {
            let here = run_phase(plan, number, levels, phase, step, scratch, hooks);
            named(number, step, place, phase.writes, here)
        }
    }
}

/// Does one step of a domain, which is all items of the table, up to the first that overflows.
pub fn take_step<M: Meanings, F: Answering<M>>(
    plan: &Plan,
    number: u32,
    levels: &mut [List<i32>],
    step: u64,
    scratch: &mut [i32],
    hooks: &HookTable<M, F>,
) -> Option<Point>
    requires lists { AreLists plan.now number levels.old }
    requires table { IsTable plan.now number }
    requires calls { All (CallsAreAccepted M.accepts) plan.now.items }
    requires few { length plan.now.items < 2 ^ 32 }
    requires room { HasRoom plan.now number scratch.old }
    ensures point { result ≡ (left_by_step plan.now M.answer number step levels.old).point }
    ensures lists { levels.new ≡ (left_by_step plan.now M.answer number step levels.old).lists }
    ensures are { AreLists plan.now number levels.new }
    ensures scratch { length scratch.new ≡ length scratch.old }
{
    for place in 0..plan.items.as_slice().len() as u32 {
        if let Some(point) = take_item(plan, number, levels, step, place, scratch, hooks) {
            return Some(point);
        }
    }
    None
}
