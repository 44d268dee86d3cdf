//! A run on whole domains.

ghost use Rattle.std.specs.Prelude.{◌≡◌, ℕ, ◌+◌, ◌-◌, ◌^◌, ◌<◌, ◌≤◌, All, IfOk, length};
ghost use Rattle.std.specs.Prelude.{slice_index_or, slice_set};
ghost use Rattle.wf_model.specs.Plans.{begin_of};
ghost use Rattle.wf_model.specs.Outcome.{outcome_of, no_list, no_lists};
ghost use Rattle.wf_model.specs.Sound.{IsDomain, IsLevel, IsSoundPlan, IsRangedPlan};
ghost use Rattle.wf_model.specs.Sound.{IsFittingInitial};
ghost use Rattle.wf_grid.specs.Levels.{AreLists};
ghost use Rattle.wf_grid.specs.Stepped.{left_by_steps};
ghost use Rattle.wf_grid.specs.Takeable.{CallsAreAccepted, IsTable, HasRoom};
ghost use Rattle.wf_grid.specs.Held.{run_of, held_with, all_lists, point_at_end, grids_at_end};
ghost use Rattle.wf_grid.specs.Held.{first_lists};

use crate::item::take_step;
use std::alloc::{AllocError, Global};
use std::marker::Model;
use wf_hooks::{Answering, HookTable, Meanings};
use wf_model::{Initial, List, Plan, Point};

/// Steps domain 1 through the run, up to the first overflow.
fn settle_levels<M: Meanings, F: Answering<M>>(
    plan: &Plan,
    before: u64,
    levels: &mut [List<i32>],
    scratch: &mut [i32],
    hooks: &HookTable<M, F>,
) -> Option<Point>
    requires lists { AreLists plan.now 1 levels.old }
    requires table { IsTable plan.now 1 }
    requires calls { All (CallsAreAccepted M.accepts) plan.now.items }
    requires items { length plan.now.items < 2 ^ 32 }
    requires room { HasRoom plan.now 1 scratch.old }
    requires steps { before + plan.now.steps < 2 ^ 64 }
    ensures point { result ≡ (left_by_steps plan.now M.answer 1 before levels.old).point }
    ensures lists { levels.new ≡ (left_by_steps plan.now M.answer 1 before levels.old).lists }
    ensures are { AreLists plan.now 1 levels.new }
{
    for n in 0..plan.steps {
        if let Some(point) = take_step(plan, 1, levels, before + n + 1, scratch, hooks) {
            return Some(point);
        }
    }
    None
}

/// Steps domain 1 of all domains through the run.
fn settle_first<M: Meanings, F: Answering<M>>(
    plan: &Plan,
    before: u64,
    grids: &mut [List<List<i32>>],
    scratch: &mut [i32],
    hooks: &HookTable<M, F>,
) -> Option<Point>
    requires some { 0 < length grids.old }
    requires lists { AreLists plan.now 1 (slice_index_or grids.old 0 no_lists) }
    requires table { IsTable plan.now 1 }
    requires calls { All (CallsAreAccepted M.accepts) plan.now.items }
    requires items { length plan.now.items < 2 ^ 32 }
    requires room { HasRoom plan.now 1 scratch.old }
    requires steps { before + plan.now.steps < 2 ^ 64 }
    ensures point { result
        ≡ (left_by_steps plan.now M.answer 1 before (slice_index_or grids.old 0 no_lists)).point }
    ensures are { AreLists plan.now 1 (slice_index_or grids.new 0 no_lists) }
    ensures length { length grids.new ≡ length grids.old }
    ensures scratch { length scratch.new ≡ length scratch.old }
    ensures numbers { grids.new ≡ slice_set grids.old 0
        (left_by_steps plan.now M.answer 1 before (slice_index_or grids.old 0 no_lists)).lists }
{
    settle_levels(plan, before, grids[0].as_mut_slice(), scratch, hooks)
}

/// The length of the longest list.
fn longest(levels: &[List<i32>]) -> usize
    ensures { (f : ℕ) → f < length levels.now
        → length (slice_index_or levels.now f no_list) ≤ result }
{
    let mut most = 0;
    for level in levels {
        let count = level.as_slice().len();
        if most < count {
            most = count;
        }
    }
    most
}

/// The steps that domain 1 has behind it.
fn steps_before(initial: &Initial) -> u64
    requires { 1 ≤ length initial.now.begins }
    ensures { result ≡ (begin_of initial.now.begins 1).steps }
{
    initial.begins.as_slice()[0].steps
}

/// A run on whole domains: its plan, how its domains begin, and the numbers that they hold.
#[derive(Drop)]
pub struct Whole {
    pub(crate) alloc: Global,
    pub(crate) plan: Plan,
    pub(crate) initial: Initial,
    pub(crate) scratch: Vec<i32>,
}

impl Model for Whole {
    ghost use Rattle.wf_grid.specs.Held.{Held, IsReady};
    ghost use Rattle.wf_model.specs.contracts.expr.Expr as e;
    ghost use Rattle.std.specs.Coded.{codes};

    ghost Value = { Held };

    ghost coded = { Prim.hlevel (codes, e.the_row.coded) };

    ghost view = { λ it. record { plan = it.plan; initial = it.initial } };

    ghost invariant = { λ it. IsReady it.plan it.initial it.scratch.items };
}

impl Whole {
    /// Takes all memory that the run needs: beside the numbers one scratch, as long as the
    /// longest level.
    ///
    /// Only one domain runs for now.
    pub fn new(alloc: Global, plan: Plan, initial: Initial) -> Result<Whole, AllocError>
        requires sound { IsSoundPlan plan }
        requires ranged { IsRangedPlan plan }
        requires fitting { IsFittingInitial plan initial }
        requires one_domain { length plan.domains ≡ 1 }
        ensures { IfOk result (λ w. w ≡ record { plan = plan; initial = initial }) }
    {
        let count = longest(initial.grids.as_slice()[0].as_slice());
        let scratch = vec![in alloc; 0; count]?;
        Ok(Whole {
            alloc,
            plan,
            initial,
            scratch,
        })
    }

    /// Steps the run to its end, or to its first overflow, which it gives: the numbers are then
    /// those before that item.
    ///
    /// It begins with the numbers that are held, and with the first step after the domain's begin.
    /// Stored functions answer as the table does. It takes no memory.
    pub fn settle<M: Meanings, F: Answering<M>>(&mut self, hooks: &HookTable<M, F>) -> Option<Point>
        requires { All (CallsAreAccepted M.accepts) self.old.plan.items }
        ensures point { result ≡ point_at_end (outcome_of (run_of self.old M.answer)) }
        ensures numbers { self.new ≡ held_with self.old (all_lists self.old.plan
            (grids_at_end (run_of self.old M.answer) (outcome_of (run_of self.old M.answer)))) }
    {
        let before = steps_before(&self.initial);
        settle_first(
            &self.plan,
            before,
            self.initial.grids.as_mut_slice(),
            self.scratch.as_mut_slice(),
            hooks,
        )
    }

    /// The numbers of a level of a domain, in order k, j, i with i fastest. Domains count from 1,
    /// levels from 0.
    pub fn grid(&self, domain: u32, field: u32) -> &[i32]
        requires domain { IsDomain self.now.plan domain }
        requires level { IsLevel self.now.plan field }
        ensures { result.now ≡ slice_index_or
            (slice_index_or self.now.initial.grids (domain - 1) no_lists) field no_list }
    {
        self.initial.grids.as_slice()[domain as usize - 1].as_slice()[field as usize].as_slice()
    }
}
