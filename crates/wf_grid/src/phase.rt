//! A phase on a whole domain: all its numbers are computed from the old ones, and then they
//! are set.

ghost use Rattle.std.specs.Prelude.{◌≡◌, All, ℕ, ◌+◌, ◌*◌, ◌<◌, ◌≤◌, ◌==◌, false, length};
ghost use Rattle.std.specs.Prelude.{if◌then◌else◌, IfSome, None, option_map, is_none, slice_set};
ghost use Rattle.std.specs.Prelude.{slice_index_or};
ghost use Rattle.wf_model.specs.Plans.{nx, ny, nz, is_inside, is_within};
ghost use Rattle.wf_model.specs.ExprFacts.{parts_of};
ghost use Rattle.wf_model.specs.Changes.{in_region, phase_change, changed, overflow_in};
ghost use Rattle.wf_model.specs.Outcome.{no_list};
ghost use Rattle.wf_eval.specs.Evaluable.{IsAccepted};
ghost use Rattle.wf_grid.specs.Levels.{AreLists, IsPlaceIn, grids_of, lists_of};
ghost use Rattle.wf_grid.specs.Filled.{AreExtents, spot_of, phase_number, IsFilled, StopsAt};
ghost use Rattle.wf_grid.specs.Spanned.{AreFilledTo, IsLevelLong, IsSpan, is_phase_row, is_spanned};
ghost use Rattle.wf_grid.specs.Reading.{IsRunnable};

use crate::extents::{Here, domain, level, place};
use crate::sizes::all_sizes;
use crate::surroundings::{OldNumbers, Surroundings, number_here};
use wf_eval::eval;
use wf_hooks::{Answering, HookTable, Meanings};
use wf_model::{Extents, List, Phase, Plan};

/// Whether a phase sets a level of its field.
fn is_phase_level(phase: &Phase, levels: u32, k: u32) -> bool
    ensures { result ≡ (if phase.now.from == 0 then is_within 1 levels k
        else is_within phase.now.from phase.now.to k) }
{
    if phase.from == 0 {
        1 <= k && k <= levels
    } else {
        phase.from <= k && k <= phase.to
    }
}

/// The points of a direction behind one point, up to another.
#[derive(Clone, Copy, Debug, PartialEq, Eq)]
pub struct Span {
    pub after: u32,
    pub last: u32,
}

/// The points of a direction that are at least the margin from both ends, which is 0 in a
/// periodic direction.
fn inner_span(periodic: bool, margin: u32, count: u32) -> Span
    ensures { (x : ℕ) → is_spanned result x ≡ is_inside periodic margin count x }
{
    if periodic {
        Span {
            after: 0,
            last: count,
        }
    } else {
        Span {
            after: margin,
            last: count.saturating_sub(margin),
        }
    }
}

/// No points.
fn no_span() -> Span
    ensures { (x : ℕ) → is_spanned result x ≡ false }
{
    Span { after: 0, last: 0 }
}

/// Whether a point lies in a span.
fn is_spanned(span: Span, x: u32) -> bool
    ensures { result ≡ is_spanned span x }
{
    span.after < x && x <= span.last
}

/// Whether a phase sets points of a row.
fn is_set_row(old: &OldNumbers, phase: &Phase, extents: Extents, k: u32, j: u32) -> bool
    requires { AreExtents old.now.plan.now old.now.number phase.now.writes extents }
    ensures { result ≡ is_phase_row old.now.plan.now old.now.number phase.now k j }
{
    is_phase_level(phase, extents.levels, k)
        && is_spanned(inner_span(old.sizes.periodic_y, phase.my, extents.rows), j)
}

/// The points of a row that a phase sets.
fn span_of(old: &OldNumbers, phase: &Phase, extents: Extents, k: u32, j: u32) -> Span
    requires { AreExtents old.now.plan.now old.now.number phase.now.writes extents }
    ensures { IsSpan old.now.plan.now old.now.number phase.now k j result }
{
    if is_set_row(old, phase, extents, k, j) {
        inner_span(old.sizes.periodic_x, phase.mx, extents.columns)
    } else {
        no_span()
    }
}

/// Whether a phase sets a point, of whose row it sets these.
fn is_in_region(at: &Surroundings, phase: &Phase, span: Span) -> bool
    requires { IsSpan at.now.old.now.plan.now at.now.old.now.number phase.now at.now.here.k
        at.now.here.j span }
    ensures { result ≡ in_region at.now.old.now.plan.now at.now.old.now.number phase.now
        at.now.here.k at.now.here.j at.now.here.i }
{
    is_spanned(span, at.here.i)
}

/// The number of a point after a phase, which sets these points of its row; none is an overflow.
fn number_after<M: Meanings, F: Answering<M>>(
    at: &Surroundings,
    phase: &Phase,
    span: Span,
    hooks: &HookTable<M, F>,
) -> Option<i32>
    requires runnable { IsRunnable at.now.old.now.plan.now at.now.old.now.number phase.now }
    requires calls { All (IsAccepted M.accepts) (parts_of phase.now.expr).calls }
    requires span { IsSpan at.now.old.now.plan.now at.now.old.now.number phase.now at.now.here.k
        at.now.here.j span }
    requires inside { IsPlaceIn (nz at.now.old.now.plan.now phase.now.writes) (ny
        at.now.old.now.plan.now at.now.old.now.number phase.now.writes) (nx at.now.old.now.plan.now
        at.now.old.now.number phase.now.writes) at.now.here.k at.now.here.j at.now.here.i }
    ensures { result ≡ phase_number at.now.old.now.plan.now M.answer at.now.old.now.number
        at.now.old.now.levels.now at.now.old.now.step phase.now
        (spot_of phase.now.writes at.now.here) }
{
    if is_in_region(at, phase, span) {
        eval(&phase.expr, at, hooks).ok()
    } else {
        Some(number_here(at, phase.writes, at.here))
    }
}

/// Sets a row of the scratch to the numbers that the written level has after a phase, or gives the
/// first point that overflows. The rows before it are set.
fn fill_row<M: Meanings, F: Answering<M>>(
    old: &OldNumbers,
    phase: &Phase,
    extents: Extents,
    k: u32,
    j: u32,
    scratch: &mut [i32],
    hooks: &HookTable<M, F>,
) -> Option<Here>
    requires runnable { IsRunnable old.now.plan.now old.now.number phase.now }
    requires calls { All (IsAccepted M.accepts) (parts_of phase.now.expr).calls }
    requires extents { AreExtents old.now.plan.now old.now.number phase.now.writes extents }
    requires in_z { (1 ≤ k) × (k ≤ nz old.now.plan.now phase.now.writes) }
    requires in_y { (1 ≤ j) × (j ≤ ny old.now.plan.now old.now.number phase.now.writes) }
    requires size { IsLevelLong old.now.plan.now old.now.number phase.now.writes
        (length scratch.old) }
    requires filled { AreFilledTo old.now.plan.now M.answer old.now.number old.now.levels.now
        old.now.step phase.now k j scratch.old }
    ensures size { IsLevelLong old.now.plan.now old.now.number phase.now.writes
        (length scratch.new) }
    ensures filled { result ≡ None → AreFilledTo old.now.plan.now M.answer old.now.number
        old.now.levels.now old.now.step phase.now k (j + 1) scratch.new }
    ensures stopped { IfSome result (λ here. StopsAt old.now.plan.now M.answer old.now.number
        old.now.levels.now old.now.step phase.now (spot_of phase.now.writes here)) }
{
    let span = span_of(old, phase, extents, k, j);
    let start = place(extents, Here { k, j, i: 1 }, scratch.len());
    for x in 0..extents.columns {
        let here = Here { k, j, i: x + 1 };
        match number_after(&Surroundings { old: &*old, here }, phase, span, hooks) {
            Some(value) => scratch[start + x as usize] = value,
            None => return Some(here),
        }
    }
    None
}

/// Sets the rows of a level in z of the scratch, as `fill_row` does.
fn fill_plane<M: Meanings, F: Answering<M>>(
    old: &OldNumbers,
    phase: &Phase,
    extents: Extents,
    k: u32,
    scratch: &mut [i32],
    hooks: &HookTable<M, F>,
) -> Option<Here>
    requires runnable { IsRunnable old.now.plan.now old.now.number phase.now }
    requires calls { All (IsAccepted M.accepts) (parts_of phase.now.expr).calls }
    requires extents { AreExtents old.now.plan.now old.now.number phase.now.writes extents }
    requires in_z { (1 ≤ k) × (k ≤ nz old.now.plan.now phase.now.writes) }
    requires size { IsLevelLong old.now.plan.now old.now.number phase.now.writes
        (length scratch.old) }
    requires filled { AreFilledTo old.now.plan.now M.answer old.now.number old.now.levels.now
        old.now.step phase.now k 1 scratch.old }
    ensures size { IsLevelLong old.now.plan.now old.now.number phase.now.writes
        (length scratch.new) }
    ensures filled { result ≡ None → AreFilledTo old.now.plan.now M.answer old.now.number
        old.now.levels.now old.now.step phase.now (k + 1) 1 scratch.new }
    ensures stopped { IfSome result (λ here. StopsAt old.now.plan.now M.answer old.now.number
        old.now.levels.now old.now.step phase.now (spot_of phase.now.writes here)) }
{
    for y in 0..extents.rows {
        if let Some(here) = fill_row(old, phase, extents, k, y + 1, scratch, hooks) {
            return Some(here);
        }
    }
    None
}

/// Sets the scratch to the numbers that the written level has after a phase, or gives the first
/// point that overflows.
fn fill<M: Meanings, F: Answering<M>>(
    plan: &Plan,
    number: u32,
    levels: &[List<i32>],
    phase: &Phase,
    step: u64,
    scratch: &mut [i32],
    hooks: &HookTable<M, F>,
) -> Option<Here>
    requires lists { AreLists plan.now number levels.now }
    requires runnable { IsRunnable plan.now number phase.now }
    requires calls { All (IsAccepted M.accepts) (parts_of phase.now.expr).calls }
    requires fields { length plan.now.fields ≤ 64 }
    requires size { length scratch.old ≡ nz plan.now phase.now.writes
        * (ny plan.now number phase.now.writes * nx plan.now number phase.now.writes) }
    ensures length { length scratch.new ≡ nz plan.now phase.now.writes
        * (ny plan.now number phase.now.writes * nx plan.now number phase.now.writes) }
    ensures done { result ≡ None → IsFilled plan.now M.answer number levels.now step phase.now
        (length scratch.new) scratch.new }
    ensures stopped { IfSome result (λ here. StopsAt plan.now M.answer number levels.now step
        phase.now (spot_of phase.now.writes here)) }
{
    let extents = domain(plan, number).extents(level(plan, phase.writes));
    let old = OldNumbers {
        plan,
        number,
        sizes: all_sizes(plan, number),
        levels,
        step,
    };
    for z in 0..extents.levels {
        if let Some(here) = fill_plane(&old, phase, extents, z + 1, scratch, hooks) {
            return Some(here);
        }
    }
    None
}

/// Sets the list of a level.
fn commit(levels: &mut [List<i32>], field: u32, numbers: &[i32])
    requires level { field < length levels.old }
    requires size { length (slice_index_or levels.old field no_list) ≡ length numbers.now }
    ensures { levels.new ≡ slice_set levels.old field numbers.now }
{
    levels[field as usize]
        .as_mut_slice()
        .copy_from_slice(numbers);
}

/// Sets the region of a phase, or gives the first point that overflows and sets nothing.
pub fn run_phase<M: Meanings, F: Answering<M>>(
    plan: &Plan,
    number: u32,
    levels: &mut [List<i32>],
    phase: &Phase,
    step: u64,
    scratch: &mut [i32],
    hooks: &HookTable<M, F>,
) -> Option<Here>
    requires lists { AreLists plan.now number levels.old }
    requires runnable { IsRunnable plan.now number phase.now }
    requires calls { All (IsAccepted M.accepts) (parts_of phase.now.expr).calls }
    requires fields { length plan.now.fields ≤ 64 }
    requires size { length (slice_index_or levels.old phase.now.writes no_list)
        ≤ length scratch.old }
    ensures point { option_map (spot_of phase.now.writes) result
        ≡ overflow_in plan.now (phase_change plan.now M.answer
        (grids_of plan.now number levels.old) number step phase.now) }
    ensures lists { levels.new ≡ (if is_none result then lists_of plan.now number (changed
        (phase_change plan.now M.answer (grids_of plan.now number levels.old) number step phase.now)
        (grids_of plan.now number levels.old)) else levels.old) }
{
    let count = levels[phase.writes as usize].as_slice().len();
    let scratch = &mut scratch[..count];
    let overflow = fill(plan, number, levels, phase, step, scratch, hooks);
    if overflow.is_none() {
        commit(levels, phase.writes, scratch);
    }
    overflow
}
