//! The items of the table, one a line.

ghost use Rattle.std.specs.Prelude.{◌≡◌, IfOk};
ghost use Rattle.std.specs.List.{list_any};
ghost use Rattle.wf_model.specs.Letters.{is_among, lower};
ghost use Rattle.wf_model.specs.Reading.{Gives};
ghost use Rattle.wf_model.specs.Table.{exchange, extend, item_of_text, item_reader, levels};
ghost use Rattle.wf_model.specs.Table.{margins, phase_name, phase_names, swap, taken_phases};
ghost use Rattle.wf_model.specs.declared.plan.Item.TheVariants as items;
ghost use Rattle.wf_table.specs.Faults.{kind_of};
ghost use Rattle.wf_table.specs.Items.{extent_of, is_named, phase_at, target_of};
ghost use Rattle.wf_table.specs.Place.{at_of};

use crate::error::LineError;
use crate::expression::whole_expression;
use crate::names::{entry_named, field_name, field_named, level};
use crate::place::{Place, is_word};
use crate::tokens::tokens_of;
use std::alloc::{AllocError, Global};
use wf_model::limits::EXTEND;
use wf_model::{Item, List, Name, Names, Phase, TableKind};
use wf_text::lower;

/// The greatest margin.
const MOST_MARGIN: u64 = 1_000_000;

/// The greatest level.
const MOST_LEVEL: u64 = 128;

fn copied<T: Copy>(alloc: Global, parts: &[T]) -> Result<List<T>, AllocError>
    ensures { IfOk result (λ l. l ≡ parts.now) }
{
    Ok(List::from_vec(Vec::from_slice(alloc, parts)?))
}

/// `halo` and its name.
fn halo<'a>(alloc: Global, names: &Names, at: Place<'a>) -> Result<(Item, Place<'a>), LineError>
    ensures { Gives (λ x. (x.0, at_of x.1)) kind_of result
        (exchange names.now.halos items.Halo (at_of at.entry)) }
{
    let at = at.past();
    let name = at.name()?;
    match entry_named(names.halos.as_slice(), name) {
        Some(entry) => {
            let parts = copied(alloc, entry.1.as_slice())?;
            Ok((Item::Halo(parts), at.past()))
        }
        None => Err(LineError::Kind(TableKind::UnknownName)),
    }
}

/// `period` and its name.
fn period<'a>(alloc: Global, names: &Names, at: Place<'a>) -> Result<(Item, Place<'a>), LineError>
    ensures { Gives (λ x. (x.0, at_of x.1)) kind_of result
        (exchange names.now.periods items.Period (at_of at.entry)) }
{
    let at = at.past();
    let name = at.name()?;
    match entry_named(names.periods.as_slice(), name) {
        Some(entry) => {
            let parts = copied(alloc, entry.1.as_slice())?;
            Ok((Item::Period(parts), at.past()))
        }
        None => Err(LineError::Kind(TableKind::UnknownName)),
    }
}

/// `swap` and a field of two levels.
fn swap<'a>(names: &Names, at: Place<'a>) -> Result<(Item, Place<'a>), LineError>
    ensures { Gives (λ x. (x.0, at_of x.1)) kind_of result (swap names.now (at_of at.entry)) }
{
    let at = at.past();
    let name = field_name(at)?;
    match field_named(names, name) {
        Some(field) => {
            if field.1 == field.2 {
                return Err(LineError::Kind(TableKind::NotTwoLevels));
            }
            Ok((Item::Swap(field.1, field.2), at.past()))
        }
        None => Err(LineError::Kind(TableKind::UnknownField)),
    }
}

/// Whether a run's script takes the word for itself.
fn is_taken(word: &[u8]) -> bool
    ensures { result ≡ is_among (lower word.now) taken_phases }
{
    is_word(word, b"start")
        || is_word(word, b"force")
        || is_word(word, b"feedback")
        || is_word(word, b"bdy")
}

fn is_phase_named(item: &Item, word: &[u8]) -> bool
    ensures { result ≡ is_named (lower word.now) item.now }
{
    match item {
        Item::Phase(phase) => is_word(word, phase.name.as_slice()),
        _ => false,
    }
}

/// Whether one of the items is a phase of this name.
fn has_phase_named(items: &[Item], word: &[u8]) -> bool
    ensures { result ≡ list_any (is_named (lower word.now)) items.now }
{
    items.iter().any(|item| is_phase_named(item, word))
}

/// Whether a phase before has this name.
fn is_repeated(before: &[Item], word: &[u8]) -> bool
    ensures { result ≡ is_among (lower word.now) (phase_names before.now) }
{
    has_phase_named(before, word)
}

/// The name of a phase, which no phase before has.
#[tactic(auto, using(crate::proofs::Letters::is_name_lower))]
fn phase_name<'a>(
    alloc: Global,
    before: &[Item],
    at: Place<'a>,
) -> Result<(Name, Place<'a>), LineError>
    ensures { Gives (λ x. (x.0, at_of x.1)) kind_of result
        (phase_name before.now (at_of at.entry)) }
{
    let word = at.name()?;
    if is_taken(word) {
        return Err(at.refusal());
    }
    if is_repeated(before, word) {
        return Err(LineError::Kind(TableKind::RepeatedPhase));
    }
    let name = Name::from_vec(lower(alloc, word)?);
    Ok((name, at.past()))
}

/// The phase's name and the level that it writes.
#[tactic(auto, unfolding(crate::specs::Items::target_of))]
fn target<'a>(
    alloc: Global,
    names: &Names,
    before: &[Item],
    at: Place<'a>,
) -> Result<((Name, u32), Place<'a>), LineError>
    ensures { Gives (λ x. (x.0, at_of x.1)) kind_of result
        (target_of names.now before.now (at_of at.entry)) }
{
    let (name, at) = phase_name(alloc, before, at)?;
    let at = at.expect(b"writes")?;
    let (writes, end) = level(names, at)?;
    Ok(((name, writes), end))
}

/// Which points and levels a phase computes.
#[derive(Clone, Copy)]
struct Extent {
    mx: u32,
    my: u32,
    from: u32,
    to: u32,
    extend: u32,
}

/// The margins in x and y; where there are none, 0 and 0.
fn margins<'a>(at: Place<'a>) -> Result<((u32, u32), Place<'a>), LineError>
    ensures { Gives (λ x. (x.0, at_of x.1)) kind_of result (margins (at_of at.entry)) }
{
    if !at.is_next(b"margin") {
        return Ok(((0, 0), at));
    }
    let (mx, at) = at.past().number(0, MOST_MARGIN)?;
    let (my, end) = at.number(0, MOST_MARGIN)?;
    Ok(((mx as u32, my as u32), end))
}

/// The first and the last level; where there are none, 0 and 0.
fn levels<'a>(at: Place<'a>) -> Result<((u32, u32), Place<'a>), LineError>
    ensures { Gives (λ x. (x.0, at_of x.1)) kind_of result (levels (at_of at.entry)) }
{
    if !at.is_next(b"levels") {
        return Ok(((0, 0), at));
    }
    let (from, at) = at.past().number(1, MOST_LEVEL)?;
    let (to, end) = at.number(from, MOST_LEVEL)?;
    Ok(((from as u32, to as u32), end))
}

/// How many cells around its own a patch computes, or 0.
fn extend<'a>(at: Place<'a>) -> Result<(u32, Place<'a>), LineError>
    ensures { Gives (λ x. (x.0, at_of x.1)) kind_of result (extend (at_of at.entry)) }
{
    if !at.is_next(b"extend") {
        return Ok((0, at));
    }
    let (extend, end) = at.past().number(0, EXTEND)?;
    Ok((extend as u32, end))
}

/// The margins, the levels and the extend, and the `=` behind them.
#[tactic(auto, unfolding(crate::specs::Items::extent_of))]
fn phase_extent<'a>(at: Place<'a>) -> Result<(Extent, Place<'a>), LineError>
    ensures { Gives (λ x. (x.0, at_of x.1)) kind_of result (extent_of (at_of at.entry)) }
{
    let ((mx, my), at) = margins(at)?;
    let ((from, to), at) = levels(at)?;
    let (extend, at) = extend(at)?;
    let end = at.expect(b"=")?;
    let extent = Extent {
        mx,
        my,
        from,
        to,
        extend,
    };
    Ok((extent, end))
}

/// `phase`, its name, what it writes, where, and by which expression.
#[tactic(auto, unfolding(crate::specs::Items::phase_at))]
fn phase<'a>(
    alloc: Global,
    names: &Names,
    before: &[Item],
    at: Place<'a>,
) -> Result<(Item, Place<'a>), LineError>
    ensures { Gives (λ x. (x.0, at_of x.1)) kind_of result
        (phase_at names.now before.now (at_of at.entry)) }
{
    let ((name, writes), at) = target(alloc, names, before, at.past())?;
    let (extent, at) = phase_extent(at)?;
    let (tree, end) = whole_expression(alloc, names, at)?;
    let phase = Phase {
        name,
        writes,
        mx: extent.mx,
        my: extent.my,
        from: extent.from,
        to: extent.to,
        extend: extent.extend,
        expr: tree.expr,
    };
    Ok((Item::Phase(phase), end))
}

/// An item, by its first word.
fn item<'a>(
    alloc: Global,
    names: &Names,
    before: &[Item],
    at: Place<'a>,
) -> Result<(Item, Place<'a>), LineError>
    ensures { Gives (λ x. (x.0, at_of x.1)) kind_of result
        (item_reader names.now before.now (at_of at.entry)) }
{
    if at.is_next(b"halo") {
        return halo(alloc, names, at);
    }
    if at.is_next(b"period") {
        return period(alloc, names, at);
    }
    if at.is_next(b"swap") {
        return swap(names, at);
    }
    if at.is_next(b"phase") {
        return phase(alloc, names, before, at);
    }
    Err(at.refusal())
}

/// The item of a line's text, with nothing after it.
pub(crate) fn item_of_text(
    alloc: Global,
    names: &Names,
    before: &[Item],
    text: &[u8],
) -> Result<Item, LineError>
    ensures { Gives (λ r. r) kind_of result (item_of_text names.now before.now text.now) }
{
    let tokens = tokens_of(alloc, text)?;
    let start = Place {
        tokens: tokens.as_slice(),
        nodes: 0,
    };
    let (item, end) = item(alloc, names, before, start)?;
    if end.text().is_empty() {
        Ok(item)
    } else {
        Err(end.refusal())
    }
}
