//! Items: a name, `=` and values.

ghost use Rattle.std.specs.Prelude.{◌≡◌, [], IfOk, IsTrue, Some, drop, false};
ghost use Rattle.wf_model.specs.Letters.{is_name, lower};
ghost use Rattle.wf_model.specs.Namelist.{item_name, item_word, some_value, values};
ghost use Rattle.wf_model.specs.Reading.{Gives};
ghost use Rattle.wf_namelist.specs.NamelistError.{fault_of};
ghost use Rattle.wf_namelist.specs.Turns.{is_behind_value, item_at, seen, turn_at};

use crate::error::NamelistError;
use crate::reading::{
    after, is_apart, is_comma, is_equals, is_outside, is_parenthesis, is_slash, refused, sort_at,
};
use crate::values::{Values, values_here};
use std::alloc::{AllocError, Global};
use wf_model::{List, Name, NamelistKind, NamelistToken, Sort, Value};
use wf_text::lower;

/// Group, name and values.
pub(crate) type Item = (Name, Name, List<Value>);

/// What stands at a place of an item's values.
#[derive(Drop)]
enum Turn {
    /// The end of the values: `/`, or the name of the next item.
    Ends,
    Comma,
    /// Values, and the place behind them.
    Found(Vec<Value>, usize),
}

/// A name in lower case.
#[tactic(auto, using(crate::proofs::Names::is_name_lower))]
fn name_of(alloc: Global, word: &[u8]) -> Result<Name, AllocError>
    requires { IsTrue (is_name word.now) }
    ensures { IfOk result (λ n. n ≡ lower word.now) }
{
    Ok(Name::from_vec(lower(alloc, word)?))
}

/// The name that a word is, where `=` stands behind it. A `(` at once behind it is a subscript.
fn item_word(
    alloc: Global,
    word: &[u8],
    tokens: &[NamelistToken],
    at: usize,
) -> Result<Option<Name>, NamelistError>
    ensures { Gives (λ n. n) fault_of result (item_word (Some word.now) (drop at tokens.now)) }
{
    if !Name::is_name(word) {
        return Ok(None);
    }
    let next = after(tokens, at);
    if is_parenthesis(tokens, next) && !is_apart(tokens, next) {
        return Err(refused(tokens, at, NamelistKind::Subscript));
    }
    if is_equals(tokens, next) {
        Ok(Some(name_of(alloc, word)?))
    } else {
        Ok(None)
    }
}

/// The name of the item that begins here, if one does.
fn item_name(
    alloc: Global,
    tokens: &[NamelistToken],
    at: usize,
) -> Result<Option<Name>, NamelistError>
    ensures { Gives (λ n. n) fault_of result (item_name (drop at tokens.now)) }
{
    match sort_at(tokens, at) {
        Some(Sort::Word(word)) => item_word(alloc, word.as_slice(), tokens, at),
        _ => Ok(None),
    }
}

/// Whether a value stands last among what was read of an item.
fn is_behind_value(values: &[Value], after_comma: bool) -> bool
    ensures { result ≡ is_behind_value values.now after_comma }
{
    !after_comma && !values.is_empty()
}

/// What stands at a place of an item's values, where a comma may stand only behind a value.
fn turn_at(
    alloc: Global,
    tokens: &[NamelistToken],
    at: usize,
    behind_value: bool,
) -> Result<Turn, NamelistError>
    ensures { Gives (seen tokens.now) fault_of result (turn_at behind_value (drop at tokens.now)) }
{
    if is_outside(tokens, at) {
        return Err(refused(tokens, at, NamelistKind::UnclosedGroup));
    }
    if is_slash(tokens, at) {
        return Ok(Turn::Ends);
    }
    let name = item_name(alloc, tokens, at)?;
    if name.is_some() {
        return Ok(Turn::Ends);
    }
    if !is_comma(tokens, at) {
        let (values, next) = values_here(alloc, tokens, at)?;
        return Ok(Turn::Found(values, next));
    }
    if behind_value {
        Ok(Turn::Comma)
    } else {
        Err(refused(tokens, at, NamelistKind::NullValue))
    }
}

/// The values of an item up to a place; there is no item without a value.
fn some_values(
    values: Vec<Value>,
    tokens: &[NamelistToken],
    at: usize,
) -> Result<Values, NamelistError>
    ensures { Gives (λ r. (r.0.items, drop r.1 tokens.now)) fault_of result
        (some_value values.items (drop at tokens.now)) }
{
    if values.is_empty() {
        Err(refused(tokens, at, NamelistKind::NullValue))
    } else {
        Ok((values, at))
    }
}

/// The values of an item from a place on, of which at most so many tokens follow.
fn values(
    alloc: Global,
    tokens: &[NamelistToken],
    first: usize,
    most: usize,
) -> Result<Values, NamelistError>
    ensures { Gives (λ r. (r.0.items, drop r.1 tokens.now)) fault_of result
        (values most [] false (drop first tokens.now)) }
{
    let mut values = Vec::new(alloc);
    let mut after_comma = false;
    let mut at = first;
    for _ in 0..most {
        let behind_value = is_behind_value(&values, after_comma);
        match turn_at(alloc, tokens, at, behind_value)? {
            Turn::Ends => return some_values(values, tokens, at),
            Turn::Comma => {
                after_comma = true;
                at = after(tokens, at);
            }
            Turn::Found(mut more, next) => {
                values.append(&mut more)?;
                after_comma = false;
                at = next;
            }
        }
    }
    some_values(values, tokens, at)
}

/// The item that begins here, and the place behind it.
pub(crate) fn item_at(
    alloc: Global,
    group: &Name,
    tokens: &[NamelistToken],
    at: usize,
) -> Result<(Item, usize), NamelistError>
    ensures { Gives (λ r. (r.0, drop r.1 tokens.now)) fault_of result
        (item_at group.now (drop at tokens.now)) }
{
    let Some(name) = item_name(alloc, tokens, at)? else {
        return Err(refused(tokens, at, NamelistKind::BadValue));
    };
    let first = after(tokens, after(tokens, at));
    let most = tokens.len().saturating_sub(at);
    let (values, next) = values(alloc, tokens, first, most)?;
    let group = group.copy(alloc)?;
    Ok(((group, name, List::from_vec(values)), next))
}
