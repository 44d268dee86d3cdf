//! Groups: `&` and a name, items, and `/`.

ghost use Rattle.std.specs.Prelude.{IsTrue, drop, length, option_map};
ghost use Rattle.std.specs.List.{list_all};
ghost use Rattle.wf_model.specs.Letters.{is_name};
ghost use Rattle.wf_model.specs.Namelist.{group_items, groups, rest};
ghost use Rattle.wf_model.specs.Reading.{Gives};
ghost use Rattle.wf_namelist.specs.Groups.{group_at, is_named};
ghost use Rattle.wf_namelist.specs.NamelistError.{fault_of};

use crate::error::NamelistError;
use crate::item::{Item, item_at};
use crate::reading::{after, is_outside, is_slash, refused, sort_at};
use std::alloc::Global;
use wf_model::{Name, NamelistKind, NamelistToken, Sort};

/// Items, and the place of the token behind them.
type Items = (Vec<Item>, usize);

/// The items of a group up to its `/`, of which at most so many tokens follow.
fn group_items(
    alloc: Global,
    group: &Name,
    tokens: &[NamelistToken],
    first: usize,
    most: usize,
) -> Result<Items, NamelistError>
    ensures { Gives (λ r. (r.0.items, drop r.1 tokens.now)) fault_of result
        (group_items most group.now (drop first tokens.now)) }
{
    let mut items = Vec::new(alloc);
    let mut at = first;
    for _ in 0..most {
        if is_outside(tokens, at) {
            return Err(refused(tokens, at, NamelistKind::UnclosedGroup));
        }
        if is_slash(tokens, at) {
            return Ok((items, after(tokens, at)));
        }
        let (item, next) = item_at(alloc, group, tokens, at)?;
        items.push(item)?;
        at = next;
    }
    Err(refused(tokens, at, NamelistKind::UnclosedGroup))
}

/// The group of this name, and the place behind it.
fn named_group(
    alloc: Global,
    name: &[u8],
    tokens: &[NamelistToken],
    at: usize,
) -> Result<Items, NamelistError>
    requires { IsTrue (is_name name.now) }
    ensures { Gives (λ r. (r.0.items, drop r.1 tokens.now)) fault_of result
        (group_items (length (drop at tokens.now)) name.now (rest (drop at tokens.now))) }
{
    let group = Name::from_vec(Vec::from_slice(alloc, name)?);
    let most = tokens.len().saturating_sub(at);
    group_items(alloc, &group, tokens, after(tokens, at), most)
}

/// The items of the group that begins here, and the place behind it; none where no group begins.
fn group_at(
    alloc: Global,
    tokens: &[NamelistToken],
    at: usize,
) -> Result<Option<Items>, NamelistError>
    requires { IsTrue (list_all is_named tokens.now) }
    ensures { Gives (option_map (λ r. (r.0.items, drop r.1 tokens.now))) fault_of result
        (group_at (drop at tokens.now)) }
{
    match sort_at(tokens, at) {
        Some(Sort::GroupBegins(name)) => {
            Ok(Some(named_group(alloc, name.as_slice(), tokens, at)?))
        }
        Some(Sort::NoName) => Err(refused(tokens, at, NamelistKind::NoGroup)),
        _ => Ok(None),
    }
}

/// The items of all groups.
pub(crate) fn groups(alloc: Global, tokens: &[NamelistToken]) -> Result<Vec<Item>, NamelistError>
    requires { IsTrue (list_all is_named tokens.now) }
    ensures { Gives (λ v. v.items) fault_of result (groups (length tokens.now) tokens.now) }
{
    let mut items = Vec::new(alloc);
    let mut at = 0;
    for _ in 0..tokens.len() {
        match group_at(alloc, tokens, at)? {
            None => return Ok(items),
            Some((mut more, next)) => {
                items.append(&mut more)?;
                at = next;
            }
        }
    }
    Ok(items)
}
