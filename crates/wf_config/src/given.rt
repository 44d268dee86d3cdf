//! The items of groups of which some name is known, and the values that they give.

ghost use Rattle.std.specs.Prelude.{◌≡◌, ◌∷◌, [], IfOk, codes, filter, int_le, map, pos};
ghost use Rattle.std.specs.Prelude.{unsigned_abs, if◌then◌else◌};
ghost use Rattle.std.specs.List.{list_any};
ghost use Rattle.wf_model.specs.BuiltIns.{in_domains};
ghost use Rattle.wf_model.specs.ValueForms.{fits_bits};
ghost use Rattle.wf_model.specs.Config.{default_max_dom, first_int, given, if_in_i32, max_dom};
ghost use Rattle.wf_model.specs.Config.{rule_named};
ghost use Rattle.wf_config.specs.Rules.{default_in, has_group, knows_group, rule_of};

use crate::rule::{DefaultValue, Rule, rule_named};
use std::alloc::{AllocError, Global};
use wf_model::{List, Name, Value};

/// Group, name and values of an item of a namelist.
pub(crate) type Item = (Name, Name, List<Value>);

fn has_group(rules: &[Rule], group: &[u8]) -> bool
    ensures { result ≡ list_any (has_group group.now) rules.now }
{
    rules.iter().any(|rule| rule.group.as_slice() == group)
}

/// Whether some name of the group has a rule.
fn is_known_group(rules: &[Rule], group: &[u8]) -> bool
    ensures { result ≡ knows_group (map rule_of rules.now) group.now }
{
    has_group(rules, group)
}

/// The items of groups of which some name has a rule.
pub(crate) fn known_items<'a>(
    alloc: Global,
    rules: &[Rule],
    items: &'a [Item],
) -> Result<Vec<&'a Item>, AllocError>
    ensures { IfOk result (λ v. map (λ i. i.now) v.items
        ≡ filter (λ i. knows_group (map rule_of rules.now) i.0) items.now) }
{
    items
        .iter()
        .filter(|item| is_known_group(rules, item.0.as_slice()))
        .collect(alloc)
}

/// The values that a name of a group is given.
pub(crate) fn given<'a>(items: &[&'a Item], group: &[u8], name: &[u8]) -> &'a [Value]
    ensures { result.now ≡ given (map (λ i. i.now) items.now) group.now name.now }
{
    for item in items {
        if item.0.as_slice() == group && item.1.as_slice() == name {
            return item.2.as_slice();
        }
    }
    &[]
}

/// The first value, if it is a whole number.
pub(crate) fn first_int(values: &[Value]) -> Option<i128>
    ensures { result ≡ first_int values.now }
{
    match values {
        [Value::Int(number), ..] => Some(*number),
        _ => None,
    }
}

/// Whether 32 bits hold the number.
pub(crate) fn is_in_32(number: i128) -> bool
    ensures { result ≡ fits_bits 32 number }
{
    i32::try_from(number).is_ok()
}

/// Domain 1's default, if it is a whole number.
fn int_default(default: &DefaultValue) -> Option<i128>
    ensures { result ≡ first_int (default_in default.now 1 ∷ []) }
{
    match default {
        DefaultValue::Always(Value::Int(number)) => Some(*number),
        _ => None,
    }
}

fn default_max_dom(rules: &[Rule]) -> Option<i128>
    ensures { result
        ≡ first_int (default_max_dom (rule_named (map rule_of rules.now) (codes "max_dom"))) }
{
    match rule_named(rules, b"max_dom".as_slice()) {
        Some(rule) => int_default(&rule.default),
        None => None,
    }
}

fn given_max_dom(items: &[&Item]) -> Option<i128>
    ensures { result
        ≡ if_in_i32 (first_int (given (map (λ i. i.now) items.now) in_domains (codes "max_dom"))) }
{
    match first_int(given(items, b"domains".as_slice(), b"max_dom".as_slice())) {
        Some(number) if is_in_32(number) => Some(number),
        _ => None,
    }
}

/// How many domains the namelist asks for, or else the default says.
pub(crate) fn max_dom(rules: &[Rule], items: &[&Item]) -> i128
    ensures { result ≡ max_dom (map rule_of rules.now) (map (λ i. i.now) items.now) }
{
    match given_max_dom(items) {
        Some(number) => number,
        None => default_max_dom(rules).unwrap_or(1),
    }
}

/// A number of domains; one below 1 counts as none.
pub(crate) fn domain_count(max_dom: i128) -> u128
    ensures { result ≡ (if int_le (pos 0) max_dom then unsigned_abs max_dom else 0) }
{
    if 0 <= max_dom {
        max_dom.unsigned_abs()
    } else {
        0
    }
}
