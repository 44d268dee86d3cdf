//! The values of each name: those that it is given, and those that domains have without.

ghost use Rattle.std.specs.Prelude.{◌≡◌, ◌++◌, ◌&&◌, IfOk, codes, map};
ghost use Rattle.wf_model.specs.BuiltIns.{built_ins};
ghost use Rattle.wf_model.specs.Config.{filled, is_start_name, missing_value, missing_values};
ghost use Rattle.wf_config.specs.Rules.{default_in, rule_of, wanted};

use crate::copies::copy_values;
use crate::given::{Item, given};
use crate::rule::{DefaultValue, Rule, is_named};
use std::alloc::{AllocError, Global};
use wf_model::{List, Name, Value};

/// A name and its values.
pub(crate) type NameValues = (Name, List<Value>);

/// Whether the name is one of a start's date and time.
pub(crate) fn is_start_name(table: &[Rule], name: &[u8]) -> bool
    requires { map rule_of table.now ≡ built_ins }
    ensures { result ≡ is_start_name name.now }
{
    is_named(table, name) && name.starts_with(b"start_".as_slice())
}

/// How many values a name has at least, where there are so many domains.
pub(crate) fn wanted(domains: u128, rule: &Rule) -> u128
    ensures { result ≡ wanted domains (rule_of rule.now) }
{
    if rule.each { domains } else { 1 }
}

fn default_at(alloc: Global, default: &DefaultValue, domain: u128) -> Result<Value, AllocError>
    ensures { IfOk result (λ v. v ≡ default_in default.now domain) }
{
    match default {
        DefaultValue::FirstDomainOnly => Ok(Value::Logical(domain == 1)),
        DefaultValue::Always(value) => value.copy(alloc),
    }
}

/// The value of a domain that is given none, where its name has these values.
fn missing_value(
    alloc: Global,
    table: &[Rule],
    rule: &Rule,
    given: &[Value],
    domain: u128,
) -> Result<Value, AllocError>
    requires { map rule_of table.now ≡ built_ins }
    ensures { IfOk result (λ v. v ≡ missing_value (rule_of rule.now) given.now domain) }
{
    match given {
        [first, ..] if rule.each && is_start_name(table, rule.name.as_slice()) => {
            first.copy(alloc)
        }
        _ => default_at(alloc, &rule.default, domain),
    }
}

/// The values that a name is given, and behind them those that domains have without.
fn filled_values(
    alloc: Global,
    table: &[Rule],
    domains: u128,
    rule: &Rule,
    given: &[Value],
) -> Result<Vec<Value>, AllocError>
    requires { map rule_of table.now ≡ built_ins }
    ensures { IfOk result
        (λ v. v.items ≡ given.now ++ missing_values domains (rule_of rule.now) given.now) }
{
    let missing = wanted(domains, rule).saturating_sub(given.len() as u128);
    let Ok(missing) = u64::try_from(missing) else {
        return Err(AllocError);
    };
    let mut values = copy_values(alloc, given)?;
    for k in 0..missing {
        let domain = given.len() as u128 + 1 + u128::from(k);
        values.push(missing_value(alloc, table, rule, given, domain)?)?;
    }
    Ok(values)
}

fn filled(
    alloc: Global,
    table: &[Rule],
    domains: u128,
    items: &[&Item],
    rule: &Rule,
) -> Result<NameValues, AllocError>
    requires { map rule_of table.now ≡ built_ins }
    ensures { IfOk result
        (λ v. v ≡ filled domains (map (λ i. i.now) items.now) (rule_of rule.now)) }
{
    let given = given(items, rule.group.as_slice(), rule.name.as_slice());
    let values = filled_values(alloc, table, domains, rule, given)?;
    Ok((rule.name.copy(alloc)?, List::from_vec(values)))
}

/// The values of each name, where there are so many domains.
pub(crate) fn values(
    alloc: Global,
    table: &[Rule],
    domains: u128,
    items: &[&Item],
    rules: &[Rule],
) -> Result<Vec<NameValues>, AllocError>
    requires { map rule_of table.now ≡ built_ins }
    ensures { IfOk result (λ v.
        v.items ≡ map (λ r. filled domains (map (λ i. i.now) items.now) (rule_of r)) rules.now) }
{
    let mut values = Vec::new(alloc);
    for rule in rules {
        values.push(filled(alloc, table, domains, items, rule)?)?;
    }
    Ok(values)
}
