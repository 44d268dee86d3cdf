//! What is wrong in declarations, in items, in defaults and in fields, each in order; none where
//! nothing is.

ghost use Rattle.std.specs.Prelude.{◌≡◌, ◌≤◌, IfOk, Some, ℕ, length, map, pos, int_le, not, ◌||◌};
ghost use Rattle.std.specs.List.{enumerate_from, list_all, list_any};
ghost use Rattle.std.specs.Option.{option_copied, option_map};
ghost use Rattle.wf_model.specs.BuiltIns.{built_ins};
ghost use Rattle.wf_model.specs.declared.config.ConfigFault.TheVariants.{UnknownItem};
ghost use Rattle.wf_model.specs.Reading.{first_fault};
ghost use Rattle.wf_model.specs.Config.{default_fault, float_fault, is_of, item_fault};
ghost use Rattle.wf_model.specs.Config.{missing_value, out_of_range, range_fault, rule_fault};
ghost use Rattle.wf_config.specs.Rules.{contradicts, judged_fault, known_fault, rule_of};
ghost use Rattle.wf_config.specs.Rules.{type_of_kind, wanted, wrong_rule_in};

use crate::given::{Item, given, is_in_32};
use crate::rule::{DefaultValue, Rule, ValueKind, rule_named};
use crate::values::{is_start_name, wanted};
use std::alloc::{AllocError, Global};
use wf_model::{Bytes, ConfigFault, Entry, Value};

/// A fault, or none; or want of memory.
type Found = Result<Option<ConfigFault>, AllocError>;

// ---- declarations

fn contradiction(table: &[Rule], rule: &Rule) -> bool
    ensures { result ≡ list_any (λ b. contradicts (rule_of rule.now) (rule_of b)) table.now }
{
    table.iter().any(|b| {
        b.name.as_slice() == rule.name.as_slice()
            && !(b.group.as_slice() == rule.group.as_slice() && b.kind.is_same(rule.kind))
    })
}

/// Whether a rule of the same name has another group or type.
fn is_contradicted(table: &[Rule], rule: &Rule) -> bool
    ensures { result ≡ list_any (contradicts (rule_of rule.now)) (map rule_of table.now) }
{
    contradiction(table, rule)
}

fn wrong_rule(alloc: Global, table: &[Rule], rule: &Rule) -> Found
    ensures { IfOk result (λ f. f ≡ wrong_rule_in (map rule_of table.now) (rule_of rule.now)) }
{
    if !is_contradicted(table, rule) {
        return Ok(None);
    }
    let name = Bytes::copy_of(alloc, rule.name.as_slice())?;
    Ok(Some(ConfigFault::WrongType { name }))
}

/// The first built-in name that the Registry declares with another group or type.
pub(crate) fn declarations_fault(alloc: Global, table: &[Rule], declared: &[Rule]) -> Found
    ensures { IfOk result (λ f. f
        ≡ first_fault (map (λ r. wrong_rule_in (map rule_of table.now) (rule_of r)) declared.now)) }
{
    for rule in declared {
        let fault = wrong_rule(alloc, table, rule)?;
        if fault.is_some() {
            return Ok(fault);
        }
    }
    Ok(None)
}

// ---- values

/// A whole number that doesn't fit, or that its name doesn't allow.
fn out_of_range(alloc: Global, rule: &Rule, value: &Value) -> Found
    ensures { IfOk result (λ f. f ≡ out_of_range (rule_of rule.now) value.now) }
{
    let Value::Int(number) = value else {
        return Ok(None);
    };
    if !rule.kind.is_same(ValueKind::Integer) || (is_in_32(*number) && rule.range.allows(*number)) {
        return Ok(None);
    }
    let name = Bytes::copy_of(alloc, rule.name.as_slice())?;
    Ok(Some(ConfigFault::OutOfRange {
        name,
        value: *number,
    }))
}

/// The same of the value with this number, from 1; of a name with a value for each domain, those
/// past the last domain aren't judged.
fn judged_fault(alloc: Global, domains: i128, rule: &Rule, number: usize, value: &Value) -> Found
    ensures { IfOk result (λ f. f ≡ judged_fault domains (rule_of rule.now) (number, value.now)) }
{
    if !rule.each || number as i128 <= domains {
        out_of_range(alloc, rule, value)
    } else {
        Ok(None)
    }
}

/// The first judged value that is out of range.
fn range_fault(alloc: Global, domains: i128, rule: &Rule, values: &[Value]) -> Found
    ensures { IfOk result (λ f. f ≡ first_fault
        (map (judged_fault domains (rule_of rule.now)) (enumerate_from 1 values.now))) }
{
    for (i, value) in values.iter().enumerate() {
        let fault = judged_fault(alloc, domains, rule, i + 1, value)?;
        if fault.is_some() {
            return Ok(fault);
        }
    }
    Ok(None)
}

fn is_of(kind: ValueKind, value: &Value) -> bool
    ensures { result ≡ is_of (type_of_kind kind) value.now }
{
    match (kind, value) {
        (ValueKind::Integer, Value::Int(_))
        | (ValueKind::Real, Value::Int(_))
        | (ValueKind::Real, Value::Decimal(_))
        | (ValueKind::Logical, Value::Logical(_))
        | (ValueKind::Character, Value::Text(_)) => true,
        _ => false,
    }
}

fn are_of(kind: ValueKind, values: &[Value]) -> bool
    ensures { result ≡ list_all (is_of (type_of_kind kind)) values.now }
{
    values.iter().all(|value| is_of(kind, value))
}

// ---- items

fn unknown(alloc: Global, name: &[u8]) -> Found
    ensures { IfOk result (λ f. f ≡ Some (UnknownItem name.now)) }
{
    let name = Bytes::copy_of(alloc, name)?;
    Ok(Some(ConfigFault::UnknownItem { name }))
}

/// What is wrong with an item that is held to this rule.
fn known_fault(alloc: Global, domains: i128, item: &Item, rule: &Rule) -> Found
    ensures { IfOk result (λ f. f ≡ known_fault domains item.now (rule_of rule.now)) }
{
    let values = item.2.as_slice();
    if rule.group.as_slice() != item.0.as_slice() {
        return unknown(alloc, item.1.as_slice());
    }
    if !are_of(rule.kind, values) {
        let name = Bytes::copy_of(alloc, item.1.as_slice())?;
        return Ok(Some(ConfigFault::WrongType { name }));
    }
    if rule.most < values.len() as u64 {
        let name = Bytes::copy_of(alloc, item.1.as_slice())?;
        return Ok(Some(ConfigFault::TooMany { name }));
    }
    range_fault(alloc, domains, rule, values)
}

/// What is wrong with an item that is held to this rule, or to none.
fn rule_fault(alloc: Global, domains: i128, item: &Item, rule: Option<&Rule>) -> Found
    ensures { IfOk result
        (λ f. f ≡ rule_fault domains item.now (option_map rule_of (option_copied rule.entry))) }
{
    match rule {
        Some(rule) => {
            let fault = known_fault(alloc, domains, item, rule)?;
            Ok(fault)
        }
        None => unknown(alloc, item.1.as_slice()),
    }
}

/// What is wrong with an item.
fn item_fault(alloc: Global, rules: &[Rule], domains: i128, item: &Item) -> Found
    ensures { IfOk result (λ f. f ≡ item_fault (map rule_of rules.now) domains item.now) }
{
    rule_fault(alloc, domains, item, rule_named(rules, item.1.as_slice()))
}

/// The first fault of an item.
pub(crate) fn items_fault(alloc: Global, rules: &[Rule], domains: i128, items: &[&Item]) -> Found
    ensures { IfOk result (λ f.
        f ≡ first_fault (map (λ i. item_fault (map rule_of rules.now) domains i.now) items.now)) }
{
    for item in items {
        let fault = item_fault(alloc, rules, domains, item)?;
        if fault.is_some() {
            return Ok(fault);
        }
    }
    Ok(None)
}

// ---- defaults

fn fault_of_default(alloc: Global, rule: &Rule) -> Found
    ensures { IfOk result (λ f. (d : ℕ)
        → f ≡ out_of_range (rule_of rule.now) ((rule_of rule.now).default d)) }
{
    match &rule.default {
        DefaultValue::FirstDomainOnly => Ok(None),
        DefaultValue::Always(value) => out_of_range(alloc, rule, value),
    }
}

/// What is wrong with the value of a domain that is given none, where its name has these values. It
/// is the same for each domain.
fn missing_fault(alloc: Global, table: &[Rule], rule: &Rule, given: &[Value]) -> Found
    requires { map rule_of table.now ≡ built_ins }
    ensures { IfOk result (λ f. (d : ℕ)
        → f ≡ out_of_range (rule_of rule.now) (missing_value (rule_of rule.now) given.now d)) }
{
    match given {
        [first, ..] if rule.each && is_start_name(table, rule.name.as_slice()) => {
            out_of_range(alloc, rule, first)
        }
        _ => fault_of_default(alloc, rule),
    }
}

/// A default that some domain has and may not have.
fn default_fault(
    alloc: Global,
    table: &[Rule],
    domains: u128,
    items: &[&Item],
    rule: &Rule,
) -> Found
    requires { map rule_of table.now ≡ built_ins }
    ensures { IfOk result
        (λ f. f ≡ default_fault domains (map (λ i. i.now) items.now) (rule_of rule.now)) }
{
    let given = given(items, rule.group.as_slice(), rule.name.as_slice());
    if wanted(domains, rule) <= given.len() as u128 {
        return Ok(None);
    }
    let fault = missing_fault(alloc, table, rule, given)?;
    Ok(fault)
}

/// The first default that some domain has and may not have.
pub(crate) fn defaults_fault(
    alloc: Global,
    table: &[Rule],
    domains: u128,
    items: &[&Item],
    rules: &[Rule],
) -> Found
    requires { map rule_of table.now ≡ built_ins }
    ensures { IfOk result (λ f. f ≡ first_fault
        (map (λ r. default_fault domains (map (λ i. i.now) items.now) (rule_of r)) rules.now)) }
{
    for rule in rules {
        let fault = default_fault(alloc, table, domains, items, rule)?;
        if fault.is_some() {
            return Ok(fault);
        }
    }
    Ok(None)
}

// ---- fields

fn float_fault(alloc: Global, entry: &Entry) -> Found
    ensures { IfOk result (λ f. f ≡ float_fault entry.now) }
{
    match entry {
        Entry::State { kind, symbol, .. } => {
            if kind.as_slice() == b"integer".as_slice() {
                return Ok(None);
            }
            let field = Bytes::copy_of(alloc, symbol.as_slice())?;
            Ok(Some(ConfigFault::FloatState { field }))
        }
        _ => Ok(None),
    }
}

/// The first field that isn't integer.
pub(crate) fn fields_fault(alloc: Global, fields: &[Entry]) -> Found
    ensures { IfOk result (λ f. f ≡ first_fault (map float_fault fields.now)) }
{
    for entry in fields {
        let fault = float_fault(alloc, entry)?;
        if fault.is_some() {
            return Ok(fault);
        }
    }
    Ok(None)
}
