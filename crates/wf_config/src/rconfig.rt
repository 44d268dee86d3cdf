//! The rules of the names that the Registry declares.

ghost use Rattle.std.specs.Prelude.{◌≡◌, ◌++◌, IfOk, Some, is_some, map, not, if◌then◌else◌};
ghost use Rattle.std.specs.Option.{option_copied, option_map};
ghost use Rattle.wf_model.specs.declared.registry.Entry.TheVariants.{Rconfig};
ghost use Rattle.wf_model.specs.BuiltIns.{a_character, a_real, most_values};
ghost use Rattle.wf_model.specs.Letters.{digits_value, is_digits};
ghost use Rattle.wf_model.specs.ValueForms.{is_whole};
ghost use Rattle.wf_model.specs.Config.{default_of, group_of, rconfig_rule, registry_rules};
ghost use Rattle.wf_model.specs.Config.{rule_named, type_of, with_default};
ghost use Rattle.wf_config.specs.Rules.{default_in, others, rule_of, type_of_kind, whole_default};
ghost use Rattle.wf_config.specs.Rules.{with_defaults};

use crate::copies::push_some;
use crate::rule::{DefaultValue, Range, Rule, ValueKind, is_named, rule_named};
use std::alloc::{AllocError, Global};
use wf_model::{Bytes, Entry, Name, Registry, Value};
use wf_text::{digits_up_to, is_dash, is_digits, is_true_word, lower, whole};

/// The type of a type column.
fn kind_of(word: &[u8]) -> ValueKind
    ensures { type_of_kind result ≡ type_of word.now }
{
    if word == b"integer".as_slice() {
        ValueKind::Integer
    } else if word.starts_with(b"character".as_slice()) {
        ValueKind::Character
    } else if word == b"logical".as_slice() {
        ValueKind::Logical
    } else {
        ValueKind::Real
    }
}

/// Whether the word is decimal digits, with or without a sign.
fn is_whole(word: &[u8]) -> bool
    ensures { result ≡ is_whole word.now }
{
    match word {
        [b'+' | b'-', digits @ ..] => is_digits(digits),
        _ => is_digits(word),
    }
}

/// The whole number of a default; it is refused where 128 bits don't hold it.
fn whole_default(word: &[u8]) -> Result<Value, AllocError>
    ensures { IfOk result (λ v. v ≡ whole_default word.now) }
{
    if is_dash(word) {
        return Ok(Value::Int(0));
    }
    match whole(word) {
        Some(number) => Ok(Value::Int(number)),
        None => Err(AllocError),
    }
}

fn real_default(alloc: Global, word: &[u8]) -> Result<Value, AllocError>
    ensures { IfOk result (λ v. v ≡ default_of a_real word.now) }
{
    if is_dash(word) || is_whole(word) {
        whole_default(word)
    } else {
        Ok(Value::Decimal(Bytes::copy_of(alloc, word)?))
    }
}

fn text_default(alloc: Global, word: &[u8]) -> Result<Value, AllocError>
    ensures { IfOk result (λ v. v ≡ default_of a_character word.now) }
{
    let text = if is_dash(word) { b"".as_slice() } else { word };
    Ok(Value::Text(Bytes::copy_of(alloc, text)?))
}

/// The value of a default column: `-` is 0, false or the empty text. A whole number that 128 bits
/// don't hold, and an integer's default that is none, count as want of memory; no Registry that was
/// read has one.
fn default_of(alloc: Global, kind: ValueKind, word: &[u8]) -> Result<Value, AllocError>
    ensures { IfOk result (λ v. v ≡ default_of (type_of_kind kind) word.now) }
{
    match kind {
        ValueKind::Integer => whole_default(word),
        ValueKind::Real => real_default(alloc, word),
        ValueKind::Logical => Ok(Value::Logical(is_true_word(word))),
        ValueKind::Character => text_default(alloc, word),
    }
}

/// The group of `namelist,<group>`, in lower case; none where the value is derived.
fn group_of(alloc: Global, how: &[u8]) -> Result<Bytes, AllocError>
    ensures { IfOk result (λ group. group ≡ group_of how.now) }
{
    let front = b"namelist,".as_slice();
    if how.starts_with(front) {
        let (_, group) = how.split_at(front.len());
        Ok(Bytes::from_vec(lower(alloc, group)?))
    } else {
        Ok(Bytes::from_vec(Vec::new(alloc)))
    }
}

/// How many values a number of entries allows; a name of it has one for each domain.
fn most_of(entries: &[u8]) -> Result<u64, AllocError>
    ensures { IfOk result
        (λ most. most ≡ (if is_digits entries.now then digits_value entries.now else most_values)) }
{
    if !is_digits(entries) {
        return Ok(21);
    }
    match digits_up_to(entries, u128::from(u64::MAX)) {
        Some(most) => Ok(most as u64),
        None => Err(AllocError),
    }
}

/// The rule of an rconfig of these columns.
fn rule_of_columns(
    alloc: Global,
    kind: &[u8],
    symbol: &Name,
    how: &[u8],
    entries: &[u8],
    default: &[u8],
) -> Result<Rule, AllocError>
    ensures { IfOk result (λ r. Some (rule_of r)
        ≡ rconfig_rule (Rconfig kind.now symbol.now how.now entries.now default.now)) }
{
    let kind = kind_of(kind);
    Ok(Rule {
        name: symbol.copy(alloc)?,
        group: group_of(alloc, how)?,
        kind,
        each: !is_digits(entries),
        most: most_of(entries)?,
        default: DefaultValue::Always(default_of(alloc, kind, default)?),
        range: Range::Any,
    })
}

/// The rule of an rconfig, and none of another entry.
fn rconfig_rule(alloc: Global, entry: &Entry) -> Result<Option<Rule>, AllocError>
    ensures { IfOk result (λ r. option_map rule_of r ≡ rconfig_rule entry.now) }
{
    match entry {
        Entry::Rconfig {
            kind,
            symbol,
            how,
            entries,
            default,
        } => {
            let rule = rule_of_columns(
                alloc,
                kind.as_slice(),
                symbol,
                how.as_slice(),
                entries.as_slice(),
                default.as_slice(),
            )?;
            Ok(Some(rule))
        }
        _ => Ok(None),
    }
}

/// The rules of the names that the Registry declares, in its order.
pub(crate) fn registry_rules(alloc: Global, registry: &Registry) -> Result<Vec<Rule>, AllocError>
    ensures { IfOk result (λ v. map rule_of v.items ≡ registry_rules registry.now) }
{
    let mut rules = Vec::new(alloc);
    for entry in registry.entries.as_slice() {
        push_some(&mut rules, rconfig_rule(alloc, entry)?)?;
    }
    Ok(rules)
}

fn copy_default(alloc: Global, default: &DefaultValue) -> Result<DefaultValue, AllocError>
    ensures { IfOk result (λ d. default_in d ≡ default_in default.now) }
{
    match default {
        DefaultValue::FirstDomainOnly => Ok(DefaultValue::FirstDomainOnly),
        DefaultValue::Always(value) => Ok(DefaultValue::Always(value.copy(alloc)?)),
    }
}

/// A copy of the built-in rule, with the default that the Registry gives its name.
fn with_default(alloc: Global, declared: Option<&Rule>, rule: &Rule) -> Result<Rule, AllocError>
    ensures { IfOk result (λ r. rule_of r
        ≡ with_default (option_map rule_of (option_copied declared.entry)) (rule_of rule.now)) }
{
    let default = match declared {
        Some(declared) => &declared.default,
        None => &rule.default,
    };
    Ok(Rule {
        name: rule.name.copy(alloc)?,
        group: Bytes::copy_of(alloc, rule.group.as_slice())?,
        kind: rule.kind,
        each: rule.each,
        most: rule.most,
        default: copy_default(alloc, default)?,
        range: rule.range,
    })
}

/// The built-in names, with the defaults that the Registry gives them.
fn with_defaults(
    alloc: Global,
    built_ins: &[Rule],
    declared: &[Rule],
) -> Result<Vec<Rule>, AllocError>
    ensures { IfOk result (λ v. map rule_of v.items
        ≡ with_defaults (map rule_of declared.now) (map rule_of built_ins.now)) }
{
    let mut rules = Vec::new(alloc);
    for rule in built_ins {
        let declared = rule_named(declared, rule.name.as_slice());
        rules.push(with_default(alloc, declared, rule)?)?;
    }
    Ok(rules)
}

/// The rules of the declared names that aren't built in.
fn others(built_ins: &[Rule], declared: Vec<Rule>) -> Vec<Rule>
    ensures { map rule_of result.items
        ≡ others (map rule_of built_ins.now) (map rule_of declared.items) }
{
    let mut others = declared;
    others.retain(
        |rule: &Rule| -> bool
            ensures { result
                ≡ not (is_some (rule_named (map rule_of built_ins.entry.now) rule.now.name)) }
        { !is_named(built_ins, rule.name.as_slice()) },
    );
    others
}

/// What each name is held to: the built-in names, with the Registry's defaults, and then its
/// other names.
pub(crate) fn rules_of(
    alloc: Global,
    built_ins: &[Rule],
    declared: Vec<Rule>,
) -> Result<Vec<Rule>, AllocError>
    ensures { IfOk result (λ v.
        map rule_of v.items ≡ with_defaults (map rule_of declared.items) (map rule_of built_ins.now)
        ++ others (map rule_of built_ins.now) (map rule_of declared.items)) }
{
    let mut rules = with_defaults(alloc, built_ins, declared.as_slice())?;
    let mut others = others(built_ins, declared);
    rules.append(&mut others)?;
    Ok(rules)
}
