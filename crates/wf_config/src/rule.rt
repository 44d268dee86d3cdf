//! What a namelist's names are held to.

ghost use Rattle.std.specs.Prelude.{◌≡◌, map, find, is_some};
ghost use Rattle.std.specs.Option.{option_copied, option_map};
ghost use Rattle.wf_model.specs.Config.{rule_named, same_type};
ghost use Rattle.wf_model.specs.BuiltIns.{to};
ghost use Rattle.wf_config.specs.Rules.{allowed_in, has_name, rule_of, type_of_kind};

use wf_model::{Bytes, Name, Value};

/// What a value must be.
#[derive(Clone, Copy)]
pub(crate) enum ValueKind {
    Integer,
    Real,
    Logical,
    Character,
}

impl ValueKind {
    pub fn is_same(self, other: ValueKind) -> bool
        ensures { result ≡ same_type (type_of_kind self) (type_of_kind other) }
    {
        match (self, other) {
            (ValueKind::Integer, ValueKind::Integer)
            | (ValueKind::Real, ValueKind::Real)
            | (ValueKind::Logical, ValueKind::Logical)
            | (ValueKind::Character, ValueKind::Character) => true,
            _ => false,
        }
    }
}

/// The whole numbers that a name allows.
#[derive(Clone, Copy)]
pub(crate) enum Range {
    Any,
    /// From the one to the other.
    Between(u32, u32),
    /// -1, or from the one to the other.
    MinusOneOr(u32, u32),
}

impl Range {
    pub fn allows(self, number: i128) -> bool
        ensures { result ≡ allowed_in self number }
    {
        match self {
            Range::Any => true,
            Range::Between(low, high) => is_between(low, high, number),
            Range::MinusOneOr(low, high) => number == -1 || is_between(low, high, number),
        }
    }
}

fn is_between(low: u32, high: u32, number: i128) -> bool
    ensures { result ≡ to low high number }
{
    i128::from(low) <= number && number <= i128::from(high)
}

/// What a domain has that is given no value.
#[derive(Drop)]
pub(crate) enum DefaultValue {
    /// True in domain 1, and false in the others.
    FirstDomainOnly,
    /// The same in each domain.
    Always(Value),
}

/// What a name is held to.
#[derive(Drop)]
pub(crate) struct Rule {
    pub name: Name,
    /// Empty where a namelist can't set the name.
    pub group: Bytes,
    pub kind: ValueKind,
    /// A value for each domain.
    pub each: bool,
    /// How many values it may have.
    pub most: u64,
    pub default: DefaultValue,
    pub range: Range,
}

fn find_rule<'a>(rules: &'a [Rule], name: &[u8]) -> Option<&'a Rule>
    ensures { option_copied result ≡ find (λ r. has_name name.now r) rules.now }
{
    rules.iter().find(|rule| rule.name.as_slice() == name)
}

/// The first rule of a name.
pub(crate) fn rule_named<'a>(rules: &'a [Rule], name: &[u8]) -> Option<&'a Rule>
    ensures { option_map rule_of (option_copied result)
        ≡ rule_named (map rule_of rules.now) name.now }
{
    find_rule(rules, name)
}

/// Whether a name has a rule.
pub(crate) fn is_named(rules: &[Rule], name: &[u8]) -> bool
    ensures { result ≡ is_some (rule_named (map rule_of rules.now) name.now) }
{
    rule_named(rules, name).is_some()
}
