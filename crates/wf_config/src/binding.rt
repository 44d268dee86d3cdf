//! A namelist bound to a Registry.

ghost use Rattle.std.specs.Prelude.{◌≡◌, IfOk, map};
ghost use Rattle.wf_model.specs.Reading.{Gives};
ghost use Rattle.wf_model.specs.Config.{config_from, config_of};
ghost use Rattle.wf_config.specs.ConfigErrors.{fault_of};

use crate::active::{Sort, active_fields, entries_of_sort, listings};
use crate::built_ins::built_ins;
use crate::error::ConfigError;
use crate::faults::{declarations_fault, defaults_fault, fields_fault, items_fault};
use crate::given::{domain_count, known_items, max_dom};
use crate::rconfig::{registry_rules, rules_of};
use crate::values::{NameValues, values};
use std::alloc::{AllocError, Global};
use wf_model::{Config, List, Namelist, Registry};

/// The config of these values, allowed or not.
fn config_from(
    alloc: Global,
    registry: &Registry,
    values: Vec<NameValues>,
) -> Result<Config, AllocError>
    ensures { IfOk result (λ c. c ≡ config_from registry.now values.items) }
{
    let entries = registry.entries.as_slice();
    let listings = listings(alloc, values.as_slice(), entries)?;
    let fields = active_fields(alloc, listings.as_slice(), entries)?;
    Ok(Config {
        values: List::from_vec(values),
        dims: List::from_vec(entries_of_sort(alloc, Sort::Dimspec, entries)?),
        fields: List::from_vec(fields),
        halos: List::from_vec(entries_of_sort(alloc, Sort::Halo, entries)?),
        periods: List::from_vec(entries_of_sort(alloc, Sort::Period, entries)?),
    })
}

/// The values of each name that the built-in table or the Registry knows, and the active fields; or
/// the first refusal.
///
/// A name has the values that the namelist gives it. What a domain is not given is the Registry's
/// default, or else the built-in one, but for the names of a start's date and time domain 1's
/// value. A field is active if no package lists it, or one that lists it holds: where the first
/// value of the package's name is the package's own.
///
/// Refused is, in this order: a built-in name that the Registry declares with another group or
/// type; in the order of the namelist an item that no rule knows, or whose values are of another
/// type, are too many, or are out of range; a default that some domain has and that is out of
/// range; and an active field that is not integer. Items of groups of which nothing is known mean
/// nothing. The names, groups and defaults of the built-in table are those of WRF's namelist; the
/// ranges and the order of refusals are this project's own.
///
/// Want of memory may also be told where a default of the Registry is a whole number that 128 bits
/// don't hold, or a number of entries one that 64 bits don't hold, which no Registry that was
/// read has.
pub fn bind(alloc: Global, registry: &Registry, namelist: &Namelist) -> Result<Config, ConfigError>
    ensures { Gives (λ c. c) fault_of result (config_of registry.now namelist.now) }
{
    let built_ins = built_ins(alloc)?;
    let table = built_ins.as_slice();
    let declared = registry_rules(alloc, registry)?;
    let wrong = declarations_fault(alloc, table, declared.as_slice())?;
    if let Some(fault) = wrong {
        return Err(ConfigError::Fault(fault));
    }
    let all_rules = rules_of(alloc, table, declared)?;
    let rules = all_rules.as_slice();
    let known = known_items(alloc, rules, namelist.items.as_slice())?;
    let items = known.as_slice();
    let max_dom = max_dom(rules, items);
    let refused = items_fault(alloc, rules, max_dom, items)?;
    if let Some(fault) = refused {
        return Err(ConfigError::Fault(fault));
    }
    let domains = domain_count(max_dom);
    let missing = defaults_fault(alloc, table, domains, items, rules)?;
    if let Some(fault) = missing {
        return Err(ConfigError::Fault(fault));
    }
    let values = values(alloc, table, domains, items, rules)?;
    let config = config_from(alloc, registry, values)?;
    let float = fields_fault(alloc, config.fields.as_slice())?;
    match float {
        Some(fault) => Err(ConfigError::Fault(fault)),
        None => Ok(config),
    }
}
