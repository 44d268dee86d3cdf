//! What isn't built yet, and what of it a config asks for.

ghost use Rattle.std.specs.Prelude.{◌≡◌, IfOk, map, take};
ghost use Rattle.std.specs.List.{list_any};
ghost use Rattle.wf_model.specs.PlanTests.{unbuilt, unbuilt_fault};
ghost use Rattle.wf_model.specs.Reading.{first_fault};
ghost use Rattle.wf_plan_domains.specs.DomainTests.{asks_of, unbuilt_found, unbuilt_of};

use crate::built::Asks::{Above, Set};
use crate::error::Found;
use crate::numbers::amount;
use std::alloc::Global;
use wf_model::{Bytes, Config, PlanFault, Value, values_of};

/// Which values of a name ask for something.
#[derive(Clone, Copy)]
pub(crate) enum Asks {
    /// A whole number above this one.
    Above(u32),
    /// A logical that is true.
    Set,
}

/// Something that a value of a name asks for.
#[derive(Clone, Copy)]
pub(crate) struct Feature {
    pub name: &'static str,
    pub asks: Asks,
}

/// What isn't built, in the order in which it is refused: nests, and then restart and
/// auxiliary streams.
fn features() -> [Feature; 12]
    ensures { map unbuilt_of result ≡ unbuilt }
{
    [
        Feature {
            name: "max_dom",
            asks: Above(1),
        },
        Feature {
            name: "restart",
            asks: Set,
        },
        Feature {
            name: "restart_interval",
            asks: Above(0),
        },
        Feature {
            name: "auxhist1_interval",
            asks: Above(0),
        },
        Feature {
            name: "auxhist2_interval",
            asks: Above(0),
        },
        Feature {
            name: "auxhist3_interval",
            asks: Above(0),
        },
        Feature {
            name: "auxhist4_interval",
            asks: Above(0),
        },
        Feature {
            name: "auxhist5_interval",
            asks: Above(0),
        },
        Feature {
            name: "auxhist6_interval",
            asks: Above(0),
        },
        Feature {
            name: "auxhist7_interval",
            asks: Above(0),
        },
        Feature {
            name: "auxhist8_interval",
            asks: Above(0),
        },
        Feature {
            name: "auxhist9_interval",
            asks: Above(0),
        },
    ]
}

fn is_asking(asks: Asks, value: &Value) -> bool
    ensures { result ≡ asks_of asks value.now }
{
    match (asks, value) {
        (Asks::Above(number), Value::Int(given)) => i128::from(number) < *given,
        (Asks::Set, Value::Logical(truth)) => *truth,
        _ => false,
    }
}

fn is_any_asking(asks: Asks, values: &[Value]) -> bool
    ensures { result ≡ list_any (asks_of asks) values.now }
{
    values.iter().any(|value| is_asking(asks, value))
}

/// The first values, or all where there are no more.
#[tactic(auto, using(std::proofs::lemmas::List::take_all))]
fn first_values(values: &[Value], most: u128) -> &[Value]
    ensures { result.now ≡ take most values.now }
{
    if most < values.len() as u128 {
        values.split_at(most as usize).0
    } else {
        values
    }
}

/// The fault where some value of a domain up to the last asks for the feature.
fn feature_fault(alloc: Global, config: &Config, feature: &Feature) -> Found
    ensures { IfOk result (λ f. f ≡ unbuilt_fault config.now (unbuilt_of feature.now)) }
{
    let name = feature.name.as_bytes();
    let values = values_of(config.values.as_slice(), name);
    let domains = amount(config, "max_dom", 1);
    if !is_any_asking(feature.asks, first_values(values, domains)) {
        return Ok(None);
    }
    let name = Bytes::from_vec(Vec::from_slice(alloc, name)?);
    Ok(Some(PlanFault::NotBuilt { name }))
}

/// The first fault of a feature.
fn first_fault(alloc: Global, config: &Config, features: &[Feature]) -> Found
    ensures { IfOk result
        (λ f. f ≡ first_fault (map (λ x. unbuilt_fault config.now (unbuilt_of x)) features.now)) }
{
    for feature in features {
        let fault = feature_fault(alloc, config, feature)?;
        if fault.is_some() {
            return Ok(fault);
        }
    }
    Ok(None)
}

/// The first feature that isn't built and that the config asks for.
pub(crate) fn unbuilt_fault(alloc: Global, config: &Config) -> Found
    ensures { IfOk result (λ f. f ≡ unbuilt_found config.now) }
{
    let features = features();
    let fault = first_fault(alloc, config, &features)?;
    Ok(fault)
}
