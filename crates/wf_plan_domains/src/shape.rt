//! The numbers of a domain of a plan.

ghost use Rattle.std.specs.Prelude.{◌≡◌};
ghost use Rattle.wf_model.specs.Plans.{domain_of};
ghost use Rattle.wf_plan_domains.specs.DomainTests.{shape_of};

use wf_model::{Domain, Plan};

/// What the tests of nests look at: the fields of `Domain` without its lists.
#[derive(Clone, Copy)]
pub(crate) struct Shape {
    pub parent: u32,
    pub i_start: u32,
    pub j_start: u32,
    pub ratio: u32,
    pub time_ratio: u32,
    pub ide: u32,
    pub jde: u32,
    pub kde: u32,
    pub seconds: u64,
    pub begins: i64,
    pub periodic_x: bool,
    pub periodic_y: bool,
}

fn shape_of(domain: &Domain) -> Shape
    ensures { result ≡ shape_of domain.now }
{
    Shape {
        parent: domain.parent,
        i_start: domain.i_start,
        j_start: domain.j_start,
        ratio: domain.ratio,
        time_ratio: domain.time_ratio,
        ide: domain.ide,
        jde: domain.jde,
        kde: domain.kde,
        seconds: domain.seconds,
        begins: domain.begins,
        periodic_x: domain.periodic_x,
        periodic_y: domain.periodic_y,
    }
}

/// What stands for the domain of a number that no domain has.
const NO_SHAPE: Shape = Shape {
    parent: 0,
    i_start: 0,
    j_start: 0,
    ratio: 1,
    time_ratio: 1,
    ide: 0,
    jde: 0,
    kde: 0,
    seconds: 0,
    begins: 0,
    periodic_x: false,
    periodic_y: false,
};

/// The numbers of the domain of this number, from 1. A number past the end has those of no domain.
#[tactic(auto, unfolding(wf_model::specs::Plans::domain_of, wf_model::specs::Plans::no_domain))]
pub(crate) fn shape_at(plan: &Plan, domain: u32) -> Shape
    ensures { result ≡ shape_of (domain_of plan.now domain) }
{
    let place = (domain as usize).saturating_sub(1);
    match plan.domains.as_slice().get(place) {
        Some(domain) => shape_of(domain),
        None => NO_SHAPE,
    }
}
