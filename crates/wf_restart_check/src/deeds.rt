//! Several deeds, one after the other.

ghost use Rattle.std.specs.Prelude.{◌≡◌, ◌∷◌, [], map, if◌then◌else◌};
ghost use Rattle.std.specs.List.{range_with_len};
ghost use Rattle.wf_model.specs.Live.{emits, feeds, forces, item_done, starts_nests};
ghost use Rattle.wf_model.specs.Plans.{domain_of};
ghost use Rattle.wf_restart_check.specs.Fates.{fate_of, fates};

use crate::fate::{Fate, used_if};
use crate::fields::{is_in_stream, is_started};
use crate::items::item_fate;
use wf_check_walk::{is_fed, is_forced};
use wf_model::{Domain, Plan};

/// The items of the table.
pub fn items_fate(plan: &Plan, number: u32, domain: &Domain, level: u32) -> Fate
    requires { domain.now ≡ domain_of plan.now number }
    ensures { fate_of result ≡ fates plan.now number (map item_done plan.now.items) level }
{
    let mut level = level;
    for item in plan.items.as_slice() {
        match item_fate(plan, number, domain, item, level) {
            Fate::Followed(other) => level = other,
            Fate::Used => return Fate::Used,
            Fate::Overwritten => return Fate::Overwritten,
        }
    }
    Fate::Followed(level)
}

/// A frame of each stream.
pub fn frames_fate(plan: &Plan, number: u32, level: u32) -> Fate
    ensures { fate_of result ≡ fates plan.now number (map emits (range_with_len 0 10)) level }
{
    for stream in 0..10 {
        if is_in_stream(plan, stream, level) {
            return Fate::Used;
        }
    }
    Fate::Followed(level)
}

/// The force of a domain's edges, where there is one.
#[tactic(auto, using(crate::proofs::Chains::force_is))]
pub fn force_fate(plan: &Plan, number: u32, is_done: bool, level: u32) -> Fate
    ensures { fate_of result ≡ fates plan.now number (if is_done then forces ∷ [] else []) level }
{
    let is_used = is_done && is_forced(plan, level);
    used_if(is_used, level)
}

/// A feedback, where there is one.
#[tactic(auto, using(crate::proofs::Chains::feed_is))]
pub fn feed_fate(plan: &Plan, number: u32, is_done: bool, level: u32) -> Fate
    ensures { fate_of result ≡ fates plan.now number (if is_done then feeds ∷ [] else []) level }
{
    let is_used = is_done && is_fed(plan, level);
    used_if(is_used, level)
}

/// The start of nests, where there are some.
#[tactic(auto, using(crate::proofs::Chains::start_is))]
pub fn start_fate(plan: &Plan, number: u32, is_done: bool, level: u32) -> Fate
    ensures { fate_of result
        ≡ fates plan.now number (if is_done then starts_nests ∷ [] else []) level }
{
    let is_used = is_done && is_started(plan, level);
    used_if(is_used, level)
}
