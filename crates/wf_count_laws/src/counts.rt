//! Items, frames and events of a run in which no domain resumes.
ghost use Rattle.wf_count_laws.specs.ScriptCounts.{ItemsAreCounted, FramesAreCounted};
ghost use Rattle.wf_count_laws.specs.ScriptCounts.{EventsAreCounted};
ghost use Rattle.wf_count_laws.specs.ByDomains.{ItemsAreThoseOfDomains, FramesAreThoseOfDomains};
ghost use Rattle.wf_count_laws.specs.ByDomains.{EventsAreThoseOfDomains};

/// The items of the script are a weight of it.
#[tactic(auto, using(crate::proofs::ScriptCounts::items))]
pub fn items_are_counted()
    ensures { ItemsAreCounted }
{}

/// So are the frames of the run.
#[tactic(auto, using(crate::proofs::ScriptCounts::frames))]
pub fn frames_are_counted()
    ensures { FramesAreCounted }
{}

/// And the events of a full run in which nothing overflows.
#[tactic(auto, using(crate::proofs::ScriptCounts::events))]
pub fn events_are_counted()
    ensures { EventsAreCounted }
{}

/// The items of the script are those that each domain's steps, frames and nesting make.
#[tactic(auto, using(crate::proofs::ByDomains::items_by_domains))]
pub fn items_are_those_of_domains()
    ensures { ItemsAreThoseOfDomains }
{}

/// So are the frames of the run.
#[tactic(auto, using(crate::proofs::ByDomains::frames_by_domains))]
pub fn frames_are_those_of_domains()
    ensures { FramesAreThoseOfDomains }
{}

/// And the events of a full run in which nothing overflows.
#[tactic(auto, using(crate::proofs::ByDomains::events_by_domains))]
pub fn events_are_those_of_domains()
    ensures { EventsAreThoseOfDomains }
{}
