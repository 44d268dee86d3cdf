//! Which events are enabled, and how many there can be.
ghost use Rattle.wf_core_laws.specs.EveryList.{EnabledEventsStayEnabled, ListsAreBounded};

/// An event that is enabled, as one that was claimed, stays enabled until it comes itself, whatever
/// other events come before it.
pub fn enabled_events_stay_enabled()
    ensures { EnabledEventsStayEnabled }
{}

/// A list of enabled events is no longer than the halves of all patches, the pieces that they post
/// and the frames together.
pub fn lists_are_bounded()
    ensures { ListsAreBounded }
{}
