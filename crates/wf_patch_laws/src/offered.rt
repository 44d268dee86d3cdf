//! Which events are offered, before it is known whether they overflow.
ghost use Rattle.wf_patch_laws.specs.Offered.{EnabledEventsAreOffered, PatchesGoOnWhereOffered};
ghost use Rattle.wf_patch_laws.specs.Offered.{OneOfThreeComes, OffersComeOrStop, EndsOfferNothing};
ghost use Rattle.wf_patch_laws.specs.Offered.{MailIsCounted, PositionsOnlyGrow, OffersStay};

/// Where an event is enabled it is offered.
pub fn enabled_events_are_offered()
    ensures { EnabledEventsAreOffered }
{}

/// A Step, a Take or a Stop of a patch is enabled exactly where one of the three is offered.
pub fn patches_go_on_where_offered()
    ensures { PatchesGoOnWhereOffered }
{}

/// Of the Step, the Take and the Stop of a patch no two are enabled at once.
pub fn one_of_three_comes()
    ensures { OneOfThreeComes }
{}

/// An offered Step comes as a Step or as a Stop, and an offered Take as a Take or as a Stop.
pub fn offers_come_or_stop()
    ensures { OffersComeOrStop }
{}

/// No event is enabled exactly where none is offered.
pub fn ends_offer_nothing()
    ensures { EndsOfferNothing }
{}

/// All messages to a patch are there exactly where there are as many letters to it, of that place,
/// as patches that send to it.
pub fn mail_is_counted()
    ensures { MailIsCounted }
{}

/// No patch goes back, whatever events come, and one that is stopped stays as it is.
pub fn positions_only_grow()
    ensures { PositionsOnlyGrow }
{}

/// What a patch is offered, its memory, and the messages that it would take stay through the events
/// of others.
pub fn offers_stay()
    ensures { OffersStay }
{}
