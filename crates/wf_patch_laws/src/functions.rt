//! The lists that nest items give to stored functions are accepted, and all numbers of a run are of
//! 32 bits.
ghost use Rattle.wf_patch_laws.specs.Functions.{StartsAskAccepted, PatchesAskAccepted};
ghost use Rattle.wf_patch_laws.specs.Functions.{FeedbacksAskAccepted, PatchesFeedAccepted};
ghost use Rattle.wf_patch_laws.specs.Short.{GridsStayShort, PatchesStayShort, MailStaysShort};

/// Each list that a start or a force gives to a function between points is accepted.
pub fn starts_ask_accepted()
    ensures { StartsAskAccepted }
{}

/// Each list that a patch gives to such a function, over its mail, is accepted.
pub fn patches_ask_accepted()
    ensures { PatchesAskAccepted }
{}

/// Each list that a feedback gives to an average is accepted.
pub fn feedbacks_ask_accepted()
    ensures { FeedbacksAskAccepted }
{}

/// Each list that a patch gives to an average, over its mail, is accepted.
pub fn patches_feed_accepted()
    ensures { PatchesFeedAccepted }
{}

/// Where a run begins with numbers of 32 bits, all numbers of its grids are, before each place.
pub fn grids_stay_short()
    ensures { GridsStayShort }
{}

/// So are all numbers of each patch's memory, stale cells included.
pub fn patches_stay_short()
    ensures { PatchesStayShort }
{}

/// And so are the numbers of all messages.
pub fn mail_stays_short()
    ensures { MailStaysShort }
{}
