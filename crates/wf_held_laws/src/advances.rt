//! What a patch sends, posts, receives and sets as it goes along the front.
ghost use Rattle.wf_held_laws.specs.Advances.{FrontReceivesTheMessages};
ghost use Rattle.wf_held_laws.specs.Advances.{PlacedPatchesSendTheMessages, PostsAreOfAFrame};
ghost use Rattle.wf_held_laws.specs.Advances.{PlacedPatchesPostThePieces};
ghost use Rattle.wf_held_laws.specs.Advances.{ReceivedMessagesSetAsInTheFront};
ghost use Rattle.wf_held_laws.specs.Advances.{MailOfStatesIsTheMessages};
ghost use Rattle.wf_held_laws.specs.Advances.{EnabledHalvesGoAsInTheFront};
ghost use Rattle.wf_held_laws.specs.Advances.{EnabledStopsStopInTheFront};

/// All that comes to a patch of the front at a place are the cells of each message to it, with the
/// message's numbers.
pub fn front_receives_the_messages()
    ensures { FrontReceivesTheMessages }
{}

/// A patch that stands where the front is sends the messages' numbers.
pub fn placed_patches_send_the_messages()
    ensures { PlacedPatchesSendTheMessages }
{}

/// Where a patch posts pieces, the place is that of one frame of its domain, and the levels are the
/// frame's variables.
pub fn posts_are_of_a_frame()
    ensures { PostsAreOfAFrame }
{}

/// A patch that stands where the front is posts the pieces' numbers.
pub fn placed_patches_post_the_pieces()
    ensures { PlacedPatchesPostThePieces }
{}

/// What a patch makes of the messages to it is what its receiving half sets in the front.
pub fn received_messages_set_as_in_the_front()
    ensures { ReceivedMessagesSetAsInTheFront }
{}

/// In each state that a list of enabled events leads to, where all messages to a patch are in the
/// mail they have the messages' numbers.
pub fn mail_of_states_is_the_messages()
    ensures { MailOfStatesIsTheMessages }
{}

/// In each such state a half that may come goes through in the front, and sets what it sets there.
pub fn enabled_halves_go_as_in_the_front()
    ensures { EnabledHalvesGoAsInTheFront }
{}

/// And a patch that may stop stops there in the front.
pub fn enabled_stops_stop_in_the_front()
    ensures { EnabledStopsStopInTheFront }
{}
