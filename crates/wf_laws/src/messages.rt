//! The messages of halos, periods and nest items.

ghost use Rattle.wf_laws.specs.Messages.{FetchedCellsComeOnce, MessagesCarryFetchedCells};
ghost use Rattle.wf_laws.specs.Messages.{AskedPointsComeOnce, SendersSendTheNumbers};
ghost use Rattle.wf_laws.specs.Messages.{MessagesCarryTheGridsNumbers, ReceivedAreTheMessages};

/// Each cell that a halo or a period fetches for a patch is carried by one message to it: that of
/// the owner of its point.
pub fn fetched_cells_come_once()
    ensures { FetchedCellsComeOnce }
{}

/// The messages of a halo or a period carry fetched cells alone.
pub fn messages_carry_fetched_cells()
    ensures { MessagesCarryFetchedCells }
{}

/// Each point that a start, a force or a feedback asks for is carried by one message to the patch
/// that asks: that of its owner.
pub fn asked_points_come_once()
    ensures { AskedPointsComeOnce }
{}

/// What a patch sends from its memory before a place are the message's numbers, before an overflow
/// and after it.
pub fn senders_send_the_numbers()
    ensures { SendersSendTheNumbers }
{}

/// Up to the first overflow a message carries the grids' numbers of the points that its cells
/// stand for.
pub fn messages_carry_the_grids_numbers()
    ensures { MessagesCarryTheGridsNumbers }
{}

/// All that comes to a patch at a place are the cells of each message to it, with the
/// message's numbers.
pub fn received_are_the_messages()
    ensures { ReceivedAreTheMessages }
{}
