//! What the halves of a patch read and set lies in its memory, for a sound plan on a sound layout.
ghost use Rattle.wf_patch_laws.specs.InMemory.{OwnCellsAreKept, PhasesSetKeptCells};
ghost use Rattle.wf_patch_laws.specs.InMemory.{PhasesReadKeptCells, FetchedCellsAreKept};
ghost use Rattle.wf_patch_laws.specs.InMemory.{MessagesCarryKeptCells, SendersReadOwnCells};
ghost use Rattle.wf_patch_laws.specs.InMemory.{StartsSetKeptPlaces, ForcesSetKeptPlaces};
ghost use Rattle.wf_patch_laws.specs.InMemory.{FeedbacksSetKeptPlaces};

/// Each own cell of a patch is a cell of its memory.
pub fn own_cells_are_kept()
    ensures { OwnCellsAreKept }
{}

/// Each cell that a phase of the plan sets is a cell of the memory.
pub fn phases_set_kept_cells()
    ensures { PhasesSetKeptCells }
{}

/// Each cell that a phase reads of a cell that it sets is a cell of the memory.
pub fn phases_read_kept_cells()
    ensures { PhasesReadKeptCells }
{}

/// Each cell that a halo or a period fetches is a cell of the memory.
pub fn fetched_cells_are_kept()
    ensures { FetchedCellsAreKept }
{}

/// A message of a halo or a period carries cells of its receiver's memory.
pub fn messages_carry_kept_cells()
    ensures { MessagesCarryKeptCells }
{}

/// Each number of a message is that of an own cell of its sender.
pub fn senders_read_own_cells()
    ensures { SendersReadOwnCells }
{}

/// A start sets places of the memory of the nest's patch.
pub fn starts_set_kept_places()
    ensures { StartsSetKeptPlaces }
{}

/// A force sets places of the memory of the nest's patch.
pub fn forces_set_kept_places()
    ensures { ForcesSetKeptPlaces }
{}

/// A feedback sets places of the memory of the parent's patch.
pub fn feedbacks_set_kept_places()
    ensures { FeedbacksSetKeptPlaces }
{}
