//! What patches hold, read and compute: in the lockstep run, on a plan that the halo check accepts,
//! before each place up to the first overflow.

ghost use Rattle.wf_laws.specs.Patches.{NoPatchStops, MailIsOfEarlierPlaces, OwnCellsHoldTheGrids};
ghost use Rattle.wf_laws.specs.Patches.{FreshCellsHoldTheGrids, PhasesReadFreshCells};
ghost use Rattle.wf_laws.specs.Patches.{PatchesComputeTheGridsValues};

/// Before each place up to the first overflow, each patch has done its halves of the places before,
/// and none has stopped.
#[tactic(auto, using(crate::proofs::PatchLaws::no_stop))]
pub fn no_patch_stops()
    ensures { NoPatchStops }
{}

/// Before each place up to the first overflow, the messages in the mail are of earlier
/// places alone.
pub fn mail_is_of_earlier_places()
    ensures { MailIsOfEarlierPlaces }
{}

/// Before each place up to the first overflow, each own cell of each patch of any layout holds the
/// grid's number.
#[tactic(auto, using(crate::proofs::PatchLaws::own_hold))]
pub fn own_cells_hold_the_grids()
    ensures { OwnCellsHoldTheGrids }
{}

/// Before each place up to the first overflow, each cell of a patch's memory that is marked fresh
/// holds the number of the grid's point that it stands for.
#[tactic(auto, using(crate::proofs::PatchLaws::fresh_hold))]
pub fn fresh_cells_hold_the_grids()
    ensures { FreshCellsHoldTheGrids }
{}

/// Each cell that a phase reads of a cell that a patch computes lies in the patch's memory and
/// is fresh.
pub fn phases_read_fresh_cells()
    ensures { PhasesReadFreshCells }
{}

/// At each cell that a patch computes, own or past its own box, a phase gives what it gives at the
/// grid's point: the same number, or an overflow.
#[tactic(auto, using(crate::proofs::PatchLaws::computes_values))]
pub fn patches_compute_the_grids_values()
    ensures { PatchesComputeTheGridsValues }
{}
