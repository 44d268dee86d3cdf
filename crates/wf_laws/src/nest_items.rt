//! Starts, forces and feedbacks on patches.

ghost use Rattle.wf_laws.specs.NestValues.{StartsComputeTheGridsValues};
ghost use Rattle.wf_laws.specs.NestValues.{ForcesComputeTheGridsValues};
ghost use Rattle.wf_laws.specs.NestValues.{FeedbacksTakeTheGridsNumbers};

/// At a start a nest's patch makes, at each cell of its memory, of the parent's points that came
/// what the grids give there: the same number, or an overflow.
pub fn starts_compute_the_grids_values()
    ensures { StartsComputeTheGridsValues }
{}

/// At a force it does so at each of its outer own cells.
pub fn forces_compute_the_grids_values()
    ensures { ForcesComputeTheGridsValues }
{}

/// At a feedback the nest's numbers that come to a parent's patch, for each of its own cells that
/// is fed, are the grids' in their order.
pub fn feedbacks_take_the_grids_numbers()
    ensures { FeedbacksTakeTheGridsNumbers }
{}
