//! Blocks, patches and owners.

ghost use Rattle.wf_laws.specs.Ownership.{BlocksAreDisjointAndComplete, EachPointHasOneOwner};
ghost use Rattle.wf_laws.specs.Ownership.{OwnCellsArePoints};

/// Each place of a length lies in one of its blocks and in no other.
#[tactic(auto, using(crate::proofs::Owners::disjoint_complete))]
pub fn blocks_are_disjoint_and_complete()
    ensures { BlocksAreDisjointAndComplete }
{}

/// Each point of a domain has one owner among the patches of a layout.
pub fn each_point_has_one_owner()
    ensures { EachPointHasOneOwner }
{}

/// Each own cell of a patch is a point of its domain, and lies in the patch's memory.
pub fn own_cells_are_points()
    ensures { OwnCellsArePoints }
{}
