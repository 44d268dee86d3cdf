//! The halo rule: its walk back from a read, and the marks carried forward.

ghost use Rattle.wf_laws.specs.Walks.{MarksAgreeWithTheWalk, LeavingOutLosesNothing};
ghost use Rattle.wf_laws.specs.Walks.{LookingLessFarLosesNothing, TwoCyclesAreEnough};
ghost use Rattle.wf_laws.specs.Walks.{CoveredInEachLayout, FreshForThePartIsFreshForTheWhole};
ghost use Rattle.wf_laws.specs.Walks.{ReadTestIsTheRule, RefusedReadsAreStale};

/// Cell by cell, the marks carried forward over some items are what the walk back over those
/// items finds.
#[tactic(auto, using(crate::proofs::AnyLayout::marks_agree))]
pub fn marks_agree_with_the_walk()
    ensures { MarksAgreeWithTheWalk }
{}

/// A walk that ends in yes does so where some forces and feedbacks are left out, as at a start, or
/// where a nest has not started.
#[tactic(auto, using(crate::proofs::AnyLayout::left_out))]
pub fn leaving_out_loses_nothing()
    ensures { LeavingOutLosesNothing }
{}

/// A walk that ends in yes does so where it has fewer items to look back at, as in the first steps
/// of a run.
#[tactic(auto, using(crate::proofs::AnyLayout::less_far))]
pub fn looking_less_far_loses_nothing()
    ensures { LookingLessFarLosesNothing }
{}

/// A walk that ends in yes over two whole cycles of a domain does so over any number of them.
#[tactic(auto, using(crate::proofs::AnyLayout::two_enough))]
pub fn two_cycles_are_enough()
    ensures { TwoCyclesAreEnough }
{}

/// On a plan that the halo check accepts, what it found covered in the layout of one point a patch
/// is covered in each layout.
#[tactic(auto, using(crate::proofs::AnyLayout::each_layout))]
pub fn covered_in_each_layout()
    ensures { CoveredInEachLayout }
{}

/// Over items of a domain's cycle, a cell that is fresh for a patch of one point is fresh for each
/// patch, of any layout, that has that point.
pub fn fresh_for_the_part_is_fresh_for_the_whole()
    ensures { FreshForThePartIsFreshForTheWhole }
{}

/// The test of a read, which goes over the points that patches of one point may compute, finds
/// exactly whether the rule holds of the read.
pub fn read_test_is_the_rule()
    ensures { ReadTestIsTheRule }
{}

/// A read that the halo check refuses meets a cell that is not fresh: a patch of one point computes
/// a point of the phase, in the third cycle of its domain, and reads such a cell there.
pub fn refused_reads_are_stale()
    ensures { RefusedReadsAreStale }
{}
