//! Laws of the halo check: where a patch decides of a read as the patch beside it, so that few
//! patches are enough.
#![tactic(auto)]

ghost use Rattle.wf_check_laws.specs.Backwards.{WalksGoByNumbers};
ghost use Rattle.wf_check_laws.specs.Repeats.{RepeatedColumnsDecideAlike, RepeatedRowsDecideAlike};
ghost use Rattle.wf_check_laws.specs.Repeats.{RepeatedLevelsDecideAlike, FewLevelsDecide};
ghost use Rattle.wf_check_laws.specs.Repeats.{RepresentativesAreEnough, FewPatchesDecide};
ghost use Rattle.wf_check_laws.specs.Repeats.{FewPatchesFindTheFirst, FirstUncoveredTells};
ghost use Rattle.wf_check_laws.specs.Repeats.{NextColumnsAndRows, ScansGoOn, FewAreLeft};

/// A column of patches that repeats the one before it decides of the read as that one does, point
/// by point.
#[tactic(auto, using(crate::proofs::Columns::columns_alike))]
pub fn repeated_columns_decide_alike()
    ensures { RepeatedColumnsDecideAlike }
{}

/// A row of patches that repeats the one before it decides of the read as that one does, point by
/// point.
#[tactic(auto, using(crate::proofs::Rows::rows_alike))]
pub fn repeated_rows_decide_alike()
    ensures { RepeatedRowsDecideAlike }
{}

/// A level that repeats the one before it decides of the read as that one does, at each patch and
/// point.
#[tactic(auto, using(crate::proofs::Levels::levels_alike))]
pub fn repeated_levels_decide_alike()
    ensures { RepeatedLevelsDecideAlike }
{}

/// The test of a patch that leaves out the levels that repeat gives what the test over all levels
/// gives.
#[tactic(auto, using(crate::proofs::Levels::levels_decide))]
pub fn few_levels_decide()
    ensures { FewLevelsDecide }
{}

/// A read is covered, by the rule over all patches and all points, where each patch passes whose
/// column and row repeat no other, at the levels that repeat no other; and where it is covered each
/// patch passes.
#[tactic(auto, using(crate::proofs::Few::representatives))]
pub fn representatives_are_enough()
    ensures { RepresentativesAreEnough }
{}

/// The test of a read that leaves out what repeats gives what the test over all patches gives.
#[tactic(auto, using(crate::proofs::Few::few_decide))]
pub fn few_patches_decide()
    ensures { FewPatchesDecide }
{}

/// So the first read that it refuses is the first uncovered one.
#[tactic(auto, using(crate::proofs::Few::few_find))]
pub fn few_patches_find_the_first()
    ensures { FewPatchesFindTheFirst }
{}

/// Where the test over all reads finds none the check accepts, and what it finds is the first
/// uncovered read.
pub fn first_uncovered_tells()
    ensures { FirstUncoveredTells }
{}

/// The columns from one up to the next that is found, and the rows, repeat those before them.
pub fn next_columns_and_rows()
    ensures { NextColumnsAndRows }
{}

/// A loop over the patches that repeat no other may go row by row, and leap over the columns and
/// rows that repeat.
pub fn scans_go_on()
    ensures { ScansGoOn }
{}

/// However large the domain is, few columns and few rows repeat no other.
pub fn few_are_left()
    ensures { FewAreLeft }
{}

/// The walk back from a read goes over the items by their numbers, with a force before them and the
/// feedbacks of all nests as one behind them.
#[tactic(auto, using(crate::proofs::Backwards::by_numbers))]
pub fn walks_go_by_numbers()
    ensures { WalksGoByNumbers }
{}
