//! Where patches stop: on a plan that the halo check accepts, at the run's first overflow.
ghost use Rattle.wf_core_laws.specs.Stops.{FirstStopIsAtTheFirstOverflow};
ghost use Rattle.wf_core_laws.specs.Stops.{FrontGoesOnWhereNothingOverflows};
ghost use Rattle.wf_core_laws.specs.Stops.{PatchesStopWhereTheyNameAPoint};
ghost use Rattle.wf_core_laws.specs.Stops.{StoppedPatchesNameTheFrontsPoints};
ghost use Rattle.wf_core_laws.specs.Stops.{StoppedPatchesComputeOrReceive};
ghost use Rattle.wf_core_laws.specs.EveryList.{NoPatchStopsBeforeTheOverflow};
ghost use Rattle.wf_core_laws.specs.EveryList.{NoPatchStopsWhereNothingOverflows};
ghost use Rattle.wf_core_laws.specs.EveryList.{FullListsStopAtTheOverflow};
ghost use Rattle.wf_core_laws.specs.EveryList.{LeastStopIsTheFirstOverflow};

/// The first place at which the front stops a patch is that of the run's first overflow.
pub fn first_stop_is_at_the_first_overflow()
    ensures { FirstStopIsAtTheFirstOverflow }
{}

/// Where nothing overflows the front stops no patch.
pub fn front_goes_on_where_nothing_overflows()
    ensures { FrontGoesOnWhereNothingOverflows }
{}

/// Up to the first overflow a patch stops at a place exactly where it names a point there, and only
/// one of the domain that computes or receives there does.
pub fn patches_stop_where_they_name_a_point()
    ensures { PatchesStopWhereTheyNameAPoint }
{}

/// A patch that is stopped names the point at which its half overflows in the front, so it names
/// the same in each later state; one that lacks a message names none.
pub fn stopped_patches_name_the_fronts_points()
    ensures { StoppedPatchesNameTheFrontsPoints }
{}

/// A patch that is stopped is of the domain that computes or receives at its place.
pub fn stopped_patches_compute_or_receive()
    ensures { StoppedPatchesComputeOrReceive }
{}

/// In no state that a list of enabled events leads to has a patch stopped before the place of the
/// first overflow.
pub fn no_patch_stops_before_the_overflow()
    ensures { NoPatchStopsBeforeTheOverflow }
{}

/// Where nothing overflows no patch is stopped, in no state that a list of enabled events leads to.
pub fn no_patch_stops_where_nothing_overflows()
    ensures { NoPatchStopsWhereNothingOverflows }
{}

/// Where the run overflows each full list ends with a patch that is stopped at the
/// overflow's place.
pub fn full_lists_stop_at_the_overflow()
    ensures { FullListsStopAtTheOverflow }
{}

/// The least stop at the end of a full list, by place, level, k, j and i, is the run's first
/// overflow, and there is none exactly where nothing overflows.
pub fn least_stop_is_the_first_overflow()
    ensures { LeastStopIsTheFirstOverflow }
{}
