//! The front tells where each patch stands before each place of the script, and the lockstep run
//! goes along it.
ghost use Rattle.wf_core_laws.specs.Front.{LockstepRunIsTheFront, MemoryAfterHalvesIsTheFronts};
ghost use Rattle.wf_core_laws.specs.Front.{MemoryReportIsTheFronts, HalvesBeforeAreCounted};

/// Before each place of the script each patch of the lockstep run has the memory of the front, and
/// is stopped where the front stops it.
pub fn lockstep_run_is_the_front()
    ensures { LockstepRunIsTheFront }
{}

/// The memory of a patch after so many of its own halves is the front's before the place of its
/// next half.
pub fn memory_after_halves_is_the_fronts()
    ensures { MemoryAfterHalvesIsTheFronts }
{}

/// The memory report, which is the lockstep run's, is that of the front at the script's end.
pub fn memory_report_is_the_fronts()
    ensures { MemoryReportIsTheFronts }
{}

/// How many halves a domain's patches have before a place is the count of those that stand at
/// earlier places.
pub fn halves_before_are_counted()
    ensures { HalvesBeforeAreCounted }
{}
