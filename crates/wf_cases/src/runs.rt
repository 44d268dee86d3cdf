//! Worked cases of runs: grids, bytes, overflows, events.

ghost use Rattle.wf_cases.specs.DemoCases.{DemoOnePatch, DemoInItsOwnWords};
ghost use Rattle.wf_cases.specs.RunCases.{OldValues, BothPatchesOverflow, ExtendedPhase};
ghost use Rattle.wf_cases.specs.RunCases.{PeriodicGrid, FarGrid, RunOfNoLength, NestOverflow};
ghost use Rattle.wf_cases.specs.RunCases.{FileNames, RelaxHook, StaggeredExtraPoint};
ghost use Rattle.wf_cases.specs.RunCases.{StreamWithoutFields};
ghost use Rattle.wf_cases.specs.CountCases.{Counts, ThreeDomains, LayoutRefusals};
ghost use Rattle.wf_cases.specs.GreatestCases.{GreatestMemories, GreatestEvents, GreatestScripts};
ghost use Rattle.wf_cases.specs.RestartCases.{RestartTimes};
ghost use Rattle.wf_cases.specs.EventCases.{EventsInOrder, HaloMemories};

/// The demo on 3 by 3 points: its grid, its file byte for byte, and its summary.
#[tactic(auto, using(crate::proofs::DemoCases::demo_one_patch))]
pub fn demo_one_patch()
    ensures { DemoOnePatch }
{}

/// The demo's words, summary and memories by its own short definitions.
#[tactic(auto, using(crate::proofs::DemoCases::demo_in_its_own_words))]
pub fn demo_in_its_own_words()
    ensures { DemoInItsOwnWords }
{}

/// A phase reads the values before it.
#[tactic(auto, using(crate::proofs::RunCases::old_values))]
pub fn old_values()
    ensures { OldValues }
{}

/// The least point that overflows is named.
#[tactic(auto, using(crate::proofs::RunCases::both_patches_overflow))]
pub fn both_patches_overflow()
    ensures { BothPatchesOverflow }
{}

/// Two phases, of which the second reads what the first wrote.
#[tactic(auto, using(crate::proofs::RunCases::extended_phase))]
pub fn extended_phase()
    ensures { ExtendedPhase }
{}

/// A row that wraps.
#[tactic(auto, using(crate::proofs::RunCases::periodic_grid))]
pub fn periodic_grid()
    ensures { PeriodicGrid }
{}

/// Numbers from three points away.
#[tactic(auto, using(crate::proofs::RunCases::far_grid))]
pub fn far_grid()
    ensures { FarGrid }
{}

/// What may come when.
#[tactic(auto, using(crate::proofs::EventCases::events_in_order))]
pub fn events_in_order()
    ensures { EventsInOrder }
{}

/// The sums of three patches' memories after a halo.
#[tactic(auto, using(crate::proofs::EventCases::halo_memories))]
pub fn halo_memories()
    ensures { HaloMemories }
{}

/// A run of no length has one frame.
#[tactic(auto, using(crate::proofs::RunCases::run_of_no_length))]
pub fn run_of_no_length()
    ensures { RunOfNoLength }
{}

/// The first overflow of a nest.
#[tactic(auto, using(crate::proofs::RunCases::nest_overflow))]
pub fn nest_overflow()
    ensures { NestOverflow }
{}

/// The name of a file has its stream, its domain and the date of its first frame.
#[tactic(auto, using(crate::proofs::RunCases::file_names))]
pub fn file_names()
    ensures { FileNames }
{}

/// A stored function in an expression.
#[tactic(auto, using(crate::proofs::RunCases::relax_hook))]
pub fn relax_hook()
    ensures { RelaxHook }
{}

/// The last patch has the extra point of a staggered field.
#[tactic(auto, using(crate::proofs::RunCases::staggered_extra_point))]
pub fn staggered_extra_point()
    ensures { StaggeredExtraPoint }
{}

/// The sizes of a file that has times alone.
#[tactic(auto, using(crate::proofs::RunCases::stream_without_fields))]
pub fn stream_without_fields()
    ensures { StreamWithoutFields }
{}

/// Cells, items of the script, bytes and events, as they are counted beforehand.
#[tactic(auto, using(crate::proofs::CountCases::counts))]
pub fn counts()
    ensures { Counts }
{}

/// Too many patches in a direction, in all, and too many tiles.
#[tactic(auto, using(crate::proofs::CountCases::layout_refusals))]
pub fn layout_refusals()
    ensures { LayoutRefusals }
{}

/// The script of three domains as it is made, and as steps and frames of each domain tell.
#[tactic(auto, using(crate::proofs::CountCases::three_domains))]
pub fn three_domains()
    ensures { ThreeDomains }
{}

/// As many patches, tiles and cells of memories as there may be, and too many.
#[tactic(auto, using(crate::proofs::GreatestCases::memories))]
pub fn greatest_memories()
    ensures { GreatestMemories }
{}

/// As many events as there may be, and too many.
#[tactic(auto, using(crate::proofs::GreatestCases::events))]
pub fn greatest_events()
    ensures { GreatestEvents }
{}

/// As many items of the script of eight domains as there may be, and one more.
#[tactic(auto, using(crate::proofs::GreatestCases::scripts))]
pub fn greatest_scripts()
    ensures { GreatestScripts }
{}

/// Three steps with a restart after each.
#[tactic(auto, using(crate::proofs::RestartCases::restart_times))]
pub fn restart_times()
    ensures { RestartTimes }
{}
