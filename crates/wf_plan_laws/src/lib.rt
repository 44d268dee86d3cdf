//! Laws of plans: a plan that is accepted is sound, and its numbers are in their ranges.
#![tactic(auto)]

ghost use Rattle.wf_plan_laws.specs.TestLaws.{PlansPassTheirTests};
ghost use Rattle.wf_plan_laws.specs.ReadLaws.{ReadsAreSound};
ghost use Rattle.wf_plan_laws.specs.PartLaws.{PhasesNameLevels, ItemsAreSound, FieldsAreSound};
ghost use Rattle.wf_plan_laws.specs.PartLaws.{LimitsAreKept, DomainsAreCounted, DomainsAreSingle};
ghost use Rattle.wf_plan_laws.specs.PlanLaws.{TestedPlansAreSound, PlansWithHooksAreSound};
ghost use Rattle.wf_plan_laws.specs.StartTimes.{DomainsStartInTime};

/// A plan that is given is what the config and the table say, and each group of its tests passes.
pub fn plans_pass_their_tests()
    ensures { PlansPassTheirTests }
{}

/// Where no test of reads fails, each phase reads levels that there are, within their extents.
pub fn reads_are_sound()
    ensures { ReadsAreSound }
{}

/// The phases of a table write and read levels of the plan.
pub fn phases_name_levels()
    ensures { PhasesNameLevels }
{}

/// Halos, periods and swaps of a table are sound, and phases where their reads are.
pub fn items_are_sound()
    ensures { ItemsAreSound }
{}

/// The field levels of a sound config are in their ranges, where each extent in z is 1 to 128, and
/// each has its pair.
pub fn fields_are_sound()
    ensures { FieldsAreSound }
{}

/// Where no test of limits fails, levels, cells, items of the script and bytes of files keep within
/// theirs.
pub fn limits_are_kept()
    ensures { LimitsAreKept }
{}

/// A plan has as many domains as `max_dom` says.
pub fn domains_are_counted()
    ensures { DomainsAreCounted }
{}

/// Where the values of a config are in their ranges and no test of domains and times fails, each
/// domain of its plan starts within the years 1 to 9999, however many there are.
pub fn domains_start_in_time()
    ensures { DomainsStartInTime }
{}

/// Before nests are built a plan that is accepted has at most one domain.
pub fn domains_are_single()
    ensures { DomainsAreSingle }
{}

/// What a Registry, a namelist and a table say is sound, its numbers are in their ranges, and its
/// files keep within their sizes, for any number of domains, where no test of domains and times, of
/// reads and of limits fails; calls are of stored functions.
pub fn tested_plans_are_sound()
    ensures { TestedPlansAreSound }
{}

/// A plan of a Registry, a namelist and a table that is accepted is sound, its numbers are in their
/// ranges, its files keep within their sizes, and it has one domain; calls are of stored functions.
pub fn plans_with_hooks_are_sound()
    ensures { PlansWithHooksAreSound }
{}
