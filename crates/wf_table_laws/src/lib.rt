//! Laws of the stencil table: what the items of a table that was read keep. They are said of each
//! table, each list of names, and each list of items that `table_of` gives of them, so of what
//! `read_table` gives.
#![tactic(auto)]

ghost use Rattle.wf_table_laws.specs.ItemLaws.{ItemsAreRanged, CrossesAreNarrow, ItemsAreFew};
ghost use Rattle.wf_table_laws.specs.ItemLaws.{PhaseNamesDiffer, MarginsAreSmall, ItemsAreOfNames};
ghost use Rattle.wf_table_laws.specs.ItemLaws.{ItemsUseLevels, ExchangesAreSound, CallsAreHooks};
ghost use Rattle.wf_table_laws.specs.ItemLaws.{NothingIsCalled};
ghost use Rattle.wf_table_laws.specs.NamesLaws.{NamesAreRanged, BoundNamesAreRanged};
ghost use Rattle.wf_table_laws.specs.NamesLaws.{NamesUseLevels, BoundTablesAreSound};

/// The numbers of the items are in their ranges, where those of the names are: radii and widths of
/// 1 to 6, calls of at most 8 arguments. An expression has at most 1024 nodes and depth 64.
pub fn items_are_ranged()
    ensures { ItemsAreRanged }
{}

/// A halo in the form of a cross has radius 1, where the names' have it.
pub fn crosses_are_narrow()
    ensures { CrossesAreNarrow }
{}

/// A table has at most 256 items.
pub fn items_are_few()
    ensures { ItemsAreFew }
{}

/// No two phases have one name, and none has the name of a part of the script.
pub fn phase_names_differ()
    ensures { PhaseNamesDiffer }
{}

/// Items in their ranges ask for at most 12 cells beyond a patch's own.
pub fn margins_are_small()
    ensures { MarginsAreSmall }
{}

/// Each halo and period has the parts of one of the names, each swap exchanges the two different
/// levels of a field, and each phase writes and reads levels that there are; a level without a z
/// letter is read at the point's own k.
pub fn items_are_of_names()
    ensures { ItemsAreOfNames }
{}

/// Each level that an item names is there, where those of the names are.
pub fn items_use_levels()
    ensures { ItemsUseLevels }
{}

/// The parts of halos and periods are as a plan asks, where their levels are among the plan's, and
/// radii and widths are in their ranges.
pub fn exchanges_are_sound()
    ensures { ExchangesAreSound }
{}

/// Each call is of a stored function that is for calls, with as many arguments as it takes.
pub fn calls_are_hooks()
    ensures { CallsAreHooks }
{}

/// Without stored functions there are no calls.
pub fn nothing_is_called()
    ensures { NothingIsCalled }
{}

/// The names of a config have numbers in their ranges, where the heads of its groups keep their
/// rules and calls have at most 8 arguments.
pub fn names_are_ranged()
    ensures { NamesAreRanged }
{}

/// So are those of a config that a namelist and a Registry that was read give.
pub fn bound_names_are_ranged()
    ensures { BoundNamesAreRanged }
{}

/// The names of a config use levels that there are.
pub fn names_use_levels()
    ensures { NamesUseLevels }
{}

/// All of this of a table that uses the names of a config, which a namelist and a Registry that was
/// read give.
pub fn bound_tables_are_sound()
    ensures { BoundTablesAreSound }
{}
