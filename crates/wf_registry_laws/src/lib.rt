//! Laws of Registries and configs: what a Registry that was read and a namelist give is ranged.
#![tactic(auto)]

ghost use Rattle.wf_registry_laws.specs.RegistryLaws.{RegistriesAreSound};
ghost use Rattle.wf_registry_laws.specs.ConfigLaws.{ConfigsAreSound};
ghost use Rattle.wf_registry_laws.specs.FieldLaws.{LevelsAreRanged, LevelsHaveTheExtents};
ghost use Rattle.wf_registry_laws.specs.FieldLaws.{ExtentsAreTheLevels, ExtentsAreNumbered};
ghost use Rattle.wf_registry_laws.specs.FieldLaws.{PassedExtentsAreRanged, PairsAreSound};
ghost use Rattle.wf_registry_laws.specs.FieldLaws.{NamesAreTheLevels, LevelNamesAreDistinct};
ghost use Rattle.wf_registry_laws.specs.FieldLaws.{NamedFieldsArePairs};
ghost use Rattle.wf_registry_laws.specs.PartLaws.{NamedPartsAreSound};
ghost use Rattle.wf_registry_laws.specs.FileLaws.{FileVariablesAreDistinct};
ghost use Rattle.wf_registry_laws.specs.HookLaws.{LevelsUseHooks};

/// The entries of a Registry that was read keep the rules of their kinds, and no name is
/// declared twice.
pub fn registries_are_sound()
    ensures { RegistriesAreSound }
{}

/// What a namelist is bound to keeps them too: dimensions, active fields, halos and periods.
pub fn configs_are_sound()
    ensures { ConfigsAreSound }
{}

/// Where each extent in z is 1 to 128, each field level of a sound config is in its ranges.
pub fn levels_are_ranged()
    ensures { LevelsAreRanged }
{}

/// The field levels have the extents in z of the config, in order.
pub fn levels_have_the_extents()
    ensures { LevelsHaveTheExtents }
{}

/// Where these are 1 to 128, they are the extents of the field levels as numbers.
pub fn extents_are_the_levels()
    ensures { ExtentsAreTheLevels }
{}

/// By the number of its level, each extent is that of the level in a plan.
pub fn extents_are_numbered()
    ensures { ExtentsAreNumbered }
{}

/// The extents that a plan's test passes are 1 to 128.
pub fn passed_extents_are_ranged()
    ensures { PassedExtentsAreRanged }
{}

/// The levels of a field are one another's pair, with the same extents, staggering and restart.
pub fn pairs_are_sound()
    ensures { PairsAreSound }
{}

/// A table's names of levels are those of the field levels, in order.
pub fn names_are_the_levels()
    ensures { NamesAreTheLevels }
{}

/// No two field levels have one name.
pub fn level_names_are_distinct()
    ensures { LevelNamesAreDistinct }
{}

/// The two numbers that a table has for a field are levels that are one another's pair.
pub fn named_fields_are_pairs()
    ensures { NamedFieldsArePairs }
{}

/// The parts of halos and periods that a table may name have radii and widths from 1 to 6, and
/// levels that are there.
pub fn named_parts_are_sound()
    ensures { NamedPartsAreSound }
{}

/// In the files of each stream no two variables have one name.
pub fn file_variables_are_distinct()
    ensures { FileVariablesAreDistinct }
{}

/// The functions of the field levels are stored functions of their kinds.
pub fn levels_use_hooks()
    ensures { LevelsUseHooks }
{}
