//! Worked cases of texts: lines, the Registry, namelists and the stencil table.

ghost use Rattle.wf_cases.specs.LineCases.{LogicalLines};
ghost use Rattle.wf_cases.specs.RegistryCases.{RegistryRefusals, RegistryUnsupported, RegistryRead};
ghost use Rattle.wf_cases.specs.RegistryCases.{RegistryFiles};
ghost use Rattle.wf_cases.specs.NamelistCases.{NamelistKinds, NamelistValues};
ghost use Rattle.wf_cases.specs.TableCases.{TableRefusals, TableTrees, TableLimits};

/// Lines that go on, quoted words, comments, columns, and the two faults of a text.
#[tactic(auto, using(crate::proofs::LineCases::logical_lines))]
pub fn logical_lines()
    ensures { LogicalLines }
{}

/// Each kind of refusal of a Registry, at its line.
#[tactic(auto, using(crate::proofs::RegistryCases::registry_refusals))]
pub fn registry_refusals()
    ensures { RegistryRefusals }
{}

/// What WRF's Registry has and this framework leaves out is refused as such.
#[tactic(auto, using(crate::proofs::RegistryCases::registry_unsupported))]
pub fn registry_unsupported()
    ensures { RegistryUnsupported }
{}

/// Entries that are read, lines that an ifdef keeps, and an include in its place.
#[tactic(auto, using(crate::proofs::RegistryCases::registry_read))]
pub fn registry_read()
    ensures { RegistryRead }
{}

/// A Registry has at most 64 files.
#[tactic(auto, using(crate::proofs::RegistryCases::registry_files))]
pub fn registry_files()
    ensures { RegistryFiles }
{}

/// Each kind of refusal of a namelist, at its line.
#[tactic(auto, using(crate::proofs::NamelistCases::namelist_kinds))]
pub fn namelist_kinds()
    ensures { NamelistKinds }
{}

/// Numbers, logicals, texts, repeated values, comments and repeated items.
#[tactic(auto, using(crate::proofs::NamelistCases::namelist_values))]
pub fn namelist_values()
    ensures { NamelistValues }
{}

/// Each kind of refusal of a stencil table, at its line and column.
#[tactic(auto, using(crate::proofs::TableCases::table_refusals))]
pub fn table_refusals()
    ensures { TableRefusals }
{}

/// Items and expressions as they are read.
#[tactic(auto, using(crate::proofs::TableCases::table_trees))]
pub fn table_trees()
    ensures { TableTrees }
{}

/// The greatest depth, the greatest number of nodes, and the greatest number of items.
#[tactic(auto, using(crate::proofs::TableCases::table_limits))]
pub fn table_limits()
    ensures { TableLimits }
{}
