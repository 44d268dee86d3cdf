//! Laws of the files of a plan's streams: their names tell variables and dimensions apart.
#![tactic(auto)]

ghost use Rattle.wf_file_laws.specs.FileNames.{PlansHaveFileNames};

/// Of the levels of a sound config: no two variables have one name, dimensions of one name have one
/// length, and none has the name of one that each file has.
pub fn plans_have_file_names()
    ensures { PlansHaveFileNames }
{}
