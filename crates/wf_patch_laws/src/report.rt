//! The memory report tells of the split alone.
ghost use Rattle.wf_patch_laws.specs.Report.{FrontDependsOnTheSplit, ReportDependsOnTheSplit};
ghost use Rattle.wf_patch_laws.specs.Report.{ThreadsAnswerAsSerial};

/// On two layouts with as many patches in x and in y each patch stands alike before each place.
pub fn front_depends_on_the_split()
    ensures { FrontDependsOnTheSplit }
{}

/// Two layouts with as many patches in x and in y have one memory report.
pub fn report_depends_on_the_split()
    ensures { ReportDependsOnTheSplit }
{}

/// A run in threads answers as the serial run does, whatever the number of workers.
pub fn threads_answer_as_serial()
    ensures { ThreadsAnswerAsSerial }
{}
