//! Laws of the built-in case. Its short definitions (the grid after each step, the store calls, the
//! summary, the memory lines, the answer) are the general ones of its plan: the outcome, the writes
//! and the lockstep run. Each function has a law as its contract and nothing to do. Rows and
//! columns count from 1, places of the script from 0.
#![tactic(auto)]

ghost use Rattle.wf_demo_laws.specs.DemoLaws.{DemoAnswerIsItsCommands, DemoCallsAreItsWrites};
ghost use Rattle.wf_demo_laws.specs.DemoLaws.{DemoGoesThrough, DemoGridIsItsOutcome};
ghost use Rattle.wf_demo_laws.specs.DemoLaws.{DemoIsAccepted, DemoIsInRange};
ghost use Rattle.wf_demo_laws.specs.DemoLaws.{DemoMemoriesAreItsReport, DemoScriptIsItsSteps};
ghost use Rattle.wf_demo_laws.specs.DemoLaws.{DemoSummaryIsItsRuns, DemoValuesStayBelowHundred};
ghost use Rattle.wf_demo_laws.specs.DemoLaws.{WordsAreAnsweredByTheDemo};

/// The items of the demo's run are a frame, and then the halo, the phase and the frame of
/// each step.
pub fn demo_script_is_its_steps()
    ensures { DemoScriptIsItsSteps }
{}

/// The demo's values stay from 0 to 99, at any place and after any number of steps.
pub fn demo_values_stay_below_hundred()
    ensures { DemoValuesStayBelowHundred }
{}

/// No item of the demo's run overflows.
pub fn demo_goes_through()
    ensures { DemoGoesThrough }
{}

/// The demo's values after n steps are the numbers of its run's grid, before the frame that follows
/// these steps (place 3n of the script) and after it.
pub fn demo_grid_is_its_outcome()
    ensures { DemoGridIsItsOutcome }
{}

/// The demo's store calls are the writes of its run, as long as the one file takes all frames: up
/// to 999 steps.
pub fn demo_calls_are_its_writes()
    ensures { DemoCallsAreItsWrites }
{}

/// The demo's summary is that of its run, up to 999 steps.
pub fn demo_summary_is_its_runs()
    ensures { DemoSummaryIsItsRuns }
{}

/// The demo's plan is sound, each layout of it by columns is, and the halo check accepts it.
pub fn demo_is_accepted()
    ensures { DemoIsAccepted }
{}

/// The demo's plan keeps the ranges and limits of plans and its files fit, of up to 200 points in x
/// and in y and 100,000 steps; a layout of up to 256 columns keeps its ranges; what the run begins
/// with fits the plan, and no stored function is used.
pub fn demo_is_in_range()
    ensures { DemoIsInRange }
{}

/// The demo's memory lines are those of its lockstep run on columns, with a patch for each column
/// at most: a patch's own columns have all steps behind them, and the one column beside each end
/// one step less, or none where there are none.
pub fn demo_memories_are_its_report()
    ensures { DemoMemoriesAreItsReport }
{}

/// The demo's answer is that of its command: its status, what it prints and its store calls, up to
/// 999 steps. More patches than columns are refused by both.
pub fn demo_answer_is_its_commands()
    ensures { DemoAnswerIsItsCommands }
{}

/// Where the demo is the only command that words are read as, each list of words is answered as the
/// short definitions say: with the demo, its refusal, or the usage line.
pub fn words_are_answered_by_the_demo()
    ensures { WordsAreAnsweredByTheDemo }
{}
