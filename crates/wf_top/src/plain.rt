//! The command `plain`.

ghost use Rattle.std.specs.Prelude.{◌≡◌, None, Some, IfOk, IfErr, OnOk, map, string_bytes};
ghost use Rattle.wf_model.specs.Files.{Files};
ghost use Rattle.wf_model.specs.Outcome.{outcome_of};
ghost use Rattle.wf_model.specs.Reading.{Gives};
ghost use Rattle.wf_model.specs.StoreRuns.{Ran};
ghost use Rattle.wf_model.specs.Writes.{writes_of, summary_of};
ghost use Rattle.wf_hooks.specs.Accepts.{AcceptsHooks};
ghost use Rattle.wf_setup.specs.Asked.{OnlyRead, FaultAmong};
ghost use Rattle.wf_setup.specs.Errors.{refusal_of, FaultTold};
ghost use Rattle.wf_grid.specs.Held.{point_at_end};
ghost use Rattle.wf_grid.specs.RunEnds.{EndsBy, finished_of};
ghost use Rattle.wf_words.specs.Commands.{plain_words};
ghost use Rattle.wf_top.specs.Ends.{Said, CallsEnded};
ghost use Rattle.wf_top.specs.Plain.{storing, run_from, run_read, plain_names, whole_answer};
ghost use Rattle.wf_top.specs.Plain.{PlainEnded};
ghost use Rattle.wf_top.specs.Ready.{IsReady};
ghost use Rattle.wf_top.specs.Tool.{WordsEnded};

use crate::case::case_of_store;
use crate::check_text::store_text;
use crate::run_text::{PointNames, overflow_text, summary_text};
use crate::say::say;
use std::alloc::Global;
use wf_grid::Whole;
use wf_hooks::{Answering, HookTable, Meanings};
use wf_io::{Sink, Store};
use wf_model::{CoreError, Finished, Initial, Name, Plan};
use wf_setup::{SetupError, read_begin_data};
use wf_words::{WordsError, plain_words};

/// The plan of a run and what it begins with.
#[derive(Drop)]
struct RunParts {
    plan: Plan,
    initial: Initial,
}

/// Reads the texts of a run and then its input files.
fn read_run<S: Store, M: Meanings, F: Answering<M>>(
    alloc: Global,
    store: &mut S,
    defines: &[(Name, Name)],
    hooks: &HookTable<M, F>,
) -> Result<RunParts, SetupError>
    requires { AcceptsHooks M.accepts hooks.now }
    ensures run { (m : Files) → S.files store.old ≡ Some m
        → Gives (λ r. run_from (storing hooks.now M.answer) r.plan r.initial) refusal_of result
        (run_read (storing hooks.now M.answer) m defines.now) }
    ensures ready { IfOk result (λ r. IsReady hooks.now r.plan r.initial) }
    ensures only { OnlyRead (S.files store.old) (S.files store.new) (S.faults store.old)
        (S.faults store.new) }
    ensures fault { IfErr result
        (λ e. FaultTold e (S.faults store.old) (S.faults store.new) (S.failed store.new)) }
    ensures asked { IfErr result (λ e. (m : Files) → S.files store.old ≡ Some m
        → FaultAmong e (plain_names (storing hooks.now M.answer) m defines.now)) }
{
    let plan = match case_of_store(alloc, store, defines, hooks) {
        Ok(case) => case.plan,
        Err(error) => return Err(error),
    };
    match read_begin_data(alloc, store, &plan) {
        Ok(initial) => Ok(RunParts { plan, initial }),
        Err(error) => Err(error),
    }
}

/// Steps whole domains and writes their frames.
#[tactic(auto, using(wf_model::proofs::StoreRunLaws::stopped_none))]
fn step_run<S: Store, M: Meanings, F: Answering<M>>(
    alloc: Global,
    run: RunParts,
    store: &mut S,
    hooks: &HookTable<M, F>,
) -> Result<Finished, CoreError>
    requires ready { IsReady hooks.now run.plan run.initial }
    requires accepted { AcceptsHooks M.accepts hooks.now }
    ensures settled { OnOk result (point_at_end
        (outcome_of (run_from (storing hooks.now M.answer) run.plan run.initial)) ≡ None) }
    ensures written { OnOk result (Ran (writes_of (run_from (storing hooks.now M.answer) run.plan
        run.initial)) (S.files store.old) (S.files store.new)) }
    ensures finished { IfOk result (λ f.
        f ≡ finished_of (summary_of (run_from (storing hooks.now M.answer) run.plan run.initial))) }
    ensures error { IfErr result
        (EndsBy (run_from (storing hooks.now M.answer) run.plan run.initial) (S.files store.old)
        (S.files store.new) (S.faults store.old) (S.faults store.new) (S.failed store.new)) }
{
    match Whole::new(alloc, run.plan, run.initial) {
        Ok(whole) => whole.step_all(store, hooks),
        Err(_) => Err(CoreError::Memory),
    }
}

/// Steps a run and says how it ended.
fn end_run<S: Store, O: Sink, M: Meanings, F: Answering<M>>(
    alloc: Global,
    run: RunParts,
    store: &mut S,
    out: &mut O,
    hooks: &HookTable<M, F>,
) -> u8
    requires ready { IsReady hooks.now run.plan run.initial }
    requires accepted { AcceptsHooks M.accepts hooks.now }
    ensures { CallsEnded (whole_answer (run_from (storing hooks.now M.answer) run.plan run.initial))
        (S.files store.old) (S.files store.new) (S.faults store.old) (S.faults store.new)
        (S.failed store.new)
        (λ status text. Said status text (O.taken out.old) (O.taken out.new) (O.faults out.old)
        (O.faults out.new) result) }
{
    let names = match PointNames::new(alloc, &run.plan) {
        Ok(names) => names,
        Err(_) => return say(out, b"memory\n", 10),
    };
    match step_run(alloc, run, store, hooks) {
        Ok(finished) => match summary_text(alloc, &finished) {
            Ok(text) => say(out, text.as_bytes(), 0),
            Err(_) => say(out, b"memory\n", 10),
        },
        Err(CoreError::Overflow { point }) => match overflow_text(alloc, &names, &point) {
            Ok(text) => say(out, &text, 8),
            Err(_) => say(out, b"memory\n", 10),
        },
        Err(CoreError::Store { name }) => match store_text(alloc, name.as_slice()) {
            Ok(text) => say(out, &text, 9),
            Err(_) => say(out, b"memory\n", 10),
        },
        Err(CoreError::Memory) => say(out, b"memory\n", 10),
    }
}

/// Runs a case, and says how it ended.
#[tactic(auto, using(crate::proofs::PlainLaws::plain_lacked))]
fn plain_case<S: Store, O: Sink, M: Meanings, F: Answering<M>>(
    alloc: Global,
    defines: &[(Name, Name)],
    store: &mut S,
    out: &mut O,
    hooks: &HookTable<M, F>,
) -> u8
    requires { AcceptsHooks M.accepts hooks.now }
    ensures { PlainEnded (storing hooks.now M.answer) defines.now (S.files store.old)
        (S.files store.new) (S.faults store.old) (S.faults store.new) (S.failed store.new)
        (λ status text. Said status text (O.taken out.old) (O.taken out.new) (O.faults out.old)
        (O.faults out.new) result) }
{
    match read_run(alloc, store, defines, hooks) {
        Ok(read) => end_run(alloc, read, store, out, hooks),
        Err(SetupError::Refused(refused)) => say(out, refused.line.as_slice(), refused.status),
        Err(SetupError::Store(name)) => match store_text(alloc, name.as_slice()) {
            Ok(text) => say(out, &text, 9),
            Err(_) => say(out, b"memory\n", 10),
        },
        Err(SetupError::Memory) => say(out, b"memory\n", 10),
    }
}

/// Runs `plain` with these words, the command's name first.
pub fn end_plain<S: Store, O: Sink, M: Meanings, F: Answering<M>>(
    alloc: Global,
    words: &[String],
    store: &mut S,
    out: &mut O,
    hooks: &HookTable<M, F>,
) -> u8
    requires { AcceptsHooks M.accepts hooks.now }
    ensures { WordsEnded (PlainEnded (storing hooks.now M.answer))
        (plain_words (map string_bytes words.now)) (S.files store.old) (S.files store.new)
        (S.faults store.old) (S.faults store.new) (S.failed store.new)
        (λ status text. Said status text (O.taken out.old) (O.taken out.new) (O.faults out.old)
        (O.faults out.new) result) }
{
    match plain_words(alloc, words) {
        Ok(defines) => plain_case(alloc, &defines, store, out, hooks),
        Err(WordsError::Usage) => say(out, b"usage: wrftool COMMAND [WORDS]\n", 1),
        Err(WordsError::Memory) => say(out, b"memory\n", 10),
    }
}
