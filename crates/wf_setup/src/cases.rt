//! A case: the config of a store, and the plan of it and of the stencil table.

ghost use Rattle.std.specs.Prelude.{◌≡◌, All, Ok, Some, IfOk, IfErr, codes};
ghost use Rattle.wf_model.specs.Reading.{Gives, told_as};
ghost use Rattle.wf_model.specs.Files.{Files};
ghost use Rattle.wf_model.specs.FilesRead.{plan_made, table_text};
ghost use Rattle.wf_model.specs.PlanOf.{plan_of};
ghost use Rattle.wf_model.specs.Refusals.{plan_refusal};
ghost use Rattle.wf_model.specs.Sound.{CallsHooks};
ghost use Rattle.wf_model.specs.Hooks.{HasFewArguments};
ghost use Rattle.wf_setup.specs.Errors.{refusal_of, NoFault, FaultOn, FaultTold};
ghost use Rattle.wf_setup.specs.Asked.{OnlyRead, FaultAmong, case_names};
ghost use Rattle.wf_setup.specs.Cases.{case_read};
ghost use Rattle.wf_setup.specs.ReadTexts.{IsTableOf, IsPlanOf};
ghost use Rattle.wf_setup.specs.SetUp.{IsSetUp};

use crate::configs::read_config;
use crate::error::{SetupError, io_error};
use crate::plan_refusal::plan_refusal;
use crate::refusals::{numbered, table_refusal};
use std::alloc::Global;
use wf_config::names;
use wf_io::Store;
use wf_model::{Config, HookName, Item, List, Name, Plan};
use wf_plan::{PlanError, plan};
use wf_table::{TableError, read_table};

/// What a run is set up from: the config of Registry and namelist, and the plan of it and of the
/// stencil table.
#[derive(Drop)]
pub struct Case {
    pub config: Config,
    pub plan: Plan,
}

#[tactic(auto, using(crate::proofs::Faults::tells_no_fault))]
fn items_of_text(
    alloc: Global,
    config: &Config,
    text: &[u8],
    hooks: &[HookName],
) -> Result<List<Item>, SetupError>
    ensures table { IfOk result (IsTableOf hooks.now config.now) }
    ensures items { Gives (λ i. i) refusal_of result
        (table_text config.now hooks.now (Some text.now)) }
    ensures never { IfErr result NoFault }
{
    let names = match names(alloc, config, hooks) {
        Ok(names) => names,
        Err(_) => return Err(SetupError::Memory),
    };
    match read_table(alloc, text, &names) {
        Ok(items) => Ok(items),
        Err(TableError::Memory) => Err(SetupError::Memory),
        Err(TableError::Fault(fault)) => Err(table_refusal(alloc, fault)),
    }
}

/// The stencil table of a store.
#[tactic(auto, using(crate::proofs::Faults::io_free, crate::proofs::Faults::io_on, crate::proofs::Faults::io_told, crate::proofs::Faults::tells_no_fault, crate::proofs::Faults::told_of_none, crate::proofs::Faults::on_of_none, crate::proofs::Faults::fails_free))]
fn items_of_store<S: Store>(
    alloc: Global,
    store: &mut S,
    config: &Config,
    hooks: &[HookName],
) -> Result<List<Item>, SetupError>
    ensures table { IfOk result (IsTableOf hooks.now config.now) }
    ensures items { (m : Files) → S.files store.old ≡ Some m → Gives (λ i. i) refusal_of result
        (table_text config.now hooks.now (m (codes "stencil.table"))) }
    ensures only { OnlyRead (S.files store.old) (S.files store.new) (S.faults store.old)
        (S.faults store.new) }
    ensures fault { IfErr result
        (λ e. FaultTold e (S.faults store.old) (S.faults store.new) (S.failed store.new)) }
    ensures on { IfErr result (λ e. FaultOn e (codes "stencil.table")) }
{
    match store.read(alloc, "stencil.table") {
        Ok(None) => Err(numbered(alloc, 4, b"table", 0, b"MissingFile")),
        Ok(Some(text)) => items_of_text(alloc, config, &text, hooks),
        Err(error) => Err(io_error(alloc, "stencil.table", error)),
    }
}

/// The plan of a config and of the items of its table, where these functions are stored.
#[tactic(auto, using(crate::proofs::Faults::tells_no_fault))]
fn plan_of_items(
    alloc: Global,
    config: &Config,
    items: List<Item>,
    hooks: &[HookName],
) -> Result<Plan, SetupError>
    ensures planned { IfOk result (λ p. plan_of config.now hooks.now items ≡ Ok p) }
    ensures plan { Gives (λ p. p) refusal_of result
        (told_as plan_refusal (plan_of config.now hooks.now items)) }
    ensures never { IfErr result NoFault }
{
    match plan(alloc, config, items, hooks) {
        Ok(plan) => Ok(plan),
        Err(PlanError::Memory) => Err(SetupError::Memory),
        Err(PlanError::Fault(fault)) => Err(plan_refusal(alloc, &fault)),
    }
}

/// The plan of a config and of the stencil table of a store.
#[tactic(auto, using(crate::proofs::CaseChain::plan_table_fails, crate::proofs::CaseChain::plan_with_table, crate::proofs::Faults::told_of_none, crate::proofs::Faults::on_of_none))]
fn plan_of_store<S: Store>(
    alloc: Global,
    store: &mut S,
    config: &Config,
    hooks: &[HookName],
) -> Result<Plan, SetupError>
    ensures planned { IfOk result (IsPlanOf hooks.now config.now) }
    ensures plan { (m : Files) → S.files store.old ≡ Some m
        → Gives (λ p. p) refusal_of result (plan_made hooks.now m config.now) }
    ensures only { OnlyRead (S.files store.old) (S.files store.new) (S.faults store.old)
        (S.faults store.new) }
    ensures fault { IfErr result
        (λ e. FaultTold e (S.faults store.old) (S.faults store.new) (S.failed store.new)) }
    ensures on { IfErr result (λ e. FaultOn e (codes "stencil.table")) }
{
    match items_of_store(alloc, store, config, hooks) {
        Ok(items) => plan_of_items(alloc, config, items, hooks),
        Err(error) => Err(error),
    }
}

/// The case of a store: its config, as [`read_config`] reads it, and then the plan of it and of
/// `stencil.table`, which calls stored functions of these names.
///
/// Also where the store does not tell its files, the plan is sound, with one domain that starts
/// within the years 1 to 9999, is no restart and writes no restart files. So the begin data of its
/// run can be read.
///
/// # Errors
/// Those of `read_config`; then the table's first refusal, status 4 with the line `table LINE
/// KIND`; and then the first test of the plan that fails, status 4 with the line `plan KIND WORDS`.
pub fn read_case<S: Store>(
    alloc: Global,
    store: &mut S,
    defines: &[(Name, Name)],
    hooks: &[HookName],
) -> Result<Case, SetupError>
    requires { All HasFewArguments hooks.now }
    ensures sound { IfOk result (λ c. IsSetUp c.plan) }
    ensures calls { IfOk result (λ c. All (CallsHooks hooks.now) c.plan.items) }
    ensures case { (m : Files) → S.files store.old ≡ Some m
        → Gives (λ c. c) refusal_of result (case_read hooks.now m defines.now) }
    ensures only { OnlyRead (S.files store.old) (S.files store.new) (S.faults store.old)
        (S.faults store.new) }
    ensures fault { IfErr result
        (λ e. FaultTold e (S.faults store.old) (S.faults store.new) (S.failed store.new)) }
    ensures asked { IfErr result (λ e. (m : Files) → S.files store.old ≡ Some m
        → FaultAmong e (case_names m defines.now)) }
{
    let config = match read_config(alloc, store, defines) {
        Ok(config) => config,
        Err(error) => return Err(error),
    };
    match plan_of_store(alloc, store, &config, hooks) {
        Ok(plan) => Ok(Case { config, plan }),
        Err(error) => Err(error),
    }
}
