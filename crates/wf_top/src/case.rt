//! The case of a store, where functions are stored.

ghost use Rattle.std.specs.Prelude.{◌≡◌, All, Some, IfOk, IfErr};
ghost use Rattle.wf_model.specs.Files.{Files};
ghost use Rattle.wf_model.specs.Reading.{Gives};
ghost use Rattle.wf_model.specs.Sound.{CallsHooks};
ghost use Rattle.wf_hooks.specs.Accepts.{AcceptsHooks};
ghost use Rattle.wf_setup.specs.Asked.{OnlyRead, FaultAmong, case_names};
ghost use Rattle.wf_setup.specs.Cases.{case_read};
ghost use Rattle.wf_setup.specs.Errors.{refusal_of, FaultTold};
ghost use Rattle.wf_setup.specs.SetUp.{IsSetUp};

use std::alloc::Global;
use wf_hooks::{Answering, HookTable, Meanings};
use wf_io::Store;
use wf_model::Name;
use wf_setup::{Case, SetupError, read_case};

/// The case of a store, whose table calls the stored functions.
pub(crate) fn case_of_store<S: Store, M: Meanings, F: Answering<M>>(
    alloc: Global,
    store: &mut S,
    defines: &[(Name, Name)],
    hooks: &HookTable<M, F>,
) -> Result<Case, SetupError>
    requires { AcceptsHooks M.accepts hooks.now }
    ensures sound { IfOk result (λ c. IsSetUp c.plan) }
    ensures calls { IfOk result (λ c. All (CallsHooks hooks.now) c.plan.items) }
    ensures case { (m : Files) → S.files store.old ≡ Some m
        → Gives (λ c. c) refusal_of result (case_read hooks.now m defines.now) }
    ensures only { OnlyRead (S.files store.old) (S.files store.new) (S.faults store.old)
        (S.faults store.new) }
    ensures fault { IfErr result
        (λ e. FaultTold e (S.faults store.old) (S.faults store.new) (S.failed store.new)) }
    ensures asked { IfErr result (λ e. (m : Files) → S.files store.old ≡ Some m
        → FaultAmong e (case_names m defines.now)) }
{
    read_case(alloc, store, defines, hooks.names())
}
