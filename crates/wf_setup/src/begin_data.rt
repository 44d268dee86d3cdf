//! What a run begins with.

ghost use Rattle.std.specs.Prelude.{◌≡◌, Some, IfOk, IfErr, IsFalse};
ghost use Rattle.wf_model.specs.Files.{Files};
ghost use Rattle.wf_model.specs.FilesRead.{inputs_read};
ghost use Rattle.wf_model.specs.Reading.{Gives};
ghost use Rattle.wf_model.specs.Sound.{IsFittingInitial, IsRangedPlan, IsSoundPlan};
ghost use Rattle.wf_stream.specs.Inputs.{StartsInTime, input_names};
ghost use Rattle.wf_setup.specs.Asked.{OnlyRead, FaultAmong};
ghost use Rattle.wf_setup.specs.Errors.{refusal_of, FaultTold};

use crate::error::SetupError;
use crate::input_refusal::input_refusal;
use std::alloc::Global;
use wf_io::Store;
use wf_model::{Initial, Plan};
use wf_stream::{InputError, read_input};

/// What a run of a plan begins with: of each domain that has an input file the levels that the file
/// gives, and 0 for all others. A plan that [`read_case`](crate::read_case) gives meets what
/// is asked.
///
/// # Errors
/// The first refusal, file by file in order of domain: status 6 with the line `input FILE KIND`,
/// with ` at N` behind where the kind has the place of a byte, counted from 0. Or a fault of the
/// store, which it counted, where nothing was read after; or want of memory. The store's files stay
/// as they were.
pub fn read_begin_data<S: Store>(
    alloc: Global,
    store: &mut S,
    plan: &Plan,
) -> Result<Initial, SetupError>
    requires sound { IsSoundPlan plan.now }
    requires ranged { IsRangedPlan plan.now }
    requires starts { StartsInTime plan.now }
    requires no_restart { IsFalse plan.now.restart }
    ensures initial { (m : Files) → S.files store.old ≡ Some m
        → Gives (λ i. i) refusal_of result (inputs_read m plan.now) }
    ensures fits { IfOk result (IsFittingInitial plan.now) }
    ensures only { OnlyRead (S.files store.old) (S.files store.new) (S.faults store.old)
        (S.faults store.new) }
    ensures fault { IfErr result
        (λ e. FaultTold e (S.faults store.old) (S.faults store.new) (S.failed store.new)) }
    ensures asked { IfErr result (λ e. FaultAmong e (input_names plan.now)) }
{
    match read_input(alloc, store, plan) {
        Ok(initial) => Ok(initial),
        Err(InputError::Memory) => Err(SetupError::Memory),
        Err(InputError::Store(name)) => Err(SetupError::Store(name)),
        Err(InputError::Fault(fault)) => Err(input_refusal(alloc, &fault)),
    }
}
