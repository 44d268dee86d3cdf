//! The table of stored functions.

ghost use Rattle.std.specs.Prelude.{◌≡◌, IfOk, IfErr, None};

use crate::answering::Answering;
use crate::error::HookError;
use crate::meanings::Meanings;
use crate::repeated::repeated;
use std::alloc::Global;
use std::marker::{Model, PhantomData};
use wf_model::{HookName, List};

/// Stored functions: their names, which contracts see, and a function that answers what M says of
/// each list that M accepts.
#[derive(Drop)]
pub struct HookTable<M: Meanings, F: Answering<M>> {
    names: List<HookName>,
    function: F,
    of: PhantomData<M>,
}

impl<M: Meanings, F: Answering<M>> Model for HookTable<M, F> {
    ghost use Rattle.std.specs.Prelude.{List as Items};
    ghost use Rattle.wf_model.specs.declared.table.HookName.{HookName};

    ghost Value = { Items HookName };

    ghost view = { λ t. t.names };

    ghost invariant = { λ t. F.keeps t.function };
}

impl<M: Meanings, F: Answering<M>> HookTable<M, F> {
    ghost use Rattle.wf_hooks.specs.Hooks.{repeated_name, TellsRepeated};

    /// The table of these names. It is refused exactly where a name stands twice, or memory runs
    /// out.
    pub fn new(alloc: Global, names: &[HookName], function: F) -> Result<HookTable<M, F>, HookError>
        requires { F.keeps function }
        ensures table { IfOk result (λ t. t ≡ names.now) }
        ensures distinct { IfOk result (λ _. repeated_name names.now ≡ None) }
        ensures refused { IfErr result (TellsRepeated names.now) }
    {
        if let Some(name) = repeated(names) {
            let name = name.copy(alloc)?;
            return Err(HookError::Repeated { name });
        }
        Ok(HookTable {
            names: List::from_vec(HookName::copy_all(alloc, names)?),
            function,
            of: PhantomData,
        })
    }

    /// The names that the table was made of, in their order. It takes no memory.
    pub fn names(&self) -> &[HookName]
        ensures { result.now ≡ self.now }
    {
        self.names.as_slice()
    }

    /// What the stored function of this id answers to these numbers.
    pub fn call(&self, id: u32, arguments: &[i64]) -> i64
        requires { M.accepts id arguments.now }
        ensures { result ≡ M.answer id arguments.now }
    {
        self.function.answer(id, arguments)
    }
}
