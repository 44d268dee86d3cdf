//! The names of the shipped functions.

ghost use Rattle.std.specs.Prelude.{◌≡◌, IfOk, None};
ghost use Rattle.wf_hooks.specs.Accepts.{AcceptsHooks};
ghost use Rattle.wf_hooks.specs.Hooks.{repeated_name};
ghost use Rattle.wf_shipped.specs.Shipping.{shipped_hooks};

use crate::shipped::Shipped;
use std::alloc::{AllocError, Global};
use wf_hooks::Meanings;
use wf_model::{HookKind, HookName, Name};

/// The names of the shipped functions, with their ids: `limit` and `relax`, each of three
/// arguments. No two have one name. Each accepts every list of three numbers of 64 bits.
pub fn shipped_names(alloc: Global) -> Result<Vec<HookName>, AllocError>
    ensures names { IfOk result (λ v. v.items ≡ shipped_hooks) }
    ensures distinct { IfOk result (λ v. repeated_name v.items ≡ None) }
    ensures accepted { IfOk result (λ v. AcceptsHooks ⟦<Shipped as Meanings>⟧.accepts v.items) }
{
    let limit = Name::from_vec(Vec::from_slice(alloc, b"limit")?);
    let relax = Name::from_vec(Vec::from_slice(alloc, b"relax")?);
    let mut hooks = Vec::with_capacity(alloc, 2)?;
    hooks.push(call_of_three(limit, 0))?;
    hooks.push(call_of_three(relax, 1))?;
    Ok(hooks)
}

fn call_of_three(name: Name, id: u32) -> HookName
    ensures { result ≡ record { name = name; id = id; kind = HookKind.Call; arity = 3 } }
{
    HookName {
        name,
        id,
        kind: HookKind::Call,
        arity: 3,
    }
}
