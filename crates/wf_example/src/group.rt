//! The group's stored function.

ghost use Rattle.std.specs.Prelude.{◌≡◌, IfOk, None};
ghost use Rattle.wf_hooks.specs.Accepts.{AcceptsHooks};
ghost use Rattle.wf_hooks.specs.Hooks.{repeated_name};
ghost use Rattle.wf_example.specs.Meaning.{group_hooks};

use std::alloc::{AllocError, Global};
use wf_hooks::Meanings;
use wf_model::{HookKind, HookName, Name};

/// What the group's function accepts and answers.
pub struct Group;

impl Meanings for Group {
    ghost use Rattle.wf_example.specs.Meaning.{AcceptsGroup, group_meaning};

    ghost accepts = { AcceptsGroup };

    ghost answer = { group_meaning };
}

/// The function's name, `relax`, with its id. It has three arguments, and accepts every list of
/// three numbers of 64 bits.
pub fn group_names(alloc: Global) -> Result<Vec<HookName>, AllocError>
    ensures names { IfOk result (λ v. v.items ≡ group_hooks) }
    ensures distinct { IfOk result (λ v. repeated_name v.items ≡ None) }
    ensures accepted { IfOk result (λ v. AcceptsHooks ⟦<Group as Meanings>⟧.accepts v.items) }
{
    let mut names = Vec::with_capacity(alloc, 1)?;
    names.push(HookName {
        name: Name::from_vec(Vec::from_slice(alloc, b"relax")?),
        id: 0,
        kind: HookKind::Call,
        arity: 3,
    })?;
    Ok(names)
}

/// The answer of `relax(x, y, n)`, which goes the whole way from x to y at once: y. It takes no
/// memory.
pub fn group_answer(_id: u32, arguments: &[i64]) -> i64
    requires { ⟦<Group as Meanings>⟧.accepts _id arguments.now }
    ensures { result ≡ ⟦<Group as Meanings>⟧.answer _id arguments.now }
{
    arguments[1]
}
