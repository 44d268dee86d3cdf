//! The stored functions of feedback, start and force of a field.

ghost use Rattle.std.specs.Prelude.{◌≡◌, ◌==◌, ◌&&◌, codes, find, map, reverse};
ghost use Rattle.std.specs.Option.{option_copied, option_map};
ghost use Rattle.std.specs.Str.{bytes_eq};
ghost use Rattle.wf_model.specs.Io.{last_fed};
ghost use Rattle.wf_model.specs.PlanFields.{function_name, hook_id, hook_named};
ghost use Rattle.wf_plan_fields.specs.IoParts.{is_fed, letter_of, named_in, part_of};
ghost use Rattle.wf_plan_fields.specs.LevelFields.{is_for, usual_of};

use crate::io::{Part, Use};
use wf_model::{HookKind, HookName};

/// Whether a part is of this use.
fn is_fed(part: &Part, purpose: Use) -> bool
    ensures { result ≡ is_fed (letter_of purpose) (part_of part.now) }
{
    match (part, purpose) {
        (Part::Fed(Use::Up, _), Use::Up)
        | (Part::Fed(Use::Down, _), Use::Down)
        | (Part::Fed(Use::Edge, _), Use::Edge) => true,
        _ => false,
    }
}

/// The last part of this use.
fn last_fed(parts: &[Part], purpose: Use) -> Option<&Part>
    ensures { option_copied result
        ≡ find (λ p. is_fed (letter_of purpose) (part_of p)) (reverse parts.now) }
{
    parts.iter().rev().find(|part| is_fed(part, purpose))
}

/// The name that a part has, or else the usual one.
fn named_in<'a>(usual: &'a [u8], part: &'a Part) -> &'a [u8]
    ensures { result.now ≡ named_in usual.now (part_of part.now) }
{
    match part {
        Part::Fed(_, Some(name)) => name.as_slice(),
        _ => usual,
    }
}

fn is_for(purpose: Use, kind: HookKind) -> bool
    ensures { result ≡ is_for purpose kind }
{
    match (purpose, kind) {
        (Use::Up, HookKind::Average)
        | (Use::Down, HookKind::Interp)
        | (Use::Edge, HookKind::Interp) => true,
        _ => false,
    }
}

/// The first stored function of this name and use.
fn find_hook<'a>(hooks: &'a [HookName], purpose: Use, name: &[u8]) -> Option<&'a HookName>
    ensures { option_copied result ≡ hook_named hooks.now (is_for purpose) name.now }
{
    hooks.iter().find(|hook| hook.name.as_slice() == name && is_for(purpose, hook.kind))
}

/// The name of the usual function of a use.
fn usual_of(purpose: Use) -> &'static [u8]
    ensures { result.now ≡ usual_of purpose }
{
    match purpose {
        Use::Up => b"mean".as_slice(),
        Use::Down => b"bilin".as_slice(),
        Use::Edge => b"bilin".as_slice(),
    }
}

fn id_of(hook: Option<&HookName>) -> Option<u32>
    ensures { result ≡ option_map (λ h. h.id) (option_copied hook.entry) }
{
    match hook {
        Some(hook) => Some(hook.id),
        None => None,
    }
}

/// The id of the stored function of this use: the last part of its letter names it, or means the
/// usual one; none where there is no such part or no such function.
pub(crate) fn hook_id(hooks: &[HookName], parts: &[Part], purpose: Use) -> Option<u32>
    ensures { result ≡ hook_id hooks.now (is_for purpose)
        (function_name (usual_of purpose) (last_fed (letter_of purpose) (map part_of parts.now))) }
{
    match last_fed(parts, purpose) {
        Some(part) => id_of(find_hook(hooks, purpose, named_in(usual_of(purpose), part))),
        None => None,
    }
}
