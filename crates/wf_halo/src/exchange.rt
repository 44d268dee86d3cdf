//! The entry of a place of the script.

ghost use Rattle.std.specs.Prelude.{◌≡◌, ◌<◌, length};
ghost use Rattle.wf_model.specs.Outcome.{script, entry_at};

use wf_model::{Run, RunName, ScriptEntry};

/// The entry of a place of the script, from 0.
pub(crate) fn entry<'a, N: RunName>(run: &'a Run<'_, N>, place: u32) -> &'a ScriptEntry
    requires { place < length (script N.run) }
    ensures { result.now ≡ entry_at N.run place }
{
    &run.script()[place as usize]
}
