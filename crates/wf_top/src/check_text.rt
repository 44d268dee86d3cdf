//! What `check` prints.

ghost use Rattle.std.specs.Prelude.{◌≡◌, IfOk, flat_map};
ghost use Rattle.wf_top.specs.Ends.{store_text};
ghost use Rattle.wf_top.specs.Checks.{field_line, read_text};

use std::alloc::{AllocError, Global};
use wf_config::names;
use wf_model::{Config, HookName, Name};

/// A line for each level.
fn field_lines(alloc: Global, levels: &[(Name, bool)]) -> Result<Vec<u8>, AllocError>
    ensures { IfOk result (λ v. v.items ≡ flat_map field_line levels.now) }
{
    let mut text = Vec::new(alloc);
    for level in levels {
        text.extend_from_slice(b"field ")?;
        text.extend_from_slice(level.0.as_slice())?;
        text.push(b'\n')?;
    }
    Ok(text)
}

/// The active field levels in order, and that all was read.
pub fn read_text(alloc: Global, config: &Config) -> Result<Vec<u8>, AllocError>
    ensures { IfOk result (λ v. v.items ≡ read_text config.now) }
{
    let hooks: [HookName; 0] = [];
    let names = names(alloc, config, &hooks)?;
    let mut text = field_lines(alloc, names.levels.as_slice())?;
    text.extend_from_slice(b"read\n")?;
    Ok(text)
}

/// That a call of the store on this file failed.
pub fn store_text(alloc: Global, name: &[u8]) -> Result<Vec<u8>, AllocError>
    ensures { IfOk result (λ v. v.items ≡ store_text name.now) }
{
    let mut text = Vec::from_slice(alloc, b"store ")?;
    text.extend_from_slice(name)?;
    text.push(b'\n')?;
    Ok(text)
}
