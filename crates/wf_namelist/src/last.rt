//! Items that are repeated.

ghost use Rattle.std.specs.Prelude.{◌≡◌, IfOk};
ghost use Rattle.wf_model.specs.Namelist.{last_items};

use crate::item::Item;
use std::alloc::{AllocError, Global};
use std::collections::HashSet;

/// Group and name of an item.
type Key = (Vec<u8>, Vec<u8>);

/// The group and the name of an item.
fn key_of(alloc: Global, item: &Item) -> Result<Key, AllocError>
    ensures group { IfOk result (λ key. key.0.items ≡ item.now.0) }
    ensures name { IfOk result (λ key. key.1.items ≡ item.now.1) }
{
    let group = Vec::from_slice(alloc, item.0.as_slice())?;
    let name = Vec::from_slice(alloc, item.1.as_slice())?;
    Ok((group, name))
}

/// Each item once: of those of one group and name the last, at its place.
pub(crate) fn last_items(alloc: Global, mut items: Vec<Item>) -> Result<Vec<Item>, AllocError>
    ensures { IfOk result (λ v. v.items ≡ last_items items.items) }
{
    let mut seen = HashSet::new(alloc);
    let mut kept = Vec::new(alloc);
    while let Some(item) = items.pop() {
        let key = key_of(alloc, &item)?;
        let is_new = seen.insert(key)?;
        if is_new {
            kept.push(item)?;
        }
    }
    kept.as_mut_slice().reverse();
    Ok(kept)
}
