//! Reading a namelist.

ghost use Rattle.wf_model.specs.Namelist.{namelist_of};
ghost use Rattle.wf_model.specs.Reading.{Gives};
ghost use Rattle.wf_namelist.specs.NamelistError.{fault_of};

use crate::error::NamelistError;
use crate::group::groups;
use crate::last::last_items;
use crate::scan::namelist_tokens;
use std::alloc::Global;
use wf_model::{List, Namelist};

/// The items of a text that is written as a Fortran namelist, or its first refusal with its line.
///
/// A group begins at an `&` outside groups before which only blanks stand in its line, with a name
/// at once behind it (else `NoGroup`); it ends with `/`. Text outside groups is passed over, and
/// `!` in a group begins a comment to the end of the line. The end of the text, or an `&`, inside a
/// group is `UnclosedGroup`. An item is a name, `=` and one or more values (`NullValue` where none
/// stands), which blanks, line ends or one comma part; one comma may follow the last one. A name
/// with `(` at once behind it is `Subscript`. A value is a whole number (kept in 128 bits), a
/// decimal number (kept as its text), a logical, a text in `'` or `"` on one line (else
/// `UnclosedText`), or `r*value` with `r` from 1 to 21; anything else is `BadValue`. A bare word
/// with `=` behind it begins the next item. Of an item that is repeated the last is kept, at its
/// place. Names of groups and items are told in lower case; lines count from 1.
///
/// Namelists are Fortran's; that a repeat goes to 21, which forms are values, and the order and the
/// lines of the refusals are this project's own. It fails without a fault only where memory runs
/// out, or where a line has no number of 32 bits.
#[tactic(auto, unfolding(wf_model::specs::Namelist::namelist_of))]
pub fn read_namelist(alloc: Global, text: &str) -> Result<Namelist, NamelistError>
    ensures { Gives (λ r. r) fault_of result (namelist_of text.now) }
{
    let tokens = namelist_tokens(alloc, text.as_bytes())?;
    let items = groups(alloc, &tokens)?;
    let items = last_items(alloc, items)?;
    Ok(Namelist {
        items: List::from_vec(items),
    })
}
