//! The columns of a state line, and the names that it declares.

ghost use Rattle.std.specs.Prelude.{◌≡◌, ◌++◌, IfOk, map};
ghost use Rattle.wf_model.specs.Entries.{is_two, level_names, staggered, variable_of, variables_of};
ghost use Rattle.wf_model.specs.Judging.{is_short, is_state_type};
ghost use Rattle.wf_registry_columns.specs.Texts.{texts};

use std::alloc::{AllocError, Global};
use wf_text::{digits_up_to, is_dash, upper};

/// Whether the word is a type of a field.
pub fn is_state_type(word: &[u8]) -> bool
    ensures { result ≡ is_state_type word.now }
{
    word == b"integer".as_slice()
        || word == b"real".as_slice()
        || word == b"double".as_slice()
        || word == b"character".as_slice()
        || word == b"logical".as_slice()
}

/// Whether the levels column is 2.
pub fn is_two(levels: &[u8]) -> bool
    ensures { result ≡ is_two levels.now }
{
    matches!(digits_up_to(levels, 2), Some(2))
}

/// Whether a description, or units, have at most 256 bytes.
pub fn is_short(word: &[u8]) -> bool
    ensures { result ≡ is_short word.now }
{
    word.len() <= 256
}

fn joined(alloc: Global, front: &[u8], end: &[u8]) -> Result<Vec<u8>, AllocError>
    ensures { IfOk result (λ v. v.items ≡ front.now ++ end.now) }
{
    let mut word = Vec::from_slice(alloc, front)?;
    word.extend_from_slice(end)?;
    Ok(word)
}

/// The name of a dimension that is staggered.
pub fn staggered(alloc: Global, dataset: &[u8]) -> Result<Vec<u8>, AllocError>
    ensures { IfOk result (λ v. v.items ≡ staggered dataset.now) }
{
    joined(alloc, dataset, b"_stag")
}

/// The names of the levels of a field: its symbol, or of a field with two levels the symbol with
/// `_1` and with `_2`.
pub fn level_names(alloc: Global, symbol: &[u8], levels: &[u8]) -> Result<Vec<Vec<u8>>, AllocError>
    ensures { IfOk result (λ v. texts v.items ≡ level_names symbol.now levels.now) }
{
    let mut names = Vec::new(alloc);
    if is_two(levels) {
        names.push(joined(alloc, symbol, b"_1")?)?;
        names.push(joined(alloc, symbol, b"_2")?)?;
    } else {
        names.push(Vec::from_slice(alloc, symbol)?)?;
    }
    Ok(names)
}

/// The name of a field's variable: its dname, or its symbol in upper case where this is `-`.
pub fn variable_of(alloc: Global, symbol: &[u8], dname: &[u8]) -> Result<Vec<u8>, AllocError>
    ensures { IfOk result (λ v. v.items ≡ variable_of symbol.now dname.now) }
{
    if is_dash(dname) {
        upper(alloc, symbol)
    } else {
        Vec::from_slice(alloc, dname)
    }
}

/// The names of a field that stand in files: its variable's, and of a field with two levels those
/// of both levels too.
pub fn variables_of(
    alloc: Global,
    symbol: &[u8],
    levels: &[u8],
    dname: &[u8],
) -> Result<Vec<Vec<u8>>, AllocError>
    ensures { IfOk result (λ v. texts v.items ≡ variables_of symbol.now levels.now dname.now) }
{
    let variable = variable_of(alloc, symbol, dname)?;
    let mut names = Vec::new(alloc);
    if is_two(levels) {
        let first = joined(alloc, &variable, b"_1")?;
        let second = joined(alloc, &variable, b"_2")?;
        names.push(variable)?;
        names.push(first)?;
        names.push(second)?;
    } else {
        names.push(variable)?;
    }
    Ok(names)
}
