//! The columns of a line, by their numbers.

ghost use Rattle.std.specs.Prelude.{◌≡◌, IfOk, drop};
ghost use Rattle.wf_model.specs.KeptLines.{columns};
ghost use Rattle.wf_model.specs.Entries.{column, joined_groups, only_byte};
ghost use Rattle.wf_registry_columns.specs.Words.{word_texts};

use std::alloc::{AllocError, Global};
use wf_model::Word;

/// The columns of a line of these words: all but the first.
pub fn columns_of(words: &[Word]) -> &[Word]
    ensures { word_texts result.now ≡ columns (word_texts words.now) }
{
    match words {
        [] => words,
        [_, rest @ ..] => rest,
    }
}

/// The column with this number, counted from 0; `-` where it is missing.
pub fn column(columns: &[Word], number: usize) -> &[u8]
    ensures { result.now ≡ column (word_texts columns.now) number }
{
    match columns.get(number) {
        Some(word) => word.text.as_slice(),
        None => b"-",
    }
}

/// The byte of a word of one byte, and 0 for any other word.
pub fn only_byte(word: &[u8]) -> u8
    ensures { result ≡ only_byte word.now }
{
    match word {
        [byte] => *byte,
        _ => 0,
    }
}

/// The columns behind the first two.
fn behind_two(columns: &[Word]) -> &[Word]
    ensures { word_texts result.now ≡ drop 2 (word_texts columns.now) }
{
    match columns {
        [_, _, rest @ ..] => rest,
        _ => &[],
    }
}

/// The groups of a halo or a period: the words after its name and its use column, without blanks.
pub fn joined_groups(alloc: Global, columns: &[Word]) -> Result<Vec<u8>, AllocError>
    ensures { IfOk result (λ v. v.items ≡ joined_groups (word_texts columns.now)) }
{
    let mut groups = Vec::new(alloc);
    let tail = behind_two(columns);
    for word in tail {
        groups.extend_from_slice(word.text.as_slice())?;
    }
    Ok(groups)
}
