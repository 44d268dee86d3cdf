//! Look-ups of names.

ghost use Rattle.std.specs.Prelude.{◌≡◌, ◌<◌, IfOk, length, position};
ghost use Rattle.std.specs.Option.{option_copied};
ghost use Rattle.wf_model.specs.Letters.{is_among, lower};
ghost use Rattle.wf_model.specs.Reading.{Gives};
ghost use Rattle.wf_model.specs.Table.{entry_named, field_named};
ghost use Rattle.wf_model.specs.TableNames.{called_hook, field_name, is_called, is_level, level};
ghost use Rattle.wf_model.specs.TableNames.{most_dk, reserved};
ghost use Rattle.wf_table.specs.Faults.{kind_of};
ghost use Rattle.wf_table.specs.Place.{at_of};

use crate::error::LineError;
use crate::place::{Place, is_name_of, is_word};
use wf_model::{HookKind, HookName, Name, Names, TableKind};

/// Whether the word is one of the language, which no field has.
fn is_reserved(word: &[u8]) -> bool
    ensures { result ≡ is_among (lower word.now) reserved }
{
    is_word(word, b"i")
        || is_word(word, b"j")
        || is_word(word, b"k")
        || is_word(word, b"step")
        || is_word(word, b"min")
        || is_word(word, b"max")
        || is_word(word, b"if")
        || is_word(word, b"then")
        || is_word(word, b"else")
        || is_word(word, b"call")
        || is_word(word, b"div")
        || is_word(word, b"mod")
}

/// The name of a field or a level, which isn't passed.
pub(crate) fn field_name<'a>(at: Place<'a>) -> Result<&'a [u8], LineError>
    ensures name { Gives (λ w. lower w.now) kind_of result (field_name (at_of at.entry)) }
    ensures some { IfOk result (λ w. 0 < length at.entry.tokens.now) }
{
    if is_reserved(at.text()) {
        Err(at.refusal())
    } else {
        at.name()
    }
}

fn level_named(levels: &[(Name, bool)], word: &[u8]) -> Option<usize>
    ensures { result ≡ position (is_level (lower word.now)) levels.now }
{
    levels
        .iter()
        .position(|level| is_name_of(level.0.as_slice(), word))
}

/// The number of the level that the next token names.
pub(crate) fn level<'a>(names: &Names, at: Place<'a>) -> Result<(u32, Place<'a>), LineError>
    ensures level { Gives (λ x. (x.0, at_of x.1)) kind_of result
        (level names.now (at_of at.entry)) }
    ensures length { IfOk result (λ x. length x.1.tokens.now < length at.entry.tokens.now) }
{
    let name = field_name(at)?;
    match level_named(names.levels.as_slice(), name) {
        Some(place) => {
            let level = u32::try_from(place).map_err(|_| LineError::Memory)?;
            Ok((level, at.past()))
        }
        None => Err(LineError::Kind(TableKind::UnknownField)),
    }
}

/// How far from its point a read of the level may stand in k: one without a z letter has one level.
pub(crate) fn most_dk(names: &Names, level: u32) -> u64
    ensures { result ≡ most_dk names.now level }
{
    match names.levels.as_slice().get(level as usize) {
        Some((_, true)) => 127,
        _ => 0,
    }
}

/// What a list has beside a name.
pub(crate) fn entry_named<'a, T>(entries: &'a [(Name, T)], word: &[u8]) -> Option<&'a (Name, T)>
    ensures { option_copied result ≡ entry_named entries.now (lower word.now) }
{
    entries.iter().find(|x| is_name_of(x.0.as_slice(), word))
}

/// The field of this symbol.
pub(crate) fn field_named<'a>(names: &'a Names, word: &[u8]) -> Option<&'a (Name, u32, u32)>
    ensures { option_copied result ≡ field_named names.now (lower word.now) }
{
    names
        .fields
        .as_slice()
        .iter()
        .find(|x| is_name_of(x.0.as_slice(), word))
}

fn is_called(kind: HookKind) -> bool
    ensures { result ≡ is_called kind }
{
    match kind {
        HookKind::Call => true,
        _ => false,
    }
}

/// The stored function that a table may call by this name.
pub(crate) fn called_hook<'a>(names: &'a Names, word: &[u8]) -> Option<&'a HookName>
    ensures { option_copied result ≡ called_hook names.now (lower word.now) }
{
    names.hooks.as_slice().iter().find(|hook| is_name_of(hook.name.as_slice(), word)
        && is_called(hook.kind))
}
