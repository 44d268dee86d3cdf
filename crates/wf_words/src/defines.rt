//! Names that are defined for the Registry's ifdefs, each with a value: `NAME=VALUE,NAME=VALUE`.

ghost use Rattle.std.specs.Prelude.{◌≡◌, ◌+◌, ◌<◌, ◌∷◌, IfSome, length, position};
ghost use Rattle.std.specs.List.{after_first, before_first, slice_split};
ghost use Rattle.wf_model.specs.KeptLines.{is_equals};
ghost use Rattle.wf_model.specs.Reading.{Gives};
ghost use Rattle.wf_words.specs.Commands.{defines_of, fault_of, is_comma, pair_of, parts, left_of};

use crate::error::WordsError;
use std::alloc::Global;
use wf_model::Name;

fn equals_at(word: &[u8]) -> Option<usize>
    ensures place { result ≡ position is_equals word.now }
    ensures bound { IfSome result (λ k. k < length word.now) }
{
    word.iter().position(|b| *b == b'=')
}

/// The bytes before and after the first `=`.
fn parted(word: &[u8]) -> (&[u8], &[u8])
    ensures before { result.0.now ≡ before_first is_equals word.now }
    ensures after { result.1.now ≡ after_first is_equals word.now }
{
    match equals_at(word) {
        None => (word, &word[word.len()..]),
        Some(place) => (&word[..place], &word[place + 1..]),
    }
}

/// A name and its value.
fn pair(alloc: Global, word: &[u8]) -> Result<(Name, Name), WordsError>
    ensures { Gives (λ p. p) fault_of result (pair_of word.now) }
{
    let (name, value) = parted(word);
    if !(Name::is_name(name) && Name::is_name(value)) {
        return Err(WordsError::Usage);
    }
    let name = Name::from_vec(Vec::from_slice(alloc, name)?);
    let value = Name::from_vec(Vec::from_slice(alloc, value)?);
    Ok((name, value))
}

fn comma_at(list: &[u8]) -> Option<usize>
    ensures place { result ≡ position is_comma list.now }
    ensures bound { IfSome result (λ k. k < length list.now) }
{
    list.iter().position(|b| *b == b',')
}

/// The part before the first comma, and what follows that comma.
#[tactic(auto, using(crate::proofs::Parts::one_part, crate::proofs::Parts::more_parts))]
fn first_part(list: &[u8]) -> (&[u8], Option<&[u8]>)
    ensures parts { slice_split is_comma list.now ≡ result.0.now ∷ parts result.1 }
    ensures shorter { left_of result.1 < length list.now + 1 }
{
    match comma_at(list) {
        None => (list, None),
        Some(place) => {
            let (_, after) = list.split_at(place + 1);
            (&list[..place], Some(after))
        }
    }
}

/// The names and values of a list.
pub fn defines(alloc: Global, list: &[u8]) -> Result<Vec<(Name, Name)>, WordsError>
    ensures { Gives (λ v. v.items) fault_of result (defines_of list.now) }
{
    let mut pairs = Vec::new(alloc);
    let mut rest = Some(list);
    while let Some(text) = rest {
        let (part, after) = first_part(text);
        let one = pair(alloc, part)?;
        pairs.push(one)?;
        rest = after;
    }
    Ok(pairs)
}
