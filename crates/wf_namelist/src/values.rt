//! The values of a bare word, and those that begin at a token.

ghost use Rattle.std.specs.Prelude.{◌≡◌, ◌<◌, ◌∷◌, [], IfOk, IfSome, drop, length, position};
ghost use Rattle.std.specs.Prelude.{replicate};
ghost use Rattle.std.specs.Bool.{then_some};
ghost use Rattle.wf_model.specs.Letters.{digits_value, is_number_within};
ghost use Rattle.wf_model.specs.ValueForms.{is_whole};
ghost use Rattle.wf_model.specs.Namelist.{here, is_star, parted, repeated, repeated_text};
ghost use Rattle.wf_model.specs.Namelist.{values_here, word_value, word_values};
ghost use Rattle.wf_model.specs.Reading.{Gives};
ghost use Rattle.wf_namelist.specs.NamelistError.{fault_of};
ghost use Rattle.wf_namelist.specs.Words.{other_value};

use crate::error::NamelistError;
use crate::reading::{after, is_parted, refused, sort_at};
use std::alloc::{AllocError, Global};
use wf_model::limits::NAMELIST_VALUES;
use wf_model::{Bytes, NamelistKind, NamelistToken, Sort, Value};
use wf_text::{digits_up_to, is_decimal, is_digits, is_false_word, is_true_word, whole};

/// Values, and the place of the token behind them.
pub(crate) type Values = (Vec<Value>, usize);

/// A value so many times.
fn copies(alloc: Global, count: usize, value: &Value) -> Result<Vec<Value>, AllocError>
    ensures { IfOk result (λ v. v.items ≡ replicate count value.now) }
{
    let mut values = Vec::new(alloc);
    for _ in 0..count {
        values.push(value.copy(alloc)?)?;
    }
    Ok(values)
}

/// A list of one value.
fn one(alloc: Global, value: Value) -> Result<Vec<Value>, AllocError>
    ensures { IfOk result (λ v. v.items ≡ value ∷ []) }
{
    let mut values = Vec::new(alloc);
    values.push(value)?;
    Ok(values)
}

/// The values with the place behind them, where something parts them from what stands there; else
/// none, from the place where they began.
fn parted(
    values: Vec<Value>,
    tokens: &[NamelistToken],
    from: usize,
    next: usize,
) -> Result<Values, NamelistError>
    ensures { Gives (λ r. (r.0.items, drop r.1 tokens.now)) fault_of result
        (parted values.items (drop from tokens.now) (drop next tokens.now)) }
{
    if is_parted(tokens, next) {
        Ok((values, next))
    } else {
        Err(refused(tokens, from, NamelistKind::BadValue))
    }
}

/// The value of a word that is no whole number of 128 bits.
fn other_value(
    alloc: Global,
    word: &[u8],
    tokens: &[NamelistToken],
    at: usize,
) -> Result<Value, NamelistError>
    ensures { Gives (λ v. v) fault_of result (other_value word.now (drop at tokens.now)) }
{
    if is_decimal(word) {
        Ok(Value::Decimal(Bytes::copy_of(alloc, word)?))
    } else if is_true_word(word) {
        Ok(Value::Logical(true))
    } else if is_false_word(word) {
        Ok(Value::Logical(false))
    } else {
        Err(refused(tokens, at, NamelistKind::BadValue))
    }
}

/// Whether the word is decimal digits, with or without a sign.
fn is_whole(word: &[u8]) -> bool
    ensures { result ≡ is_whole word.now }
{
    match word {
        [b'+' | b'-', digits @ ..] => is_digits(digits),
        _ => is_digits(word),
    }
}

/// The value of a word: a whole number, a decimal number or a logical.
fn word_value(
    alloc: Global,
    word: &[u8],
    tokens: &[NamelistToken],
    at: usize,
) -> Result<Value, NamelistError>
    ensures { Gives (λ v. v) fault_of result (word_value word.now (drop at tokens.now)) }
{
    if let Some(number) = whole(word) {
        return Ok(Value::Int(number));
    }
    if is_whole(word) {
        return Err(refused(tokens, at, NamelistKind::BadValue));
    }
    other_value(alloc, word, tokens, at)
}

/// The values of a text that stands behind `r*`.
fn repeated_text(
    alloc: Global,
    count: usize,
    tokens: &[NamelistToken],
    from: usize,
    at: usize,
) -> Result<Values, NamelistError>
    ensures { Gives (λ r. (r.0.items, drop r.1 tokens.now)) fault_of result (repeated_text count
        (here (drop at tokens.now)).sort (drop from tokens.now) (drop at tokens.now)) }
{
    match sort_at(tokens, at) {
        Some(Sort::Text(text)) => {
            let value = Value::Text(text.copy(alloc)?);
            parted(
                copies(alloc, count, &value)?,
                tokens,
                from,
                after(tokens, at),
            )
        }
        Some(Sort::OpenText) => Err(refused(tokens, at, NamelistKind::UnclosedText)),
        _ => Err(refused(tokens, from, NamelistKind::BadValue)),
    }
}

/// The values of `r*` and what stands behind it in its word.
fn repeated(
    alloc: Global,
    count: usize,
    word: &[u8],
    tokens: &[NamelistToken],
    at: usize,
) -> Result<Values, NamelistError>
    ensures { Gives (λ r. (r.0.items, drop r.1 tokens.now)) fault_of result
        (repeated count word.now (drop at tokens.now)) }
{
    let next = after(tokens, at);
    if !word.is_empty() {
        let value = word_value(alloc, word, tokens, at)?;
        return parted(copies(alloc, count, &value)?, tokens, at, next);
    }
    if is_parted(tokens, next) {
        return Err(refused(tokens, at, NamelistKind::NullValue));
    }
    repeated_text(alloc, count, tokens, at, next)
}

/// The place of the first `*` of a word.
fn star_at(word: &[u8]) -> Option<usize>
    ensures place { result ≡ position is_star word.now }
    ensures bound { IfSome result (λ k. k < length word.now) }
{
    word.iter().position(|b| *b == b'*')
}

/// How often a value is repeated, by the digits before its `*`.
fn repeats(digits: &[u8]) -> Option<usize>
    ensures { result ≡ then_some (is_number_within 1 21 digits.now) (digits_value digits.now) }
{
    match digits_up_to(digits, NAMELIST_VALUES) {
        Some(count) if 1 <= count => Some(count as usize),
        _ => None,
    }
}

/// The values of a bare word.
fn word_values(
    alloc: Global,
    word: &[u8],
    tokens: &[NamelistToken],
    at: usize,
) -> Result<Values, NamelistError>
    ensures { Gives (λ r. (r.0.items, drop r.1 tokens.now)) fault_of result
        (word_values word.now (drop at tokens.now)) }
{
    match star_at(word) {
        None => {
            let value = word_value(alloc, word, tokens, at)?;
            parted(one(alloc, value)?, tokens, at, after(tokens, at))
        }
        Some(star) => {
            let (digits, _) = word.split_at(star);
            let (_, value) = word.split_at(star + 1);
            match repeats(digits) {
                Some(count) => repeated(alloc, count, value, tokens, at),
                None => Err(refused(tokens, at, NamelistKind::BadValue)),
            }
        }
    }
}

/// The values that begin at a token.
pub(crate) fn values_here(
    alloc: Global,
    tokens: &[NamelistToken],
    at: usize,
) -> Result<Values, NamelistError>
    ensures { Gives (λ r. (r.0.items, drop r.1 tokens.now)) fault_of result
        (values_here (here (drop at tokens.now)).sort (drop at tokens.now)) }
{
    match sort_at(tokens, at) {
        Some(Sort::Word(word)) => word_values(alloc, word.as_slice(), tokens, at),
        Some(Sort::Text(text)) => {
            let value = Value::Text(text.copy(alloc)?);
            parted(one(alloc, value)?, tokens, at, after(tokens, at))
        }
        Some(Sort::OpenText) => Err(refused(tokens, at, NamelistKind::UnclosedText)),
        _ => Err(refused(tokens, at, NamelistKind::BadValue)),
    }
}
