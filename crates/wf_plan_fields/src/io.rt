//! The parts of the IO column of a field.

ghost use Rattle.std.specs.Prelude.{◌≡◌, ◌≤◌, ◌<◌, ◌==◌, ◌+◌, ◌-◌, IfOk, IfSome, length, map};
ghost use Rattle.std.specs.Prelude.{position, take_while};
ghost use Rattle.std.specs.List.{before_first, position_or_len};
ghost use Rattle.std.specs.Char.{is_ascii_digit};
ghost use Rattle.std.specs.Option.{option_map};
ghost use Rattle.std.specs.Result.{result_ok};
ghost use Rattle.wf_model.specs.Io.{function_part, io_from, io_of, io_part, letter_part, parts_of};
ghost use Rattle.wf_model.specs.Io.{streams};
ghost use Rattle.wf_plan_fields.specs.IoParts.{first_part, letter_of, part_of, sized_of};

use std::alloc::{AllocError, Global};
use wf_model::{Bytes, List, Name};
use wf_text::{is_dash, lower};

/// What a stored function of a level is for.
#[derive(Clone, Copy)]
pub(crate) enum Use {
    /// Feedback, letter `u`.
    Up,
    /// A nest's start, letter `d`.
    Down,
    /// A nest's forced rows, letter `f`.
    Edge,
}

/// What a part of the column says.
#[derive(Drop)]
pub(crate) enum Part {
    /// `i`, of these streams.
    Input(List<u8>),
    /// `h`, of these streams.
    Output(List<u8>),
    Restarted,
    Smoothed,
    /// A letter of a function, and the function's name in lower case, if one is named.
    Fed(Use, Option<Bytes>),
}

/// A part, and how many bytes it has after its first.
type Sized = (Part, usize);

// ---- words

/// How many digits stand at the front.
fn digit_count(bytes: &[u8]) -> usize
    ensures count { result ≡ length (take_while is_ascii_digit bytes.now) }
    ensures bound { result ≤ length bytes.now }
{
    bytes.iter().take_while(|b| b.is_ascii_digit()).count()
}

/// The place of the first such byte, from 0.
fn find_byte(bytes: &[u8], wanted: u8) -> Option<usize>
    ensures { result ≡ position (λ b. b == wanted) bytes.now }
{
    bytes.iter().position(|b| *b == wanted)
}

/// The place of the first such byte, or the length where there is none.
#[tactic(auto, using(wf_model::proofs::FirstPlaces::found, wf_model::proofs::FirstPlaces::not_found))]
fn place_of(bytes: &[u8], wanted: u8) -> usize
    ensures place { result ≡ position_or_len (λ b. b == wanted) bytes.now }
    ensures bound { result ≤ length bytes.now }
{
    match find_byte(bytes, wanted) {
        Some(place) => place,
        None => bytes.len(),
    }
}

/// What stands before the first such byte.
fn before(bytes: &[u8], wanted: u8) -> &[u8]
    ensures front { result.now ≡ before_first (λ b. b == wanted) bytes.now }
    ensures bound { length result.now ≤ length bytes.now }
{
    let (front, _) = bytes.split_at(place_of(bytes, wanted));
    front
}

// ---- parts

/// The numbers of digits, one by one.
fn digit_values(alloc: Global, digits: &[u8]) -> Result<Vec<u8>, AllocError>
    ensures { IfOk result (λ v. v.items ≡ map (λ c. c - 48) digits.now) }
{
    digits.iter().map(|b| b.saturating_sub(b'0')).collect(alloc)
}

/// The streams that digits name: each digit its own, and no digits stream 0.
fn streams(alloc: Global, digits: &[u8]) -> Result<List<u8>, AllocError>
    ensures { IfOk result (λ s. s ≡ streams digits.now) }
{
    if digits.is_empty() {
        return Ok(List::from_vec(Vec::from_slice(alloc, [0].as_slice())?));
    }
    Ok(List::from_vec(digit_values(alloc, digits)?))
}

/// `(name)` or `(name:anything)` behind a letter and `=`.
fn function_part(alloc: Global, purpose: Use, bytes: &[u8]) -> Result<Option<Sized>, AllocError>
    ensures part { IfOk result
        (λ p. option_map sized_of p ≡ result_ok (function_part (letter_of purpose) bytes.now)) }
    ensures bound { IfOk result (λ p. IfSome p (λ s. s.1 ≤ length bytes.now + 1)) }
{
    let [b'(', ..] = bytes else {
        return Ok(None);
    };
    let (_, inner) = bytes.split_at(1);
    let len = before(bytes, b')').len();
    let name = before(before(inner, b')'), b':');
    if len == bytes.len() || !Name::is_name(name) {
        return Ok(None);
    }
    let name = Bytes::from_vec(lower(alloc, name)?);
    Ok(Some((Part::Fed(purpose, Some(name)), len + 2)))
}

/// A letter with its function or without, of which these bytes follow the letter.
fn letter_part(alloc: Global, purpose: Use, after: &[u8]) -> Result<Option<Sized>, AllocError>
    ensures part { IfOk result
        (λ p. option_map sized_of p ≡ result_ok (letter_part (letter_of purpose) after.now)) }
    ensures bound { IfOk result (λ p. IfSome p (λ s. s.1 ≤ length after.now)) }
{
    match after {
        [b'=', ..] => {
            let (_, function) = after.split_at(1);
            function_part(alloc, purpose, function)
        }
        _ => Ok(Some((Part::Fed(purpose, None), 0))),
    }
}

/// The part that begins with this byte, which these follow; none where no part does.
fn io_part(alloc: Global, first: u8, after: &[u8]) -> Result<Option<Sized>, AllocError>
    ensures part { IfOk result (λ p. option_map sized_of p ≡ result_ok (io_part first after.now)) }
    ensures bound { IfOk result (λ p. IfSome p (λ s. s.1 ≤ length after.now)) }
{
    let count = digit_count(after);
    let (digits, _) = after.split_at(count);
    match first {
        b'i' => Ok(Some((Part::Input(streams(alloc, digits)?), count))),
        b'h' => Ok(Some((Part::Output(streams(alloc, digits)?), count))),
        b'r' => Ok(Some((Part::Restarted, 0))),
        b's' => Ok(Some((Part::Smoothed, 0))),
        b'u' => letter_part(alloc, Use::Up, after),
        b'd' => letter_part(alloc, Use::Down, after),
        b'f' => letter_part(alloc, Use::Edge, after),
        _ => Ok(None),
    }
}

/// The part at the front, and what stands behind it; none where no part stands there.
fn first_part<'a>(alloc: Global, bytes: &'a [u8]) -> Result<Option<(Part, &'a [u8])>, AllocError>
    ensures part { IfOk result
        (λ p. option_map (λ s. (part_of s.0, s.1.now)) p ≡ result_ok (first_part bytes.now)) }
    ensures bound { IfOk result (λ p. IfSome p (λ s. length s.1.now < length bytes.now)) }
{
    let [first, after @ ..] = bytes else {
        return Ok(None);
    };
    match io_part(alloc, *first, after)? {
        Some((part, len)) => {
            let (_, rest) = after.split_at(len);
            Ok(Some((part, rest)))
        }
        None => Ok(None),
    }
}

/// The parts of a column that is no `-`; none at all where one is no part.
fn parts_from(alloc: Global, word: &[u8]) -> Result<Vec<Part>, AllocError>
    ensures { IfOk result (λ v. map part_of v.items ≡ parts_of (io_from 0 word.now)) }
{
    let mut parts = Vec::new(alloc);
    let mut rest = word;
    while !rest.is_empty() {
        match first_part(alloc, rest)? {
            Some((part, behind)) => {
                parts.push(part)?;
                rest = behind;
            }
            None => return Ok(Vec::new(alloc)),
        }
    }
    Ok(parts)
}

/// The parts of the column, in order; none of `-`, and none at all where one is no part.
pub(crate) fn parts_of(alloc: Global, word: &[u8]) -> Result<Vec<Part>, AllocError>
    ensures { IfOk result (λ v. map part_of v.items ≡ parts_of (io_of word.now)) }
{
    if is_dash(word) {
        return Ok(Vec::new(alloc));
    }
    parts_from(alloc, word)
}
