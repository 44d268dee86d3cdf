//! The words of a physical line, with their columns.

ghost use Rattle.std.specs.Prelude.{◌≡◌, ◌+◌, ◌<◌, ◌≤◌, ◌^◌, IfOk, IfSome, length, position};
ghost use Rattle.std.specs.Prelude.{unwrap_or};
ghost use Rattle.wf_model.specs.Lines.{ends_word, is_blank, is_quote, quoted_word, word_at};
ghost use Rattle.wf_model.specs.Lines.{words_from};
ghost use Rattle.wf_model.specs.Reading.{Gives};
ghost use Rattle.wf_text.specs.TextError.{fault_of};

use crate::error::TextError;
use std::alloc::{AllocError, Global};
use wf_model::{Bytes, Word};

/// So many words a physical line of a Registry or namelist usually has at most: room for them is
/// made at once.
const USUAL_WORDS: usize = 16;

fn is_blank(b: u8) -> bool
    ensures { result ≡ is_blank b }
{
    b == b' ' || b == b'\t'
}

/// Whether a word without quotes ends before this byte.
fn ends_word(b: u8) -> bool
    ensures { result ≡ ends_word b }
{
    is_blank(b) || b == b'#'
}

/// A column as it is kept, in 32 bits.
fn kept_column(column: usize) -> Result<u32, AllocError>
    ensures { IfOk result (λ n. n ≡ column) }
{
    u32::try_from(column).map_err(|_| AllocError)
}

fn quote_at(bytes: &[u8]) -> Option<usize>
    ensures place { result ≡ position is_quote bytes.now }
    ensures bound { IfSome result (λ k. k < length bytes.now) }
{
    bytes.iter().position(|b| *b == b'"')
}

fn word_end(bytes: &[u8]) -> Option<usize>
    ensures place { result ≡ position ends_word bytes.now }
    ensures bound { IfSome result (λ k. k < length bytes.now) }
{
    bytes.iter().position(|b| ends_word(*b))
}

/// How many of these bytes belong to the word without quotes that they go on with.
fn plain_len(bytes: &[u8]) -> usize
    ensures count { result ≡ unwrap_or (position ends_word bytes.now) (length bytes.now) }
    ensures bound { result ≤ length bytes.now }
{
    match word_end(bytes) {
        Some(count) => count,
        None => bytes.len(),
    }
}

/// The quoted word whose first `"` stands before these bytes, and how many bytes it takes with
/// its quotes.
fn quoted_word(
    alloc: Global,
    number: u32,
    column: u32,
    after: &[u8],
) -> Result<(Word, usize), TextError>
    requires { length after.now + 1 < 2 ^ 64 }
    ensures word { Gives (λ x. x) fault_of result
        (quoted_word number column after.now (position is_quote after.now)) }
    ensures bound { IfOk result (λ x. (0 < x.1) × (x.1 ≤ length after.now + 1)) }
{
    match quote_at(after) {
        Some(count) => {
            let text = Bytes::from_vec(Vec::from_slice(alloc, &after[..count])?);
            let quoted = true;
            let word = Word {
                text,
                quoted,
                column,
            };
            Ok((word, count + 2))
        }
        None => Err(TextError::UnclosedQuote {
            line: number,
            column,
        }),
    }
}

/// The word that begins with `first` and goes on in `after`, and how many bytes it takes.
#[tactic(auto, unfolding(wf_model::specs::Lines::word_at))]
fn word_at(
    alloc: Global,
    number: u32,
    column: usize,
    first: u8,
    after: &[u8],
) -> Result<(Word, usize), TextError>
    requires { length after.now + 1 < 2 ^ 64 }
    ensures word { Gives (λ x. x) fault_of result (word_at number column first after.now) }
    ensures bound { IfOk result (λ x. (0 < x.1) × (x.1 ≤ length after.now + 1)) }
{
    let column = kept_column(column)?;
    if first == b'"' {
        return quoted_word(alloc, number, column, after);
    }
    let count = plain_len(after);
    let mut text = Vec::with_capacity(alloc, count + 1)?;
    text.push(first)?;
    text.extend_from_slice(&after[..count])?;
    let text = Bytes::from_vec(text);
    let quoted = false;
    let word = Word {
        text,
        quoted,
        column,
    };
    Ok((word, count + 1))
}

/// The words of the physical line with this number, up to its comment.
pub fn words_of(alloc: Global, number: u32, line: &[u8]) -> Result<Vec<Word>, TextError>
    ensures { Gives (λ v. v.items) fault_of result (words_from number 1 0 line.now) }
{
    let mut words = Vec::with_capacity(alloc, USUAL_WORDS)?;
    let mut at = 0;
    while at < line.len() {
        let first = line[at];
        if is_blank(first) {
            at += 1;
        } else if first == b'#' {
            return Ok(words);
        } else {
            let (_, after) = line.split_at(at + 1);
            let (word, count) = word_at(alloc, number, at + 1, first, after)?;
            words.push(word)?;
            at += count;
        }
    }
    Ok(words)
}
