//! The token that begins at a byte.

ghost use Rattle.std.specs.Prelude.{◌≡◌, ◌≤◌, ◌≢◌, ◌∷◌, IfOk, length};
ghost use Rattle.std.specs.List.{prefix_len, take_while};
ghost use Rattle.wf_model.specs.Letters.{is_name_byte};
ghost use Rattle.wf_model.specs.NamelistTokens.{begin_token, group_token, in_group, is_word_byte};
ghost use Rattle.wf_model.specs.NamelistTokens.{quoted, scanned, text_token};
ghost use Rattle.wf_model.specs.declared.namelist.Sort.TheVariants.{Word};
ghost use Rattle.wf_namelist.specs.Scanning.{token_of, where_of};

use crate::place::Place;
use crate::quoted::quoted;
use std::alloc::{AllocError, Global};
use wf_model::{Bytes, Name, Sort};
use wf_text::lower;

/// A token that begins, how many bytes it has after its first, and where scanning goes on.
#[derive(Drop)]
pub(crate) struct Begun {
    pub(crate) sort: Sort,
    pub(crate) size: usize,
    pub(crate) next: Place,
}

/// Whether a word goes on with this byte: blanks, line ends and `,` `/` `!` `=` `&` `(` `'` `"`
/// end it.
fn is_word_byte(b: u8) -> bool
    ensures { result ≡ is_word_byte b }
{
    match b {
        b' ' | b'\t' | b'\n' | b'\r' => false,
        b',' | b'/' | b'!' | b'=' | b'&' | b'(' | b'\'' | b'"' => false,
        _ => true,
    }
}

/// How many bytes a word has that goes on with these.
fn word_len(bytes: &[u8]) -> usize
    ensures count { result ≡ prefix_len is_word_byte bytes.now }
    ensures bound { result ≤ length bytes.now }
{
    let mut count = 0;
    while count < bytes.len() && is_word_byte(bytes[count]) {
        count += 1;
    }
    count
}

fn is_name_byte(b: u8) -> bool
    ensures { result ≡ is_name_byte b }
{
    b.is_ascii_alphanumeric() || b == b'_'
}

/// How many letters, digits and `_` these bytes begin with.
fn name_len(bytes: &[u8]) -> usize
    ensures count { result ≡ prefix_len is_name_byte bytes.now }
    ensures bound { result ≤ length bytes.now }
{
    let mut count = 0;
    while count < bytes.len() && is_name_byte(bytes[count]) {
        count += 1;
    }
    count
}

/// A token of one byte.
fn mark(sort: Sort, next: Place) -> Begun
    ensures token { token_of result ≡ scanned sort 0 (where_of next) }
    ensures size { result.size ≡ 0 }
{
    let size = 0;
    Begun { sort, size, next }
}

/// The token of an `&` outside groups, with a name at once behind it or none.
pub(crate) fn begin_token(alloc: Global, after: &[u8]) -> Result<Begun, AllocError>
    ensures token { IfOk result (λ t. token_of t ≡ begin_token after.now) }
    ensures bound { IfOk result (λ t. t.size ≤ length after.now) }
{
    let size = name_len(after);
    let name = &after[..size];
    if !Name::is_name(name) {
        return Ok(mark(Sort::NoName, Place::Passing));
    }
    let sort = Sort::GroupBegins(Bytes::from_vec(lower(alloc, name)?));
    let next = Place::InGroup;
    Ok(Begun { sort, size, next })
}

/// The word that begins with a byte and goes on in the bytes after it.
fn word_token(alloc: Global, first: u8, after: &[u8]) -> Result<Begun, AllocError>
    ensures token { IfOk result (λ t. token_of t ≡ scanned (Word
        (first ∷ take_while is_word_byte after.now)) (prefix_len is_word_byte after.now) in_group) }
    ensures bound { IfOk result (λ t. t.size ≤ length after.now) }
{
    let size = word_len(after);
    let mut word = Vec::with_capacity(alloc, size + 1)?;
    word.push(first)?;
    word.extend_from_slice(&after[..size])?;
    let sort = Sort::Word(Bytes::from_vec(word));
    let next = Place::InGroup;
    Ok(Begun { sort, size, next })
}

/// The quoted text whose first quote stands before these bytes, or an open one.
fn text_token(alloc: Global, quote: u8, after: &[u8]) -> Result<Begun, AllocError>
    requires { quote ≢ 10 }
    ensures token { IfOk result (λ t. token_of t ≡ text_token (quoted quote after.now)) }
    ensures bound { IfOk result (λ t. t.size ≤ length after.now) }
{
    match quoted(alloc, quote, after)? {
        None => Ok(mark(Sort::OpenText, Place::Passing)),
        Some((text, size)) => {
            let sort = Sort::Text(text);
            let next = Place::InGroup;
            Ok(Begun { sort, size, next })
        }
    }
}

/// The token that begins with a byte in a group.
pub(crate) fn group_token(alloc: Global, first: u8, after: &[u8]) -> Result<Begun, AllocError>
    ensures token { IfOk result (λ t. token_of t ≡ group_token first after.now) }
    ensures bound { IfOk result (λ t. t.size ≤ length after.now) }
{
    match first {
        b',' => Ok(mark(Sort::Comma, Place::InGroup)),
        b'=' => Ok(mark(Sort::Equals, Place::InGroup)),
        b'/' => Ok(mark(Sort::Slash, Place::Passing)),
        b'(' => Ok(mark(Sort::Parenthesis, Place::InGroup)),
        b'&' => Ok(mark(Sort::Ampersand, Place::Passing)),
        b'\'' | b'"' => text_token(alloc, first, after),
        b'\r' => Ok(mark(Sort::LoneReturn, Place::InGroup)),
        _ => word_token(alloc, first, after),
    }
}
