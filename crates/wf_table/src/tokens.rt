//! The tokens of a line.

ghost use Rattle.std.specs.Prelude.{◌≡◌, ◌≤◌, ◌+◌, ◌++◌, IfOk, OnOk, length, map};
ghost use Rattle.std.specs.List.{prefix_len};
ghost use Rattle.wf_model.specs.Letters.{is_name_byte};
ghost use Rattle.wf_model.specs.Lines.{begins_with};
ghost use Rattle.wf_model.specs.Tokens.{joined_text, token, token_rest, tokens_of};
ghost use Rattle.wf_table.specs.Joined.{behind_blank};
ghost use Rattle.wf_table.specs.Place.{token_of};

use crate::place::Token;
use std::alloc::{AllocError, Global};
use wf_model::Line;

/// Adds a word, behind a blank if it isn't the first.
fn push_word(text: &mut Vec<u8>, place: usize, word: &[u8]) -> Result<(), AllocError>
    ensures { OnOk result (text.new.items ≡ text.old.items ++ behind_blank place word.now) }
{
    if place == 0 {
        text.extend_from_slice(word)?;
        return Ok(());
    }
    text.push(b' ')?;
    text.extend_from_slice(word)?;
    Ok(())
}

/// The words of a line, joined by one blank.
pub(crate) fn joined_text(alloc: Global, line: &Line) -> Result<Vec<u8>, AllocError>
    ensures { IfOk result (λ v. v.items ≡ joined_text line.now) }
{
    let words = line.words.as_slice();
    let mut text = Vec::new(alloc);
    for i in 0..words.len() {
        push_word(&mut text, i, words[i].text.as_slice())?;
    }
    Ok(text)
}

fn is_name_byte(b: u8) -> bool
    ensures { result ≡ is_name_byte b }
{
    b.is_ascii_alphanumeric() || b == b'_'
}

/// How many of these bytes a name or a number goes on with.
fn name_len(bytes: &[u8]) -> usize
    ensures count { result ≡ prefix_len is_name_byte bytes.now }
    ensures bound { result ≤ length bytes.now }
{
    bytes.iter().take_while(|b| is_name_byte(**b)).count()
}

fn begins_with(b: u8, bytes: &[u8]) -> bool
    ensures { result ≡ begins_with b bytes.now }
{
    match bytes {
        [] => false,
        [first, ..] => *first == b,
    }
}

/// How many bytes the token has that begins with `first`, behind that one.
fn token_rest(first: u8, after: &[u8]) -> usize
    ensures count { result ≡ token_rest first after.now }
    ensures bound { result ≤ length after.now }
{
    if is_name_byte(first) {
        return name_len(after);
    }
    if first == b'<' && begins_with(b'=', after) {
        return 1;
    }
    0
}

/// The token with this text, whose first byte has this place in its line, from 0.
fn token<'a>(text: &'a [u8], place: usize) -> Result<Token<'a>, AllocError>
    ensures { IfOk result (λ t. token_of t ≡ token text.now (place + 1)) }
{
    let column = u32::try_from(place).map_err(|_| AllocError)?;
    let column = column.checked_add(1).ok_or(AllocError)?;
    Ok(Token { text, column })
}

/// The tokens of a line's text, and its end.
pub(crate) fn tokens_of<'a>(alloc: Global, text: &'a [u8]) -> Result<Vec<Token<'a>>, AllocError>
    ensures { IfOk result (λ v. map token_of v.items ≡ tokens_of text.now) }
{
    let mut tokens = Vec::new(alloc);
    let mut at = 0;
    while at < text.len() {
        let first = text[at];
        if first == b' ' {
            at += 1;
        } else {
            let (_, from) = text.split_at(at);
            let (_, after) = text.split_at(at + 1);
            let size = token_rest(first, after) + 1;
            let (word, _) = from.split_at(size);
            let token = token(word, at)?;
            tokens.push(token)?;
            at += size;
        }
    }
    let end = token(b"", at)?;
    tokens.push(end)?;
    Ok(tokens)
}
